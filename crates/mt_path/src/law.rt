//! Laws of the definitions that contracts cite, on functions that do nothing.
ghost use Rattle.std.specs.Prelude.{◌≡◌, ◌≤◌, List, ℕ, length};
ghost use Rattle.mt_path.specs.Segments.{AreSegments, segments_of, text_of};
ghost use Rattle.mt_path.specs.Parse.{IsPath, max_bytes};

use crate::path::Path;

impl Path {
    /// Does nothing, and carries a law: paths are the lists of segments whose texts are short enough. The text of a list
    /// of segments has those segments. It is a path where it has at most `MAX_BYTES` bytes. A path's text is the text of
    /// its segments, and these are segments.
    pub fn law_of_segments()
        ensures list { (segments : List (List ℕ)) → AreSegments segments → segments_of (text_of segments) ≡ segments }
        ensures path { (segments : List (List ℕ)) → AreSegments segments → length (text_of segments) ≤ max_bytes → IsPath (text_of segments) }
        ensures text { (text : List ℕ) → IsPath text → text_of (segments_of text) ≡ text }
        ensures segments { (text : List ℕ) → IsPath text → AreSegments (segments_of text) }
        ensures short { (text : List ℕ) → IsPath text → length text ≤ max_bytes }
    {}
}
