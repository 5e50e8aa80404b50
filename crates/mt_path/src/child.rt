//! The paths that are made of a path: its child of a name, and the path with a suffix.
ghost use Rattle.std.specs.Prelude.{◌≡◌, ◌++◌, IfOk, IfSome, string_bytes};
ghost use Rattle.mt_path.specs.Parse.{IsPath};
ghost use Rattle.mt_path.specs.Children.{child_of, prefix_of, suffixed};

use crate::path::{Path, is_segment_part};
use std::alloc::{AllocError, Global};

impl Path {
    /// The text that the texts of this folder's children begin with.
    fn prefix(&self, alloc: Global) -> Result<String, AllocError>
        ensures exact { IfOk result (λ text. string_bytes text ≡ prefix_of self.now) }
        ensures path { IsPath self.now }
    {
        let mut text = String::from_str(alloc, self.as_str())?;
        if self.is_root() {
            return Ok(text);
        }
        text.push_str("/")?;
        Ok(text)
    }

    /// The path of this folder's child of that name.
    ///
    /// None exactly where the name isn't a segment, or the text of the path would have more than `MAX_BYTES` bytes.
    pub fn child(&self, alloc: Global, name: &str) -> Result<Option<Path>, AllocError>
        ensures exact { IfOk result (λ path. path ≡ child_of self.now name.now) }
        ensures text { IfOk result (λ path. IfSome path (λ text. text ≡ prefix_of self.now ++ name.now)) }
    {
        if !is_segment_part(name.as_bytes()) {
            return Ok(None);
        }
        let mut text = self.prefix(alloc)?;
        text.push_str(name)?;
        Ok(Path::bounded(text))
    }

    /// The path whose last segment has the suffix at its end, as `/App.ios.js` is `/App` with `.ios.js`.
    ///
    /// None exactly for the root, where the last segment with the suffix isn't a segment, or where the text of the path
    /// would have more than `MAX_BYTES` bytes.
    pub fn with_suffix(&self, alloc: Global, suffix: &str) -> Result<Option<Path>, AllocError>
        ensures exact { IfOk result (λ path. path ≡ suffixed self.now suffix.now) }
        ensures text { IfOk result (λ path. IfSome path (λ text. text ≡ self.now ++ suffix.now)) }
    {
        if self.is_root() {
            return Ok(None);
        }
        let (_, name) = self.cut();
        let mut segment = String::from_str(alloc, name)?;
        segment.push_str(suffix)?;
        let folder = self.parent(alloc)?;
        folder.child(alloc, segment.as_str())
    }
}
