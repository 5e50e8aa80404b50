//! What a source is by its path.
ghost use Rattle.std.specs.Prelude.{◌≡◌};
ghost use Rattle.mt_files.specs.Edges.{kind_of};

use mt_path::Path;
use mt_tokens::PathKind;

/// The kind of the source at a path.
pub fn path_kind(path: &Path) -> PathKind
    ensures { result ≡ kind_of path.now }
{
    match path.extension() {
        Some("json") => PathKind::Json,
        _ => PathKind::Script,
    }
}
