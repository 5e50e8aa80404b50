//! Folders of files, as a program sees them.
ghost use Rattle.std.specs.Prelude.{◌≡◌, ℕ, List, Some, IfOk, IsErrOf, true};
ghost use Rattle.std.specs.FinMap as map;
ghost use Rattle.mt_io.specs.Files.{Files, IsChildrenOf, is_folder_in};
ghost use Rattle.mt_io.specs.Seen.{Looks, Replaces, Seen, Tells};

use crate::trouble::Trouble;
use mt_containers::List;
use mt_path::Path;
use mt_tokens::{Bytes, Text};
use std::alloc::Global;

/// What a name in a folder is the name of.
#[derive(Clone, Copy, Debug, PartialEq, Eq)]
pub enum NamedKind {
    /// A file with bytes.
    File,
    /// A folder.
    Folder,
    /// Something else, as a link or a device.
    Other,
}

/// A child of a folder.
#[derive(Debug, Drop)]
pub struct Named {
    /// The name alone, without the folder's path.
    pub name: Text,
    /// What it is the name of.
    pub kind: NamedKind,
}

/// The children of a folder.
pub type NamedList = List<Named>;

/// A tree of files.
pub trait Folder {
    /// What contracts see: the faults, the bytes of each file by its path, and what the folder tells beside this trait.
    ghost seen: { Self → Seen Files };

    ghost use Rattle.mt_io.specs.declared.folder.Named.{Named};

    /// What `list` may answer of a folder. Where the folder tells nothing, an answer is one that it may give, and no more
    /// is known of it.
    ghost lists: { List ℕ → List Named → Type 0 };

    /// What `read` may answer of a file.
    ghost reads: { List ℕ → List ℕ → Type 0 };

    /// How many faults there were. The count stays at the greatest `u64` once it is there.
    fn faults(&self) -> u64
        ensures count { result ≡ (seen self.now).faults };

    /// The children of a folder that is there, in any order: the root, or a folder with a file below it.
    fn list(&mut self, alloc: Global, folder: &Path) -> Result<NamedList, Trouble>
        requires there { (files : Files) → Tells (seen self.old) files → is_folder_in files folder.now ≡ true }
        ensures listed { IfOk result (λ names. (files : Files) → Tells (seen self.old) files → IsChildrenOf files folder.now names) }
        ensures given { IfOk result (lists folder.now) }
        ensures looks { Looks (seen self.old) (seen self.new) (IsErrOf result Trouble.Failed) };

    /// The bytes of a file that is there.
    fn read(&mut self, alloc: Global, path: &Path) -> Result<Bytes, Trouble>
        requires there { (files : Files) → Tells (seen self.old) files → map.contains_key files path.now ≡ true }
        ensures bytes { IfOk result (λ bytes. (files : Files) → Tells (seen self.old) files → map.get files path.now ≡ Some bytes) }
        ensures given { IfOk result (reads path.now) }
        ensures looks { Looks (seen self.old) (seen self.new) (IsErrOf result Trouble.Failed) };

    /// Makes the file of this path have these bytes. After an `Err` that file may be as it was, changed
    /// or gone; the others stay as they were.
    fn write(&mut self, alloc: Global, path: &Path, bytes: &[u8]) -> Result<(), Trouble>
        ensures replaces { Replaces (seen self.old) (seen self.new) path.now bytes.now result };
}
