//! What a text depends on.
use crate::{DepKind, Text};
use std::alloc::AllocError;
use thiserror::Error;

/// A dependency of a text. Its list has each name and kind once.
#[derive(Debug, Drop)]
pub struct Dep {
    /// What its string says.
    pub name: Text,
    /// How the text names it.
    pub kind: DepKind,
    /// Where the first string of this name and kind begins, in bytes from 0.
    pub place: u32,
}

/// A range of a text, and what takes its place in a bundle. Places are in bytes from 0.
#[derive(Debug, Drop)]
pub struct Use {
    /// Where the range begins.
    pub start: u32,
    /// The place after it.
    pub end: u32,
    /// What takes its place.
    pub text: Text,
}

/// A name that a text exports: its body is to end with `exports.NAME = LOCAL;`.
#[derive(Debug, Drop)]
pub struct Mark {
    /// The name under which it is exported.
    pub name: Text,
    /// The name that it has in the text.
    pub local: Text,
}

/// Why a text has no dependencies. Places are in bytes from 0.
#[derive(Clone, Copy, Debug, PartialEq, Eq, Error)]
pub enum DepFault {
    /// An `import` that begins no form of an import.
    #[error("the import at {place} has no known form")]
    ImportForm { place: u32 },
    /// An `export` that begins no form of an export.
    #[error("the export at {place} has no known form")]
    ExportForm { place: u32 },
    #[error("out of memory")]
    NoMemory,
}

impl From<AllocError> for DepFault {
    ghost use Rattle.std.specs.Prelude.{◌≡◌};
    ghost use Rattle.mt_tokens.specs.declared.dep.DepFault.TheVariants.{NoMemory};

    ghost from_gives = { λ _ e. e ≡ NoMemory };

    fn from(_: AllocError) -> DepFault {
        DepFault::NoMemory
    }
}
