//! Why a build is refused.
use mt_path::Path;
use mt_tokens::{SourceFault, Text};
use std::alloc::AllocError;
use thiserror::Error;

/// Why a build is refused.
#[derive(Debug, Drop, Error)]
pub enum BuildFault {
    /// An entry has no source in the snapshot.
    #[error("entry {path} is not a source file")]
    EntryMissing {
        path: Path,
    },
    /// A source is refused.
    #[error("{path}: {fault}")]
    Source {
        path: Path,
        fault: SourceFault,
    },
    /// A name leads to no source; the place is where its string begins, in bytes from 0.
    #[error("{path}:{place}: cannot resolve {name}")]
    Unresolved {
        path: Path,
        place: u32,
        name: Text,
    },
    /// A name leads to a package whose file can't be read; the place is where its string begins, in bytes from 0.
    #[error("{path}:{place}: bad package file {package}")]
    Package {
        path: Path,
        place: u32,
        package: Path,
    },
    /// The entries reach more than 65,536 modules.
    #[error("more than 65536 modules")]
    TooManyModules,
    /// No memory for the build.
    #[error("out of memory")]
    NoMemory,
}

impl From<AllocError> for BuildFault {
    ghost use Rattle.std.specs.Prelude.{◌≡◌};
    ghost use Rattle.mt_files.specs.declared.build_fault.BuildFault.TheVariants.{NoMemory};

    ghost from_gives = { λ _ e. e ≡ NoMemory };

    fn from(_: AllocError) -> BuildFault {
        BuildFault::NoMemory
    }
}
