//! Why a crawl gave no snapshot.
use mt_io::Trouble;
use mt_path::Path;
use std::alloc::{AllocError, AllocFailed};
use thiserror::Error;

/// Why a crawl gave no snapshot.
#[derive(Debug, Drop, Error)]
pub enum CrawlFault {
    /// The folder failed, and has counted a fault.
    #[error("the folder failed")]
    Failed,
    /// A source has more than `MAX_SOURCE_BYTES` bytes.
    #[error("{path} has {size} bytes")]
    FileTooLarge {
        /// The path of the source.
        path: Path,
        /// How many bytes were read.
        size: usize,
    },
    /// There are more than `MAX_FILES` files.
    #[error("there are too many files")]
    TooManyFiles,
    /// The sources have more than `MAX_FOLDER_BYTES` bytes together.
    #[error("the sources are too large together")]
    TooManyBytes,
    /// There was no memory for the snapshot.
    #[error("out of memory")]
    NoMemory,
}

impl From<Trouble> for CrawlFault {
    ghost use Rattle.std.specs.Prelude.{◌≡◌};
    ghost use Rattle.mt_files.specs.Faults.{crawl_fault_of};

    ghost from_gives = { λ trouble e. e ≡ crawl_fault_of trouble };

    fn from(trouble: Trouble) -> CrawlFault {
        match trouble {
            Trouble::Failed => CrawlFault::Failed,
            Trouble::NoMemory => CrawlFault::NoMemory,
        }
    }
}

impl From<AllocError> for CrawlFault {
    ghost use Rattle.std.specs.Prelude.{◌≡◌};
    ghost use Rattle.mt_files.specs.declared.fault.CrawlFault.TheVariants.{NoMemory};

    ghost from_gives = { λ _ e. e ≡ NoMemory };

    fn from(_: AllocError) -> CrawlFault {
        CrawlFault::NoMemory
    }
}

impl<T: Drop> From<AllocFailed<T>> for CrawlFault {
    ghost use Rattle.std.specs.Prelude.{◌≡◌};
    ghost use Rattle.mt_files.specs.declared.fault.CrawlFault.TheVariants.{NoMemory};

    ghost from_gives = { λ _ e. e ≡ NoMemory };

    fn from(_: AllocFailed<T>) -> CrawlFault {
        CrawlFault::NoMemory
    }
}
