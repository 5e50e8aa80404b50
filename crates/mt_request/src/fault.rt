//! Why a command line asks for nothing.
ghost use Rattle.std.specs.Prelude.{◌≡◌};
ghost use Rattle.mt_request.specs.Faults.{word_fault};

use mt_words::WordsFault;
use std::alloc::AllocError;
use thiserror::Error;

/// Why a command line asks for nothing.
#[derive(Debug, Drop, Error)]
pub enum WordFault {
    /// The words aren't those of a command: the number of the first bad word, from 1. For anything missing at the end
    /// it is the number of words plus 1.
    #[error("word {0} is bad")]
    BadWord(u32),
    /// There was no memory for the words.
    #[error("out of memory")]
    NoMemory,
}

impl From<AllocError> for WordFault {
    ghost use Rattle.std.specs.Prelude.{◌≡◌};
    ghost use Rattle.mt_request.specs.declared.fault.WordFault.TheVariants.{NoMemory};

    ghost from_gives = { λ _ fault. fault ≡ NoMemory };

    fn from(_: AllocError) -> WordFault {
        WordFault::NoMemory
    }
}

/// The fault of the reader of words, with the same number.
impl From<WordsFault> for WordFault {
    ghost use Rattle.std.specs.Prelude.{◌≡◌};
    ghost use Rattle.mt_request.specs.Faults.{word_fault};

    ghost from_gives = { λ read fault. fault ≡ word_fault read };

    fn from(fault: WordsFault) -> WordFault {
        match fault {
            WordsFault::Bad { at } => WordFault::BadWord(at),
            WordsFault::NoMemory => WordFault::NoMemory,
        }
    }
}
