//! Why a script gave no command.
ghost use Rattle.std.specs.Prelude.{◌≡◌, IfOk, OnErr};
ghost use Rattle.mt_script.specs.Faults.{HasPath};

use mt_io::{Failed, Trouble};
use mt_path::Path;
use std::alloc::AllocError;
use thiserror::Error;

/// Why a script gave no command. Commands are numbered from 1.
#[derive(Debug, Drop, Error)]
pub enum ScriptFault {
    /// The line is no command, or no line feed follows the bytes of a `put`.
    #[error("command {command} is no command")]
    Bad {
        /// The number of the command.
        command: u32,
    },
    /// The source ended before the command did, or before an `end`.
    #[error("the script is cut in command {command}")]
    Cut {
        /// The number of the command.
        command: u32,
    },
    /// A `put` has more than `MAX_SOURCE_BYTES` bytes.
    #[error("{path} is to have {size} bytes")]
    FileTooLarge {
        /// The path of the file.
        path: Path,
        /// How many bytes the line of the `put` announces.
        size: u32,
    },
    /// The line is a command, and there were `MAX_COMMANDS` before it.
    #[error("there are too many commands")]
    TooManyCommands,
    /// The source failed, and has counted a fault.
    #[error("the source failed")]
    Failed,
    /// There was no memory for the command.
    #[error("out of memory")]
    NoMemory,
}

impl ScriptFault {
    /// The same fault once more. Only the path of `FileTooLarge` takes memory.
    pub(crate) fn copied(&self) -> Result<ScriptFault, AllocError>
        ensures same { IfOk result (λ fault. fault ≡ self.now) }
        ensures small { OnErr result (HasPath self.now) }
    {
        Ok(match self {
            ScriptFault::Bad { command } => ScriptFault::Bad { command: *command },
            ScriptFault::Cut { command } => ScriptFault::Cut { command: *command },
            ScriptFault::FileTooLarge { path, size } => ScriptFault::FileTooLarge {
                path: path.clone()?,
                size: *size,
            },
            ScriptFault::TooManyCommands => ScriptFault::TooManyCommands,
            ScriptFault::Failed => ScriptFault::Failed,
            ScriptFault::NoMemory => ScriptFault::NoMemory,
        })
    }
}

impl From<Failed> for ScriptFault {
    ghost use Rattle.std.specs.Prelude.{◌≡◌};
    ghost use Rattle.mt_script.specs.declared.fault.ScriptFault.TheVariants.{Failed};

    ghost from_gives = { λ _ fault. fault ≡ Failed };

    fn from(_: Failed) -> ScriptFault {
        ScriptFault::Failed
    }
}

impl From<AllocError> for ScriptFault {
    ghost use Rattle.std.specs.Prelude.{◌≡◌};
    ghost use Rattle.mt_script.specs.declared.fault.ScriptFault.TheVariants.{NoMemory};

    ghost from_gives = { λ _ fault. fault ≡ NoMemory };

    fn from(_: AllocError) -> ScriptFault {
        ScriptFault::NoMemory
    }
}

impl From<Trouble> for ScriptFault {
    ghost use Rattle.std.specs.Prelude.{◌≡◌};
    ghost use Rattle.mt_script.specs.Faults.{trouble_fault};

    ghost from_gives = { λ trouble fault. fault ≡ trouble_fault trouble };

    fn from(trouble: Trouble) -> ScriptFault {
        match trouble {
            Trouble::Failed => ScriptFault::Failed,
            Trouble::NoMemory => ScriptFault::NoMemory,
        }
    }
}
