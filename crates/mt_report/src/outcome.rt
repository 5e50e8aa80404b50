//! How a run ends: its status and its line on the log.
ghost use Rattle.std.specs.Prelude.{◌≡◌, ◌++◌, codes, decimal, IfOk};
ghost use Rattle.mt_report.specs.Outcomes.{limit_line, line_of, status_of};

use mt_files::{BuildFault, CrawlFault, JournalFault, MAX_CHANGES, fault_text};
use mt_io::{Failed, Trouble};
use mt_script::ScriptFault;
use mt_tokens::Text;
use std::alloc::{AllocError, AllocFailed, Global};

/// A stated limit that a run met.
#[derive(Clone, Copy, Debug, PartialEq, Eq)]
pub enum Limit {
    /// A source has more bytes than a source may have.
    File,
    /// The folder has more files than a folder may have.
    Files,
    /// The sources of the folder have more bytes than they may have together.
    FolderBytes,
    /// There are more changes than a journal holds.
    Changes,
    /// The sources of the changes have more bytes than a journal holds.
    JournalBytes,
    /// The script has more commands than a script may have.
    Commands,
}

/// How a run ends.
#[derive(Debug, Drop)]
pub enum Outcome {
    /// What was asked for is written.
    Done,
    /// The build was refused.
    Refused(BuildFault),
    /// Faults were found, and each of them is written.
    Faulty,
    /// The words aren't those of a command: the number of the first bad word, from 1.
    BadWord(u32),
    /// The folder or the script couldn't be read.
    ReadFailed,
    /// The output couldn't be written.
    WriteFailed,
    /// Out of memory.
    NoMemory,
    /// A stated limit was met.
    Limit(Limit),
    /// The script has a command that is none: its number, from 1.
    BadCommand(u32),
    /// The script ended in a command, or before an `end`: the number of the command, from 1.
    CutCommand(u32),
}

impl Outcome {
    /// The status of the program.
    pub fn status(&self) -> u8
        ensures status { result ≡ status_of self.now }
    {
        match self {
            Outcome::Done => 0,
            Outcome::Refused(_) | Outcome::Faulty => 1,
            Outcome::BadWord(_) => 2,
            Outcome::ReadFailed => 3,
            Outcome::WriteFailed => 4,
            Outcome::NoMemory => 5,
            Outcome::Limit(_) => 6,
            Outcome::BadCommand(_) | Outcome::CutCommand(_) => 7,
        }
    }

    /// The line on the log, with its line feed; empty where what was asked for is written, be it faults or not. Refused only
    /// where memory runs out.
    pub fn line(&self, alloc: Global) -> Result<Text, AllocError>
        ensures line { IfOk result (λ text. text ≡ line_of self.now) }
    {
        match self {
            Outcome::Done | Outcome::Faulty => Ok(Text::new(alloc)),
            Outcome::Refused(fault) => refused_line(alloc, fault),
            Outcome::BadWord(at) => numbered_line(alloc, "word", *at),
            Outcome::BadCommand(command) => numbered_line(alloc, "script command", *command),
            Outcome::CutCommand(command) => numbered_line(alloc, "script cut in command", *command),
            Outcome::ReadFailed => Text::from_str(alloc, "metro: read failed\n"),
            Outcome::WriteFailed => Text::from_str(alloc, "metro: write failed\n"),
            Outcome::NoMemory => Text::from_str(alloc, "metro: out of memory\n"),
            Outcome::Limit(limit) => Text::from_str(alloc, limit_line(*limit)),
        }
    }
}

fn refused_line(alloc: Global, fault: &BuildFault) -> Result<Text, AllocError>
    ensures line { IfOk result (λ text. text ≡ line_of (Outcome.Refused fault.now)) }
{
    let text = fault_text(alloc, fault)?;
    let text = text.as_str();
    Ok(Text::from_string(format!(in alloc; "metro: {text}\n")?))
}

fn numbered_line(alloc: Global, what: &str, number: u32) -> Result<Text, AllocError>
    ensures line { IfOk result (λ text. text ≡ codes "metro: " ++ (what.now ++ (codes " " ++ (decimal number ++ codes "\n")))) }
{
    Ok(Text::from_string(format!(in alloc; "metro: {what} {number}\n")?))
}

fn limit_line(limit: Limit) -> &'static str
    ensures line { result.now ≡ limit_line limit }
{
    match limit {
        Limit::File => "metro: limit file 16777216\n",
        Limit::Files => "metro: limit files 262144\n",
        Limit::FolderBytes => "metro: limit folder-bytes 1073741824\n",
        Limit::Changes => "metro: limit changes 65536\n",
        Limit::JournalBytes => "metro: limit journal-bytes 1073741824\n",
        Limit::Commands => "metro: limit commands 1048576\n",
    }
}

/// How a run ends where memory runs out.
impl From<AllocError> for Outcome {
    ghost use Rattle.std.specs.Prelude.{◌≡◌};
    ghost use Rattle.mt_report.specs.declared.outcome.Outcome.TheVariants.{NoMemory};

    ghost from_gives = { λ _ outcome. outcome ≡ NoMemory };

    fn from(_: AllocError) -> Outcome {
        Outcome::NoMemory
    }
}

/// How a run ends where memory runs out.
impl<T: Drop> From<AllocFailed<T>> for Outcome {
    ghost use Rattle.std.specs.Prelude.{◌≡◌};
    ghost use Rattle.mt_report.specs.declared.outcome.Outcome.TheVariants.{NoMemory};

    ghost from_gives = { λ _ outcome. outcome ≡ NoMemory };

    fn from(_: AllocFailed<T>) -> Outcome {
        Outcome::NoMemory
    }
}

/// How a run ends where the output fails.
impl From<Failed> for Outcome {
    ghost use Rattle.std.specs.Prelude.{◌≡◌};
    ghost use Rattle.mt_report.specs.declared.outcome.Outcome.TheVariants.{WriteFailed};

    ghost from_gives = { λ _ outcome. outcome ≡ WriteFailed };

    fn from(_: Failed) -> Outcome {
        Outcome::WriteFailed
    }
}

/// How a run ends where the output fails, or memory runs out.
impl From<Trouble> for Outcome {
    ghost use Rattle.std.specs.Prelude.{◌≡◌};
    ghost use Rattle.mt_report.specs.Outcomes.{trouble_outcome};

    ghost from_gives = { λ trouble outcome. outcome ≡ trouble_outcome trouble };

    fn from(trouble: Trouble) -> Outcome {
        match trouble {
            Trouble::Failed => Outcome::WriteFailed,
            Trouble::NoMemory => Outcome::NoMemory,
        }
    }
}

/// How a run ends where the folder has no snapshot.
impl From<CrawlFault> for Outcome {
    ghost use Rattle.std.specs.Prelude.{◌≡◌};
    ghost use Rattle.mt_report.specs.Outcomes.{crawl_outcome};

    ghost from_gives = { λ fault outcome. outcome ≡ crawl_outcome fault };

    fn from(fault: CrawlFault) -> Outcome {
        match fault {
            CrawlFault::Failed => Outcome::ReadFailed,
            CrawlFault::FileTooLarge { .. } => Outcome::Limit(Limit::File),
            CrawlFault::TooManyFiles => Outcome::Limit(Limit::Files),
            CrawlFault::TooManyBytes => Outcome::Limit(Limit::FolderBytes),
            CrawlFault::NoMemory => Outcome::NoMemory,
        }
    }
}

/// How a run ends where there is nothing to build from.
impl From<BuildFault> for Outcome {
    ghost use Rattle.std.specs.Prelude.{◌≡◌};
    ghost use Rattle.mt_report.specs.Outcomes.{build_outcome};

    ghost from_gives = { λ fault outcome. outcome ≡ build_outcome fault };

    fn from(fault: BuildFault) -> Outcome {
        match fault {
            BuildFault::NoMemory => Outcome::NoMemory,
            fault => Outcome::Refused(fault),
        }
    }
}

/// How a run ends where the journal has no room: too many changes come before too many bytes.
impl From<JournalFault> for Outcome {
    ghost use Rattle.std.specs.Prelude.{◌≡◌};
    ghost use Rattle.mt_report.specs.Outcomes.{journal_outcome};

    ghost from_gives = { λ fault outcome. outcome ≡ journal_outcome fault };

    fn from(fault: JournalFault) -> Outcome {
        match fault {
            JournalFault::JournalFull { changes, .. } => {
                if (changes as usize) < MAX_CHANGES {
                    Outcome::Limit(Limit::JournalBytes)
                } else {
                    Outcome::Limit(Limit::Changes)
                }
            }
            JournalFault::NoMemory => Outcome::NoMemory,
        }
    }
}

/// How a run ends where the script gives no further command.
impl From<ScriptFault> for Outcome {
    ghost use Rattle.std.specs.Prelude.{◌≡◌};
    ghost use Rattle.mt_report.specs.Outcomes.{script_outcome};

    ghost from_gives = { λ fault outcome. outcome ≡ script_outcome fault };

    fn from(fault: ScriptFault) -> Outcome {
        match fault {
            ScriptFault::Bad { command } => Outcome::BadCommand(command),
            ScriptFault::Cut { command } => Outcome::CutCommand(command),
            ScriptFault::FileTooLarge { .. } => Outcome::Limit(Limit::File),
            ScriptFault::TooManyCommands => Outcome::Limit(Limit::Commands),
            ScriptFault::Failed => Outcome::ReadFailed,
            ScriptFault::NoMemory => Outcome::NoMemory,
        }
    }
}
