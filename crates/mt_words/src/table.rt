//! The commands of a set, and what may follow each.
ghost use Rattle.std.specs.Prelude.{◌≡◌, slice_get};
ghost use Rattle.mt_words.specs.Fronts.{least_positionals};
ghost use Rattle.mt_words.specs.Tables.{amounts, commands, common, named, options_of};

use crate::value::ValueKind;

/// A set of commands.
#[derive(Clone, Copy, Debug, PartialEq, Eq)]
pub enum CommandSet {
    /// The commands that end by themselves: `bundle`, `deps`, `check`, `replay` and `grow`.
    Still,
}

/// How a command is used: what its positionals and its options are.
#[derive(Clone, Copy)]
pub enum Usage {
    /// Entries, and the common options.
    Build,
    /// Entries, the common options, and `--full`.
    Replay,
    /// A seed, how many modules and how many edits, and `--workers`.
    Grow,
}

/// The most entries of a command.
pub(crate) const MAX_ENTRIES: usize = 16;

/// The number of workers.
const WORKERS: ValueKind = ValueKind::Number { least: 1, most: 64 };

impl CommandSet {
    /// How a command of this set is used, if there is one of this name.
    #[tactic(auto, unfolding(crate::specs::Tables::commands))]
    pub(crate) fn usage(self, command: &str) -> Option<Usage>
        ensures command { result ≡ named (commands self) command.now }
    {
        match self {
            CommandSet::Still => match command {
                "bundle" | "deps" | "check" => Some(Usage::Build),
                "replay" => Some(Usage::Replay),
                "grow" => Some(Usage::Grow),
                _ => None,
            },
        }
    }
}

/// The kind of an option of all commands that build.
fn common_option(name: &str) -> Option<ValueKind>
    ensures kind { result ≡ named common name.now }
{
    match name {
        "root" => Some(ValueKind::Folder),
        "platform" => Some(ValueKind::Platform),
        "dev" => Some(ValueKind::Truth),
        "strip" => Some(ValueKind::Flag),
        "workers" => Some(WORKERS),
        "cache" => Some(ValueKind::Folder),
        _ => None,
    }
}

impl Usage {
    /// The kind of the option of this name, if the command has it.
    #[tactic(auto, unfolding(crate::specs::Tables::options_of))]
    pub(crate) fn option(self, name: &str) -> Option<ValueKind>
        ensures kind { result ≡ named (options_of self) name.now }
    {
        match self {
            Usage::Build => common_option(name),
            Usage::Replay => {
                if name == "full" {
                    Some(ValueKind::Flag)
                } else {
                    common_option(name)
                }
            }
            Usage::Grow => {
                if name == "workers" {
                    Some(WORKERS)
                } else {
                    None
                }
            }
        }
    }

    /// The number of positionals that the command has at least.
    pub(crate) fn least_positionals(self) -> usize
        ensures least { result ≡ least_positionals self }
    {
        match self {
            Usage::Build | Usage::Replay => 1,
            Usage::Grow => 3,
        }
    }
}

/// What the number at this place, from 0, of those that `grow` is given may be.
#[tactic(auto, unfolding(crate::specs::Tables::amounts))]
pub(crate) fn amount(at: usize) -> Option<ValueKind>
    ensures kind { result ≡ slice_get amounts at }
{
    match at {
        0 => Some(ValueKind::Number {
            least: 0,
            most: u64::MAX,
        }),
        1 => Some(ValueKind::Number {
            least: 1,
            most: 50_000,
        }),
        2 => Some(ValueKind::Number {
            least: 0,
            most: 10_000,
        }),
        _ => None,
    }
}
