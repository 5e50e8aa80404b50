//! What is to be done, and how large a grown input is.
ghost use Rattle.std.specs.Prelude.{◌≡◌};
ghost use Rattle.mt_request.specs.Growths.{IsBounded, IsGrowth, action_of, amount_of, growth_of};
ghost use Rattle.mt_words.specs.Tables.{commands, named};
ghost use Rattle.mt_words.specs.declared.table.CommandSet.{CommandSet};

use mt_tokens::Text;
use mt_words::read_number;

/// An input that is to be grown.
#[derive(Clone, Copy, Debug, PartialEq, Eq)]
pub struct Growth {
    /// The seed of what is drawn.
    pub seed: u64,
    /// The number of the modules: 1 to 50,000.
    pub modules: u32,
    /// The number of the edits: at most 10,000.
    pub edits: u32,
}

/// What is to be done.
#[derive(Clone, Copy, Debug, PartialEq, Eq)]
pub enum Action {
    /// The bundle of the entries is to be written.
    Bundle,
    /// The graph of their modules is to be written.
    Deps,
    /// All faults of their modules are to be written.
    Check,
    /// They are to be built as the commands of a script change the files.
    Replay,
    /// An input is to be grown, and built as its edits change it.
    Grow(Growth),
}

/// The number that the word at a place is, from 0; 0 where it is none.
fn read_amount(words: &[Text], at: usize) -> u64
    ensures amount { result ≡ amount_of words.now at }
{
    match words.get(at) {
        None => 0,
        Some(word) => read_number(word.as_str()).unwrap_or(0),
    }
}

/// The growth that the words after `grow` name.
fn read_growth(words: &[Text]) -> Growth
    requires bounded { IsGrowth (growth_of words.now) }
    ensures growth { result ≡ growth_of words.now }
{
    Growth {
        seed: read_amount(words, 0),
        modules: read_amount(words, 1) as u32,
        edits: read_amount(words, 2) as u32,
    }
}

/// What a command with these words asks to do.
pub(crate) fn read_action(command: &str, words: &[Text]) -> Action
    requires bounded { IsBounded (action_of command.now words.now) }
    ensures action { result ≡ action_of command.now words.now }
{
    match command {
        "bundle" => Action::Bundle,
        "deps" => Action::Deps,
        "check" => Action::Check,
        "replay" => Action::Replay,
        _ => Action::Grow(read_growth(words)),
    }
}
