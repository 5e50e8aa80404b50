//! What the words of a command line say.
ghost use Rattle.std.specs.Prelude.{◌≡◌, ◌⊎◌, Err};
ghost use Rattle.mt_words.specs.Fronts.{start};
ghost use Rattle.mt_words.specs.Words.{read_from, told, words_of};

use crate::front::{Front, OptionList};
use crate::table::{CommandSet, Usage};
use mt_tokens::{Text, TextList};
use std::alloc::{AllocError, Global};
use thiserror::Error;

/// What the words of a command line say.
#[derive(Debug, Drop)]
pub struct Words {
    /// The command.
    pub command: Text,
    /// The positionals, in order.
    pub positionals: TextList,
    /// In order each option that stands in the words, by its name without the two dashes and with its value.
    pub options: OptionList,
}

/// Why a command line says nothing.
#[derive(Debug, Drop, Error)]
pub enum WordsFault {
    /// A word is bad.
    #[error("word {at} is bad")]
    Bad {
        /// The number of the first bad word, from 1. For anything missing at the end it is the number of words plus 1.
        at: u32,
    },
    /// There was no memory for the words.
    #[error("out of memory")]
    NoMemory,
}

impl From<AllocError> for WordsFault {
    ghost use Rattle.std.specs.Prelude.{◌≡◌};
    ghost use Rattle.mt_words.specs.declared.words.WordsFault.TheVariants.{NoMemory};

    ghost from_gives = { λ _ fault. fault ≡ NoMemory };

    fn from(_: AllocError) -> WordsFault {
        WordsFault::NoMemory
    }
}

/// The front with all words read, or the number of the first bad word, where these are the words after the command.
fn read_rest(alloc: Global, usage: Usage, words: &[Text]) -> Result<Front, WordsFault>
    ensures front { (result ≡ Err WordsFault.NoMemory) ⊎ (result ≡ told (read_from 2 (start usage) words.now)) }
{
    let mut front = Front::new(alloc, usage);
    let mut at: u32 = 2;
    for word in words {
        let Some(next) = front.next(alloc, word.as_str())? else {
            return Err(WordsFault::Bad { at });
        };
        front = next;
        at = at.saturating_add(1);
    }
    if front.is_whole() {
        Ok(front)
    } else {
        Err(WordsFault::Bad { at })
    }
}

/// Reads the words of a command line by the rules of a set of commands. The words don't have the program's name.
/// A line is refused with the number of the first bad word, or where memory runs out.
#[tactic(auto, unfolding(crate::specs::Words::line_of))]
pub fn read_words(alloc: Global, words: &[Text], set: CommandSet) -> Result<Words, WordsFault>
    ensures read { (result ≡ Err WordsFault.NoMemory) ⊎ (result ≡ words_of set words.now) }
{
    let Some((command, rest)) = words.split_first() else {
        return Err(WordsFault::Bad { at: 1 });
    };
    let Some(usage) = set.usage(command.as_str()) else {
        return Err(WordsFault::Bad { at: 1 });
    };
    let front = read_rest(alloc, usage, rest)?;
    let command = command.clone()?;
    Ok(front.into_words(command))
}
