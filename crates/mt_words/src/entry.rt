//! The entry that a word names.
ghost use Rattle.std.specs.Prelude.{◌≡◌, false, IfOk};
ghost use Rattle.mt_words.specs.Entries.{entry_of, rooted};
ghost use Rattle.mt_words.specs.Values.{is_odd};

use crate::value::is_odd_word;
use mt_path::{Path, PathFault};
use mt_tokens::Text;
use std::alloc::{AllocError, Global};

/// The word with `/` before it, where it has none.
fn rooted_word(alloc: Global, word: &str) -> Result<Text, AllocError>
    requires odd { is_odd word.now ≡ false }
    ensures text { IfOk result (λ text. text ≡ rooted word.now) }
{
    let mut text = Text::new(alloc);
    if !word.starts_with('/') {
        text.push_str("/")?;
    }
    text.push_str(word)?;
    Ok(text)
}

/// The path of the entry that a word names, with `/` put before where it has none: a path other than the root. A word
/// that is empty or begins with `-` names none. Refused only where memory runs out.
#[tactic(auto, unfolding(crate::specs::Entries::entry_of))]
pub fn read_entry(alloc: Global, word: &str) -> Result<Option<Path>, AllocError>
    ensures entry { IfOk result (λ entry. entry ≡ entry_of word.now) }
{
    if is_odd_word(word) {
        return Ok(None);
    }
    let text = rooted_word(alloc, word)?;
    match Path::parse(alloc, text.as_str()) {
        Ok(path) => {
            if path.is_root() {
                Ok(None)
            } else {
                Ok(Some(path))
            }
        }
        Err(PathFault::NoMemory) => Err(AllocError),
        Err(_) => Ok(None),
    }
}
