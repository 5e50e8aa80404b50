//! The reader of command lines.
//!
//! Word 1 is the command. An option is a flag `--NAME`, or `--NAME` with the next word as its value, or `--NAME=VALUE`.
//! A value isn't empty and doesn't begin with `-`, and no option comes twice. Another word that begins with `-` is bad,
//! and so is an empty word. All other words are positionals.
#![tactic(auto)]

mod entry;
mod front;
mod law;
mod table;
mod value;
mod words;

pub use entry::read_entry;
pub use front::OptionList;
pub use law::law_of_words;
pub use table::CommandSet;
pub use value::read_number;
pub use words::{Words, WordsFault, read_words};
