//! The entries of a cache, version 1: what a source becomes, in bytes.
#![tactic(auto)]

mod law;
mod parts;
mod reader;
mod taking;
mod writer;

pub use law::law_of_entries;
pub use reader::read_entry;
pub use writer::write_entry;
