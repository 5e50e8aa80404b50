//! A finite map from numbers to shared values, of which old versions stay.
#![tactic(auto)]

mod row;
mod rows;
mod shared_trie;
mod trie_iter;

pub use shared_trie::SharedTrie;
pub use trie_iter::TrieIter;
