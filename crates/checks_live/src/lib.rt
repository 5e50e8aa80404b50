//! Tests of the crates that the live commands stand on.
#![tactic(auto)]

#[cfg(test)]
mod common;
#[cfg(test)]
mod refs;
#[cfg(test)]
mod trial;
#[cfg(test)]
mod trie;
#[cfg(test)]
mod words;
