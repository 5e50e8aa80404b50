//! Tests of the crates at the bottom: `mt_containers`, `mt_chars`, `mt_path`, `mt_tokens` and `mt_io`.
#![tactic(auto)]

#[cfg(test)]
mod bytes;
#[cfg(test)]
mod callers;
#[cfg(test)]
mod characters;
#[cfg(test)]
mod common;
#[cfg(test)]
mod cooked;
#[cfg(test)]
mod goals;
#[cfg(test)]
mod lists;
#[cfg(test)]
mod maps;
#[cfg(test)]
mod names;
#[cfg(test)]
mod outside;
#[cfg(test)]
mod paths;
#[cfg(test)]
mod shared;
#[cfg(test)]
mod tokens;
#[cfg(test)]
mod trees;
