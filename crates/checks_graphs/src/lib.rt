//! Tests of the crates that make graphs and revisions, and write them.
#![tactic(auto)]

#[cfg(test)]
mod common;
#[cfg(test)]
mod graphs;
#[cfg(test)]
mod revisions;
#[cfg(test)]
mod writers;
