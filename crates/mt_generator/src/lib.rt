//! A folder of modules and an edit script, both made from a number.
#![tactic(auto)]

mod draws;
mod growth;
mod module;

pub use growth::{Growth, grow};
