//! Tests of the crates that keep files and read scripts.
#![tactic(auto)]

#[cfg(test)]
mod fault_texts;
#[cfg(test)]
mod files;
#[cfg(test)]
mod journals;
#[cfg(test)]
mod rescans;
#[cfg(test)]
mod scripts;
