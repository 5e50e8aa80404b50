//! Tests of the crates that read sources, and of the lines that tell of builds.
#![tactic(auto)]

#[cfg(test)]
mod dependencies;
#[cfg(test)]
mod options;
#[cfg(test)]
mod outputs;
#[cfg(test)]
mod reports;
#[cfg(test)]
mod resolution;
