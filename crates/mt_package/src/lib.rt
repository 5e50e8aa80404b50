//! The options of builds, and package files.
#![tactic(auto)]

mod options;
mod package;

pub use options::Options;
pub use package::{Package, PackageFault, read_package};
