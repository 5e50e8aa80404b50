//! The real objects of the outside. They tell nothing of what they hold.
#![tactic(auto)]

mod folder;
mod no_store;
mod streams;

pub use folder::RealFolder;
pub use no_store::NoStore;
pub use streams::{RealSink, RealSource};
