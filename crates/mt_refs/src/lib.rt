//! A graph of numbered nodes, whose counts of edges are kept exact, and what it would be with some of its lists changed.
#![tactic(auto)]

mod changes;
mod counts;
mod graph;
mod overlay;
mod patch;
mod search;
mod steps;
mod table;

pub use graph::RefGraph;
pub use overlay::Overlay;
pub use patch::{EdgeList, Patch, Settled};
pub use steps::Steps;
