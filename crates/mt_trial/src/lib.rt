//! Trial deletion: which nodes of an overlay no pinned node reaches.
#![tactic(auto)]

mod counts;
mod deletion;
mod walk;

pub use deletion::dead;
