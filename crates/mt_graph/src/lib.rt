//! The modules of a build: who finds them, what was found, and the graph or the faults to which that comes.
#![tactic(auto)]

mod explorer;
mod found;
mod graph;
mod judgement;
mod law;

pub use explorer::Explorer;
pub use found::{Found, FoundList, LinkList};
pub use graph::{Graph, Node, module_paths};
pub use judgement::{FaultList, MAX_MODULES, faults_found, judge};
pub use law::{law_of_explorations, law_of_graphs};
