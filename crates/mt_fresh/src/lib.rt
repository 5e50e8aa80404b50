//! The fresh graph of a snapshot from its entries, or its faults, found without threads.
#![tactic(auto)]

mod fresh;
mod graph_revision;
mod traversal;

pub use fresh::{AllFaults, faults, traverse, traverse_by};
pub use graph_revision::revision_of_graph;
pub use mt_files::{BuildFault, fault_text};
pub use mt_graph::{
    Explorer, FaultList, Found, FoundList, Graph, LinkList, MAX_MODULES, Node, law_of_explorations,
    law_of_graphs,
};
pub use traversal::Traversal;
