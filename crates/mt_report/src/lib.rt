//! How a run of the program ends, and the lines that tell of builds, graphs and faults.
#![tactic(auto)]

mod digest;
mod grown;
mod listing;
mod outcome;
mod report;

pub use digest::DigestSink;
pub use grown::grown_line;
pub use listing::{write_faults, write_graph, write_ok};
pub use outcome::{Limit, Outcome};
pub use report::{refused_line, revision_line, same_line};
