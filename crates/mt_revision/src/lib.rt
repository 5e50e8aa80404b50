//! The numbers that paths keep from build to build, and the revisions that builds make.
#![tactic(auto)]

mod delta_lengths;
mod deltas;
mod held_map;
mod law;
mod modules;
mod numbering;
mod revision;
mod touched;
mod write;

pub use delta_lengths::DeltaLengths;
pub use held_map::{HeldMap, held};
pub use law::{
    law_of_contents, law_of_deltas, law_of_logs, law_of_numberings, law_of_revisions, law_of_slots,
};
pub use modules::{Module, ModuleMap};
pub use numbering::Numbering;
pub use revision::Revision;
pub use write::write_bundle;
