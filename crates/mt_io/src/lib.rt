//! The outside as traits, each with a count of its faults and what it may tell of its content, and objects in memory
//! that keep them.
#![tactic(auto)]

mod fault_plan;
mod files;
mod folder;
mod gate;
mod list_source;
mod map_folder;
mod map_store;
mod pledged;
mod sink;
mod source;
mod store;
mod trouble;
mod turn_gate;
mod vec_sink;

pub use files::{children_of, has_folder};
pub use folder::{Folder, Named, NamedKind, NamedList};
pub use gate::{FreeGate, Gate};
pub use list_source::{ListSource, SureSource};
pub use map_folder::{MapFolder, SureFolder};
pub use map_store::{MapStore, SureStore};
pub use pledged::Pledged;
pub use sink::{Sink, send_all};
pub use source::Source;
pub use store::Store;
pub use trouble::{Failed, Trouble};
pub use turn_gate::TurnGate;
pub use vec_sink::{SureSink, VecSink};
