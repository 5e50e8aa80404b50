//! What a bundle is made of, written to a sink: its head, its modules, and the lines that start modules.
#![tactic(auto)]

mod buffer;
mod memory;
mod pieces;
mod slot;
mod slots;
mod writers;

pub use memory::module_text;
pub use slot::Slot;
pub use writers::{write_head, write_module, write_start};
