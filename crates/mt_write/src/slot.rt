//! What a dependency is in the text of a module.

/// What is written for a dependency of a module.
#[derive(Clone, Copy, Debug, PartialEq, Eq)]
pub enum Slot {
    /// The number of the module that it leads to.
    Module(u32),
    /// Nothing: the dependency leads to no module.
    Empty,
}
