//! What a text requires, imports and exports, and what a bundle has in place of parts of it.
#![tactic(auto)]

mod calls;
mod exports;
mod gathering;
mod imports;
mod law;
mod lists;
mod numbers;
mod reading;
mod seen;
mod shields;
mod sites;
mod spans;

pub use law::law_of_uses;
pub use mt_tokens::{Dep, DepFault, DepKind, DepList, Mark, Use};
pub use reading::deps;
