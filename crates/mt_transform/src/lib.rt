//! What a source becomes in a bundle.
#![tactic(auto)]

mod body;
mod law;
mod output;
mod reading;
mod refusal;
mod transformation;
mod transformer;

pub use law::law_of_bodies;
pub use output::{Name, NameList, Output};
pub use transformation::transform;
pub use transformer::{Plain, Transformer};
