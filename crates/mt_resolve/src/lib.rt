//! Where a name leads.
#![tactic(auto)]

mod answers;
mod endings;
mod files;
mod folder;
mod law;
mod packages;
mod place;
mod probes;
mod resolution;
mod resolver;
mod search;

pub use law::law_of_probes;
pub use mt_files::Target;
pub use probes::{Probes, Run};
pub use resolution::{Resolution, resolve};
pub use resolver::Resolver;
