//! What the words of a command line ask for.
//!
//! The reader of `mt_words` says which words a line has, and this crate what they ask for: what is to be done, for
//! which entries, and by which options.
#![tactic(auto)]

mod ask;
mod fault;
mod growth;
mod law;
mod request;
mod values;

pub use ask::BuildAsk;
pub use fault::WordFault;
pub use growth::{Action, Growth};
pub use law::law_of_requests;
pub use request::{Request, read_request};
