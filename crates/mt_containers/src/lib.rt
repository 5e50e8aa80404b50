//! Lists, maps and shared values that are generic in what they hold, which contracts see as lists, finite maps and values;
//! texts and strings of bytes; and the laws of walks.
#![tactic(auto)]

mod bytes;
mod copies;
mod key_map;
mod law;
mod list;
mod number_map;
mod shared;
mod text;

pub use bytes::Bytes;
pub use copies::Copies;
pub use key_map::{KeyMap, TextKey};
pub use law::law_of_walks;
pub use list::List;
pub use number_map::{NumberMap, NumberSet};
pub use shared::Shared;
pub use text::{Text, TextList, TextMap};
