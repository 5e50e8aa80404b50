//! The characters of ECMAScript: blanks, line ends, names, numbers, and the value of a string in quotes.
#![tactic(auto)]

mod bytes;
mod classes;
mod cooking;
mod line_ends;
mod names;
mod numbers;

pub use bytes::{byte_at, part};
pub use classes::is_digit_byte;
pub use cooking::string_value;
pub use line_ends::{begins_line_end_at, front_escape_len};
pub use names::{RunOf, front_name_len, front_private_len, front_run_len};
pub use numbers::{begins_number_at, front_number_len};
