//! Edit scripts: the commands that a source of bytes spells, read one by one, and their spelling.
//!
//! A command is a line ended by LF: `put PATH LEN`, which LEN bytes and an LF follow, `del PATH`, `rescan`, `build` or
//! `end`. PATH is a path other than the root. LEN is `0`, or one to nine digits of which the first is not `0`, and
//! follows the last blank. It is at most `MAX_SOURCE_BYTES` of mt_tokens. A line has at most `MAX_LINE_BYTES` bytes.
//! Commands are numbered from 1.
#![tactic(auto)]

mod command;
mod command_head;
mod fault;
mod law;
mod line;
mod read_buffer;
mod reader;

pub use command::{Command, write_command};
pub use fault::ScriptFault;
pub use law::law_of_scripts;
pub use line::MAX_LINE_BYTES;
pub use reader::{MAX_COMMANDS, ScriptReader};
