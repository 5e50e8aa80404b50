//! What several tests share.
use mt_path::{Path, PathFault};
use mt_tokens::Text;
use std::alloc::AllocError;

/// The path of a text.
pub(crate) fn path(rt: &HostRuntime, text: &str) -> Result<Path, PathFault> {
    Path::parse(rt.alloc(), text)
}

/// A text of its own bytes.
pub(crate) fn text(rt: &HostRuntime, text: &str) -> Result<Text, AllocError> {
    Text::from_str(rt.alloc(), text)
}
