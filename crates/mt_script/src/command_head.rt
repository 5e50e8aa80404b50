//! The head of a command: what a line of a script says.
ghost use Rattle.std.specs.Prelude.{◌≡◌, IfOk};
ghost use Rattle.std.specs.Char.{is_ascii_digit};
ghost use Rattle.std.specs.List.{list_all};
ghost use Rattle.mt_script.specs.Heads.{del_head, file_path, head_of, is_size, put_head, put_of, size_of, words_head};

use crate::command::Command;
use mt_path::{Path, PathFault};
use std::alloc::{AllocError, Global};

/// What a line says.
#[derive(Debug, Drop)]
pub(crate) enum CommandHead {
    /// The line is all of this command.
    Whole(Command),
    /// The line is that of a `put` of this path, and this number of bytes follows it.
    Put(Path, u32),
}

/// Whether each byte is a digit.
fn has_digits(text: &[u8]) -> bool
    ensures { result ≡ list_all is_ascii_digit text.now }
{
    text.iter().all(|byte| byte.is_ascii_digit())
}

/// Whether a text is `0`, or one to nine digits of which the first is not `0`.
fn is_size_text(text: &[u8]) -> bool
    ensures { result ≡ is_size text.now }
{
    if text.is_empty() || text.len() > 9 {
        return false;
    }
    if text.len() > 1 && text[0] == b'0' {
        return false;
    }
    has_digits(text)
}

/// The number that such a text is.
fn size_in(text: &str) -> Option<u32>
    ensures { result ≡ size_of text.now }
{
    if is_size_text(text.as_bytes()) {
        text.parse().ok()
    } else {
        None
    }
}

/// The path that a text is, if it is one other than the root.
fn path_in(alloc: Global, text: &str) -> Result<Option<Path>, AllocError>
    ensures path { IfOk result (λ path. path ≡ file_path text.now) }
{
    match Path::parse(alloc, text) {
        Ok(path) => {
            if path.is_root() {
                Ok(None)
            } else {
                Ok(Some(path))
            }
        }
        Err(PathFault::NoMemory) => Err(AllocError),
        Err(_) => Ok(None),
    }
}

/// The `put` of a path and a size, if they are that.
fn sized_put(alloc: Global, path: &str, size: &str) -> Result<Option<CommandHead>, AllocError>
    ensures head { IfOk result (λ head. head ≡ put_of (size_of size.now) (file_path path.now)) }
{
    let Some(size) = size_in(size) else {
        return Ok(None);
    };
    match path_in(alloc, path)? {
        Some(path) => Ok(Some(CommandHead::Put(path, size))),
        None => Ok(None),
    }
}

/// The `put` that the text after `put ` asks for.
fn put_in(alloc: Global, text: &str) -> Result<Option<CommandHead>, AllocError>
    ensures head { IfOk result (λ head. head ≡ put_head text.now) }
{
    match text.rsplit_once(' ') {
        Some((path, size)) => sized_put(alloc, path, size),
        None => Ok(None),
    }
}

/// The `del` that the text after `del ` asks for.
fn del_in(alloc: Global, text: &str) -> Result<Option<CommandHead>, AllocError>
    ensures head { IfOk result (λ head. head ≡ del_head text.now) }
{
    match path_in(alloc, text)? {
        Some(path) => Ok(Some(CommandHead::Whole(Command::Del(path)))),
        None => Ok(None),
    }
}

/// What the words of a line say.
fn words_in(alloc: Global, line: &str) -> Result<Option<CommandHead>, AllocError>
    ensures head { IfOk result (λ head. head ≡ words_head line.now) }
{
    match line {
        "rescan" => return Ok(Some(CommandHead::Whole(Command::Rescan))),
        "build" => return Ok(Some(CommandHead::Whole(Command::Build))),
        "end" => return Ok(Some(CommandHead::Whole(Command::End))),
        _ => {}
    }
    if let Some(text) = line.strip_prefix("del ") {
        return del_in(alloc, text);
    }
    if let Some(text) = line.strip_prefix("put ") {
        return put_in(alloc, text);
    }
    Ok(None)
}

/// What a line, without its line feed, says, if it is one of a script. Refused only where memory runs out.
pub(crate) fn head_in(alloc: Global, line: &[u8]) -> Result<Option<CommandHead>, AllocError>
    ensures head { IfOk result (λ head. head ≡ head_of line.now) }
{
    match std::str::from_utf8(line) {
        Ok(line) => words_in(alloc, line),
        Err(_) => Ok(None),
    }
}
