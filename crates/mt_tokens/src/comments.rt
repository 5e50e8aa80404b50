//! Comments.
ghost use Rattle.std.specs.Prelude.{◌≡◌};
ghost use Rattle.mt_tokens.specs.Comments.{begins_comment, line_len, block_len, comment_of};

use crate::{TokenFault, TokenKind};
use mt_chars::{begins_line_end_at, byte_at};

/// Whether `rest` begins with a comment, at `place` in the text.
pub(crate) fn begins_comment_at(place: u32, rest: &[u8]) -> bool
    ensures { result ≡ begins_comment place rest.now }
{
    match [byte_at(rest, 0), byte_at(rest, 1)] {
        [b'/', b'/' | b'*'] => true,
        [b'#', b'!'] => place == 0,
        _ => false,
    }
}

/// The length up to before the next line end, or to the end.
fn front_line_len(rest: &[u8]) -> usize
    ensures { result ≡ line_len rest.now }
{
    let mut at = 0;
    while at < rest.len() && !begins_line_end_at(&rest[at..]) {
        at += 1;
    }
    at
}

/// The length through the first `*/`, if there is one.
fn front_block_len(rest: &[u8]) -> Option<usize>
    ensures { result ≡ block_len rest.now }
{
    let mut at = 0;
    while at < rest.len() {
        if rest[at..].starts_with(b"*/") {
            return Some(at + 2);
        }
        at += 1;
    }
    None
}

/// The comment that `rest` begins with, at `place` in the text.
pub(crate) fn comment(place: u32, rest: &[u8]) -> Result<(TokenKind, usize), TokenFault>
    ensures { result ≡ comment_of place rest.now }
{
    if rest.starts_with(b"/*") {
        return match front_block_len(&rest[2..]) {
            Some(len) => Ok((TokenKind::Comment, len + 2)),
            None => Err(TokenFault::UnclosedComment { place }),
        };
    }
    Ok((TokenKind::Comment, front_line_len(rest)))
}
