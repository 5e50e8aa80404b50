//! The pieces of templates.
ghost use Rattle.std.specs.Prelude.{◌≡◌, false};
ghost use Rattle.mt_tokens.specs.Templates.{begins_piece, is_free, opens_hole, piece_kind, piece_len, piece_of};

use crate::{TokenFault, TokenKind};
use mt_chars::byte_at;

/// Whether a byte is the wanted one, and no `\` takes it.
pub(crate) fn is_free_byte(taken: bool, b: u8, wanted: u8) -> bool
    ensures { result ≡ is_free taken b wanted }
{
    !taken && b == wanted
}

/// Whether a piece begins with this byte, where a `}` may close a `${` or not.
pub(crate) fn begins_piece_at(in_template: bool, b: u8) -> bool
    ensures { result ≡ begins_piece in_template b }
{
    b == b'`' || (b == b'}' && in_template)
}

/// Whether a `$` that no `\` takes and a `{` after it end a piece.
fn opens_hole_at(taken: bool, b: u8, next: u8) -> bool
    ensures { result ≡ opens_hole taken b next }
{
    is_free_byte(taken, b, b'$') && next == b'{'
}

/// The length through the next backtick or `${` that no `\` takes; none where the end comes first.
fn front_piece_len(rest: &[u8]) -> Option<usize>
    ensures { result ≡ piece_len false rest.now }
{
    let mut at = 0;
    let mut taken = false;
    while at < rest.len() {
        let b = rest[at];
        at += 1;
        if is_free_byte(taken, b, b'`') {
            return Some(at);
        }
        if opens_hole_at(taken, b, byte_at(rest, at)) {
            return Some(at + 1);
        }
        taken = is_free_byte(taken, b, b'\\');
    }
    None
}

/// The kind of a piece, by its first and its last byte.
fn kind_of_piece(first: u8, last: u8) -> TokenKind
    ensures { result ≡ piece_kind first last }
{
    match (first, last) {
        (b'`', b'`') => TokenKind::Whole,
        (b'`', _) => TokenKind::Head,
        (_, b'`') => TokenKind::Tail,
        _ => TokenKind::Middle,
    }
}

/// The piece that `rest` begins with, at `place` in the text. It begins with a backtick or a `}`.
pub(crate) fn piece(place: u32, rest: &[u8]) -> Result<(TokenKind, usize), TokenFault>
    ensures { result ≡ piece_of place rest.now }
{
    let [first, body @ ..] = rest else {
        return Err(TokenFault::UnclosedTemplate { place });
    };
    match front_piece_len(body) {
        Some(len) => Ok((kind_of_piece(*first, byte_at(body, len - 1)), len + 1)),
        None => Err(TokenFault::UnclosedTemplate { place }),
    }
}
