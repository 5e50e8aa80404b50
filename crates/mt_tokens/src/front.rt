//! The token that a text begins with.
ghost use Rattle.std.specs.Prelude.{◌≡◌};
ghost use Rattle.mt_tokens.specs.Front.{front_of, other_of};

use crate::comments::{begins_comment_at, comment};
use crate::punctuators::{is_lone_mark, punctuator};
use crate::regexes::{begins_regex_at, regex};
use crate::strings::{is_quote_byte, string};
use crate::templates::{begins_piece_at, piece};
use crate::{TokenFault, TokenKind};
use mt_chars::{
    RunOf, begins_number_at, front_name_len, front_number_len, front_private_len, front_run_len,
};

/// What the tokens before a place tell of the next one.
#[derive(Clone, Copy, Debug)]
pub(crate) struct Before {
    /// Whether an operand comes next, and not an operator.
    pub operand: bool,
    /// Whether a `}` would close the `${` of a template.
    pub in_template: bool,
}

/// The kind and the length of the token that `rest` begins with, at `place` in the text, where it begins with neither blanks
/// nor a comment nor a name: of the first kind that fits. Refused where none fits.
fn other_token(before: Before, place: u32, rest: &[u8]) -> Result<(TokenKind, usize), TokenFault>
    ensures { result ≡ other_of before place rest.now }
{
    let [first, ..] = rest else {
        return Err(TokenFault::BadByte { place });
    };
    let first = *first;
    let private = front_private_len(rest);
    if private > 0 {
        return Ok((TokenKind::Private, private));
    }
    if begins_number_at(rest) {
        return Ok((TokenKind::Number, front_number_len(rest)));
    }
    if is_quote_byte(first) {
        return string(place, rest);
    }
    if begins_piece_at(before.in_template, first) {
        return piece(place, rest);
    }
    if begins_regex_at(before.operand, first) {
        return regex(place, rest);
    }
    punctuator(place, rest)
}

/// The kind and the length of the token that `rest` begins with, at `place` in the text: of the first kind that fits.
/// Refused where none fits.
fn any_token(before: Before, place: u32, rest: &[u8]) -> Result<(TokenKind, usize), TokenFault>
    ensures { result ≡ front_of before place rest.now }
{
    let [_, ..] = rest else {
        return Err(TokenFault::BadByte { place });
    };
    let blanks = front_run_len(RunOf::Blanks, rest);
    if blanks > 0 {
        return Ok((TokenKind::Space, blanks));
    }
    if begins_comment_at(place, rest) {
        return comment(place, rest);
    }
    let name = front_name_len(rest);
    if name > 0 {
        return Ok((TokenKind::Ident, name));
    }
    other_token(before, place, rest)
}

/// The same, where most punctuators and names are told by their first byte.
pub(crate) fn front_token(
    before: Before,
    place: u32,
    rest: &[u8],
) -> Result<(TokenKind, usize), TokenFault>
    ensures { result ≡ front_of before place rest.now }
{
    match rest {
        [first, ..] if is_lone_mark(*first) => Ok((TokenKind::Punct, 1)),
        [first, ..] if first.is_ascii_alphabetic() => Ok((TokenKind::Ident, front_name_len(rest))),
        _ => any_token(before, place, rest),
    }
}
