//! The longest punctuator that a text begins with.
ghost use Rattle.std.specs.Prelude.{◌≡◌, [], ◌∷◌, ◌&&◌, nat_eq};
ghost use Rattle.std.specs.Cmp.Lexicographic.{pointwise};
ghost use Rattle.mt_chars.specs.Classes.{is_digit};
ghost use Rattle.mt_tokens.specs.Punctuators.{punct_len, punct_of, of_one, of_two, of_three, is_among, is_lone};

use crate::{TokenFault, TokenKind};
use mt_chars::{byte_at, is_digit_byte};

fn is_of_one(a: u8) -> bool
    ensures { result ≡ is_among of_one (a ∷ []) }
{
    matches!(
        a,
        b'{' | b'}'
            | b'('
            | b')'
            | b'['
            | b']'
            | b'.'
            | b';'
            | b','
            | b'<'
            | b'>'
            | b'+'
            | b'-'
            | b'*'
            | b'/'
            | b'%'
            | b'&'
            | b'|'
            | b'^'
            | b'!'
            | b'~'
            | b'?'
            | b':'
            | b'='
            | b'@'
    )
}

fn is_of_two(a: u8, b: u8) -> bool
    ensures { result ≡ is_among of_two (a ∷ b ∷ []) }
{
    matches!(
        &[a, b],
        b"<="
            | b">="
            | b"=="
            | b"!="
            | b"**"
            | b"++"
            | b"--"
            | b"<<"
            | b">>"
            | b"&&"
            | b"||"
            | b"??"
            | b"?."
            | b"+="
            | b"-="
            | b"*="
            | b"/="
            | b"%="
            | b"&="
            | b"|="
            | b"^="
            | b"=>"
    )
}

fn is_of_three(a: u8, b: u8, c: u8) -> bool
    ensures { result ≡ is_among of_three (a ∷ b ∷ c ∷ []) }
{
    matches!(
        &[a, b, c],
        b"..." | b"===" | b"!==" | b">>>" | b"**=" | b"<<=" | b">>=" | b"&&=" | b"||=" | b"??="
    )
}

/// Whether a byte is a punctuator by itself, wherever a token begins with it.
pub(crate) fn is_lone_mark(b: u8) -> bool
    ensures { result ≡ is_lone b }
{
    matches!(b, b';' | b',' | b'(' | b')' | b'{' | b'[' | b']')
}

/// Whether the bytes are `?.` and a digit, where `?` is the punctuator, as in `a?.5:b`.
fn is_choice_of_number_bytes(a: u8, b: u8, c: u8) -> bool
    ensures { result ≡ (pointwise nat_eq (a ∷ b ∷ []) (63 ∷ 46 ∷ []) && is_digit c) }
{
    a == b'?' && b == b'.' && is_digit_byte(c)
}

/// The length of the longest punctuator that the text begins with, and 0 where there is none.
#[tactic(auto, using(crate::proofs::Punctuation::punct_len_by_bytes))]
fn front_punct_len(rest: &[u8]) -> usize
    ensures { result ≡ punct_len rest.now }
{
    let [a, b, c, d] = [
        byte_at(rest, 0),
        byte_at(rest, 1),
        byte_at(rest, 2),
        byte_at(rest, 3),
    ];
    if &[a, b, c, d] == b">>>=" {
        4
    } else if is_of_three(a, b, c) {
        3
    } else if is_choice_of_number_bytes(a, b, c) {
        1
    } else if is_of_two(a, b) {
        2
    } else if is_of_one(a) {
        1
    } else {
        0
    }
}

/// The punctuator that `rest` begins with, at `place` in the text. Refused where none is there.
pub(crate) fn punctuator(place: u32, rest: &[u8]) -> Result<(TokenKind, usize), TokenFault>
    ensures { result ≡ punct_of place rest.now }
{
    match front_punct_len(rest) {
        0 => Err(TokenFault::BadByte { place }),
        len => Ok((TokenKind::Punct, len)),
    }
}
