//! Strings in quotes.
ghost use Rattle.std.specs.Prelude.{◌≡◌, IfOk};
ghost use Rattle.mt_chars.specs.Escapes.{cooked};
ghost use Rattle.mt_tokens.specs.Strings.{closing_len, is_quote, string_of};

use crate::{Text, TokenFault, TokenKind};
use mt_chars::{front_escape_len, string_value};
use std::alloc::{AllocError, Global};

/// What a string begins with: `"` or `'`.
pub(crate) fn is_quote_byte(b: u8) -> bool
    ensures { result ≡ is_quote b }
{
    b == b'"' || b == b'\''
}

/// The length through the closing quote; none where a line end or the end comes first.
fn front_closing_len(quote: u8, rest: &[u8]) -> Option<usize>
    ensures { result ≡ closing_len quote 0 rest.now }
{
    let mut at = 0;
    while at < rest.len() {
        let b = rest[at];
        at += 1;
        if b == quote {
            return Some(at);
        }
        if b == b'\n' || b == b'\r' {
            return None;
        }
        if b == b'\\' {
            at += front_escape_len(&rest[at..]);
        }
    }
    None
}

/// The string that `rest` begins with, at `place` in the text. It begins with a quote.
pub(crate) fn string(place: u32, rest: &[u8]) -> Result<(TokenKind, usize), TokenFault>
    ensures { result ≡ string_of place rest.now }
{
    let [quote, body @ ..] = rest else {
        return Err(TokenFault::UnclosedString { place });
    };
    match front_closing_len(*quote, body) {
        Some(len) => Ok((TokenKind::Str, len + 1)),
        None => Err(TokenFault::UnclosedString { place }),
    }
}

/// The value of a string in quotes, `literal` being a token of the kind `Str`. There is none where an escape of it spells no
/// character: `\1` to `\9`, `\0` before a digit, `\x` or `\u` without their digits, a number above U+10FFFF or a surrogate alone.
pub fn cook(alloc: Global, literal: &str) -> Result<Option<Text>, AllocError>
    ensures value { IfOk result (λ value. value ≡ cooked literal.now) }
{
    match string_value(alloc, literal)? {
        Some(value) => Ok(Some(Text::from_string(value))),
        None => Ok(None),
    }
}
