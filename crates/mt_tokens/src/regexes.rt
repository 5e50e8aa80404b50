//! Regular expressions.
ghost use Rattle.std.specs.Prelude.{◌≡◌, false};
ghost use Rattle.mt_tokens.specs.Regexes.{begins_regex, body_len, ends_body, is_class_after, regex_of};

use crate::templates::is_free_byte;
use crate::{TokenFault, TokenKind};
use mt_chars::{RunOf, begins_line_end_at, front_run_len};

/// Whether a regular expression begins with this byte, where an operand may come or not.
pub(crate) fn begins_regex_at(operand: bool, b: u8) -> bool
    ensures { result ≡ begins_regex operand b }
{
    b == b'/' && operand
}

/// Whether what follows a byte is between `[` and `]`: as before, where a `\` takes the byte.
fn is_in_class_after(in_class: bool, taken: bool, b: u8) -> bool
    ensures { result ≡ is_class_after in_class taken b }
{
    match b {
        _ if taken => in_class,
        b'[' => true,
        b']' => false,
        _ => in_class,
    }
}

/// Whether a `/` ends a regular expression: one that no `\` takes and no `[` holds.
fn ends_body_at(in_class: bool, taken: bool, b: u8) -> bool
    ensures { result ≡ ends_body in_class taken b }
{
    is_free_byte(taken, b, b'/') && !in_class
}

/// The length through the `/` that ends a regular expression; none where a line end or the end comes first.
fn front_body_len(rest: &[u8]) -> Option<usize>
    ensures { result ≡ body_len false false rest.now }
{
    let mut at = 0;
    let mut in_class = false;
    let mut taken = false;
    while at < rest.len() {
        if begins_line_end_at(&rest[at..]) {
            return None;
        }
        let b = rest[at];
        at += 1;
        if ends_body_at(in_class, taken, b) {
            return Some(at);
        }
        in_class = is_in_class_after(in_class, taken, b);
        taken = is_free_byte(taken, b, b'\\');
    }
    None
}

/// The regular expression that `rest` begins with, at `place` in the text. It begins with a `/`.
pub(crate) fn regex(place: u32, rest: &[u8]) -> Result<(TokenKind, usize), TokenFault>
    ensures { result ≡ regex_of place rest.now }
{
    let [_, body @ ..] = rest else {
        return Err(TokenFault::UnclosedRegex { place });
    };
    match front_body_len(body) {
        Some(len) => Ok((
            TokenKind::Regex,
            len + 1 + front_run_len(RunOf::Flags, &body[len..]),
        )),
        None => Err(TokenFault::UnclosedRegex { place }),
    }
}
