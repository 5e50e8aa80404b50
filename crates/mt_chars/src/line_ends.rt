//! Line ends, and what a `\` takes with it.
ghost use Rattle.std.specs.Prelude.{◌≡◌};
ghost use Rattle.mt_chars.specs.LineEnds.{begins_line_end, escape_len};

use crate::bytes::byte_at;

/// Whether the text begins with a line end: a line feed, a carriage return, U+2028 or U+2029.
pub fn begins_line_end_at(rest: &[u8]) -> bool
    ensures { result ≡ begins_line_end rest.now }
{
    match byte_at(rest, 0) {
        b'\n' | b'\r' => true,
        0xE2 => byte_at(rest, 1) == 0x80 && (byte_at(rest, 2) == 0xA8 || byte_at(rest, 2) == 0xA9),
        _ => false,
    }
}

/// How many bytes a `\` takes with it from those after it: a carriage return and a line feed are
/// one character.
pub fn front_escape_len(rest: &[u8]) -> usize
    ensures { result ≡ escape_len rest.now }
{
    if rest.starts_with(b"\r\n") { 2 } else { 1 }
}
