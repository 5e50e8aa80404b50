//! Blanks, names, and runs of characters.
ghost use Rattle.std.specs.Prelude.{◌≡◌, ◌≤◌, length};
ghost use Rattle.mt_chars.specs.Names.{code_len, name_escape_len, name_len, private_len, run_len, start_len, unit_len};

use crate::bytes::byte_at;
use crate::classes::{
    front_char, front_char_len, hex_len, is_part_char, is_space_char, is_start_char,
};

/// What a run is made of.
#[derive(Clone, Copy, Debug)]
pub enum RunOf {
    /// Blanks and line ends.
    Blanks,
    /// What a name goes on with, escapes among it.
    NameParts,
    /// What stands after a regular expression: as in a name, without escapes.
    Flags,
}

/// The length of the `u` and the digits of an escape; 0 where there is none.
fn front_code_len(rest: &[u8]) -> usize
    ensures value { result ≡ code_len rest.now }
    ensures within { result ≤ length rest.now }
{
    match rest {
        [_, b'{', braced @ ..] => {
            let digits = hex_len(braced);
            if digits > 0 && digits < 7 && byte_at(rest, digits + 2) == b'}' {
                digits + 3
            } else {
                0
            }
        }
        [_, digits @ ..] if hex_len(digits) > 3 => 5,
        _ => 0,
    }
}

/// The length of the escape that the text begins with; 0 where there is none.
fn front_name_escape_len(rest: &[u8]) -> usize
    ensures value { result ≡ name_escape_len rest.now }
    ensures within { result ≤ length rest.now }
{
    let [b'\\', code @ ..] = rest else {
        return 0;
    };
    let len = front_code_len(code);
    if byte_at(code, 0) == b'u' && len > 0 {
        len + 1
    } else {
        0
    }
}

/// The length of what a name may begin with; 0 where none is there.
fn front_start_len(rest: &[u8]) -> usize
    ensures value { result ≡ start_len rest.now }
    ensures within { result ≤ length rest.now }
{
    if is_start_char(front_char(rest)) {
        return front_char_len(rest);
    }
    front_name_escape_len(rest)
}

/// The length of one part of a run; 0 where none is there.
fn front_unit_len(of: RunOf, rest: &[u8]) -> usize
    ensures value { result ≡ unit_len of rest.now }
    ensures within { result ≤ length rest.now }
{
    let c = front_char(rest);
    match of {
        RunOf::Blanks if is_space_char(c) => front_char_len(rest),
        RunOf::Blanks => 0,
        RunOf::NameParts if is_part_char(c) => front_char_len(rest),
        RunOf::NameParts => front_name_escape_len(rest),
        RunOf::Flags if is_part_char(c) => front_char_len(rest),
        RunOf::Flags => 0,
    }
}

/// The length of the longest run at the front.
pub fn front_run_len(of: RunOf, rest: &[u8]) -> usize
    ensures value { result ≡ run_len of rest.now }
    ensures within { result ≤ length rest.now }
{
    let mut at = 0;
    while at < rest.len() {
        let len = front_unit_len(of, &rest[at..]);
        if len == 0 {
            return at;
        }
        at += len;
    }
    at
}

/// The length of the name that the text begins with; 0 where it begins with none.
pub fn front_name_len(rest: &[u8]) -> usize
    ensures value { result ≡ name_len rest.now }
    ensures within { result ≤ length rest.now }
{
    let start = front_start_len(rest);
    if start == 0 {
        return 0;
    }
    start + front_run_len(RunOf::NameParts, &rest[start..])
}

/// The length of the `#` and the name that the text begins with; 0 where it begins with none.
pub fn front_private_len(rest: &[u8]) -> usize
    ensures { result ≡ private_len rest.now }
{
    let [b'#', name @ ..] = rest else {
        return 0;
    };
    match front_name_len(name) {
        0 => 0,
        len => len + 1,
    }
}
