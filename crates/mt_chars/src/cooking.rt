//! The value of a string in quotes.
ghost use Rattle.std.specs.Option.{option_map, option_map_or};
ghost use Rattle.std.specs.Prelude.{◌≡◌, ◌<◌, ◌≤◌, ◌+◌, ◌++◌, [], encode_utf8, length, string_bytes, IfOk, IfSome, OnOk};
ghost use Rattle.mt_chars.specs.Escapes.{braced_of, character_of, cooked, cooked_from, digits_of, escape_of, hex_number, hex_value, is_high, is_low, line_break_len, mark_of, next_unicode, paired, part_of, single, spelled, unicode_of};

use crate::bytes::{byte_at, part};
use crate::classes::{front_char, front_char_len, hex_len, is_digit_byte};
use crate::line_ends::{begins_line_end_at, front_escape_len};
use std::alloc::{AllocError, Global};

/// What one part of a string stands for, and how many bytes it has.
#[derive(Clone, Copy, Debug)]
pub(crate) struct Part {
    /// The character, if it stands for one.
    pub value: Option<char>,
    /// The number of its bytes.
    pub len: usize,
}

/// The number that an escape spells, and how many bytes its letter and digits have.
#[derive(Clone, Copy, Debug)]
pub(crate) struct Code {
    /// The number, and 0x110000 for all that are above.
    pub code: u32,
    /// The number of its bytes.
    pub len: usize,
}

fn hex_digit_value(b: u8) -> u8
    ensures { result ≡ hex_value b }
{
    if b < b':' {
        b.saturating_sub(b'0')
    } else if b < b'a' {
        b - 55
    } else {
        b - 87
    }
}

/// The number that digits of base sixteen spell.
fn number_of_hex(digits: &[u8]) -> u32
    ensures { result ≡ hex_number digits.now }
{
    let mut number: u32 = 0;
    for b in digits {
        number = (number * 16 + u32::from(hex_digit_value(*b))).min(0x110000);
    }
    number
}

/// The number that `count` digits after a letter spell.
fn digits_at(count: usize, rest: &[u8]) -> Option<Code>
    requires some { 0 < count }
    requires few { count < 5 }
    ensures value { result ≡ digits_of count rest.now }
    ensures within { IfSome result (λ c. c.len ≤ length rest.now) }
{
    let [_, digits @ ..] = rest else {
        return None;
    };
    if hex_len(digits) < count {
        return None;
    }
    let code = number_of_hex(&digits[..count]);
    Some(Code {
        code,
        len: count + 1,
    })
}

/// The number that the digits in braces after a letter spell.
fn braced_at(rest: &[u8]) -> Option<Code>
    ensures value { result ≡ braced_of rest.now }
    ensures within { IfSome result (λ c. c.len ≤ length rest.now) }
{
    let [_, _, digits @ ..] = rest else {
        return None;
    };
    let count = hex_len(digits);
    if count == 0 || byte_at(rest, count + 2) != b'}' {
        return None;
    }
    let code = number_of_hex(&digits[..count]);
    Some(Code {
        code,
        len: count + 3,
    })
}

/// The number that a `u` and its digits spell.
fn unicode_at(rest: &[u8]) -> Option<Code>
    ensures value { result ≡ unicode_of rest.now }
    ensures within { IfSome result (λ c. c.len ≤ length rest.now) }
{
    if byte_at(rest, 1) == b'{' {
        braced_at(rest)
    } else {
        digits_at(4, rest)
    }
}

/// The same where a `\` stands before the `u`.
fn next_unicode_at(rest: &[u8]) -> Option<Code>
    ensures value { result ≡ next_unicode rest.now }
    ensures within { IfSome result (λ c. c.len < length rest.now) }
{
    match rest {
        [b'\\', code @ ..] if byte_at(code, 0) == b'u' => unicode_at(code),
        _ => None,
    }
}

fn is_high_half(code: u32) -> bool
    ensures { result ≡ is_high code }
{
    code > 0xD7FF && code < 0xDC00
}

fn is_low_half(code: u32) -> bool
    ensures { result ≡ is_low code }
{
    code > 0xDBFF && code < 0xE000
}

/// The character of a code point that an escape of `len` bytes spells.
fn spelled_by(code: u32, len: usize) -> Option<Part>
    ensures { result ≡ spelled code len }
{
    match char::from_u32(code) {
        Some(c) => Some(Part {
            value: Some(c),
            len,
        }),
        None => None,
    }
}

/// The character of a high number, where an escape of a low one follows directly.
fn paired_with(high: Code, low: Option<Code>) -> Option<Part>
    requires high { high.code < 0xDC00 }
    requires few { IfSome low (λ c. high.len + c.len < 18446744073709551615) }
    ensures { result ≡ paired high low }
{
    let Some(low) = low else {
        return None;
    };
    if !is_low_half(low.code) {
        return None;
    }
    let code = high.code.saturating_sub(0xD800) * 1024 + (low.code - 0xDC00) + 0x10000;
    spelled_by(code, high.len + 1 + low.len)
}

/// The character that an escape with this number spells, alone or with the escape after it.
fn character_at(rest: &[u8], code: Option<Code>) -> Option<Part>
    requires { IfSome code (λ c. c.len ≤ length rest.now) }
    ensures { result ≡ character_of rest.now code }
{
    let Some(code) = code else {
        return None;
    };
    if is_high_half(code.code) {
        return paired_with(code, next_unicode_at(&rest[code.len..]));
    }
    spelled_by(code.code, code.len)
}

/// What a letter or a mark after `\` stands for.
fn single_byte(b: u8) -> u8
    ensures { result ≡ single b }
{
    match b {
        b'b' => 8,
        b'f' => 12,
        b'n' => 10,
        b'r' => 13,
        b't' => 9,
        b'v' => 11,
        _ => b,
    }
}

/// What the text after a `\` stands for, where it begins with the byte `b` and with no line end.
fn mark_at(b: u8, rest: &[u8]) -> Option<Part>
    ensures { result ≡ mark_of b rest.now }
{
    if b == b'x' {
        return character_at(rest, digits_at(2, rest));
    }
    if b == b'u' {
        return character_at(rest, unicode_at(rest));
    }
    if b == b'0' {
        return if is_digit_byte(byte_at(rest, 1)) {
            None
        } else {
            Some(Part {
                value: Some('\0'),
                len: 1,
            })
        };
    }
    if is_digit_byte(b) {
        return None;
    }
    if b < 128 {
        let value = Some(char::from(single_byte(b)));
        return Some(Part { value, len: 1 });
    }
    Some(Part {
        value: None,
        len: 0,
    })
}

/// The length of the line end that the text begins with.
fn front_line_break_len(rest: &[u8]) -> usize
    ensures { result ≡ line_break_len rest.now }
{
    if byte_at(rest, 0) == 226 {
        3
    } else {
        front_escape_len(rest)
    }
}

/// What the text after a `\` stands for.
fn escape_at(rest: &[u8]) -> Option<Part>
    ensures value { result ≡ escape_of rest.now }
    ensures within { IfSome result (λ p. p.len ≤ length rest.now + 3) }
{
    let [first, ..] = rest else {
        return None;
    };
    if begins_line_end_at(rest) {
        let len = front_line_break_len(rest);
        return Some(Part { value: None, len });
    }
    mark_at(*first, rest)
}

/// The part of a string that the text begins with.
fn part_at(rest: &[u8]) -> Option<Part>
    requires { 0 < length rest.now }
    ensures value { result ≡ part_of rest.now }
    ensures within { IfSome result (λ p. (0 < p.len) × (p.len ≤ length rest.now + 4)) }
{
    if let [b'\\', escape @ ..] = rest {
        return match escape_at(escape) {
            Some(found) => Some(Part {
                value: found.value,
                len: found.len + 1,
            }),
            None => None,
        };
    }
    Some(Part {
        value: char::from_u32(front_char(rest)),
        len: front_char_len(rest),
    })
}

/// Adds a character, if there is one.
fn push_value(value: &mut String, c: Option<char>) -> Result<(), AllocError>
    ensures ok { OnOk result (string_bytes value.new ≡ string_bytes value.old ++ option_map_or encode_utf8 c []) }
{
    match c {
        Some(c) => value.push(c),
        None => Ok(()),
    }
}

/// The value of what stands between quotes: none where an escape of it spells no character.
fn inner_value(alloc: Global, body: &[u8]) -> Result<Option<String>, AllocError>
    ensures { IfOk result (λ value. option_map string_bytes value ≡ cooked_from 0 body.now) }
{
    let mut value = String::new(alloc);
    let mut at = 0;
    while at < body.len() {
        let Some(next) = part_at(&body[at..]) else {
            return Ok(None);
        };
        push_value(&mut value, next.value)?;
        at += next.len;
    }
    Ok(Some(value))
}

/// The value of a string in quotes, of which `literal` is the whole text. There is none where an escape of it spells no
/// character: `\1` to `\9`, `\0` before a digit, `\x` or `\u` without their digits, a number above U+10FFFF or a surrogate alone.
pub fn string_value(alloc: Global, literal: &str) -> Result<Option<String>, AllocError>
    ensures value { IfOk result (λ value. option_map string_bytes value ≡ cooked literal.now) }
{
    let bytes = literal.as_bytes();
    let body = part(bytes, 1, bytes.len().saturating_sub(1));
    inner_value(alloc, body)
}
