//! The classes of bytes and of characters, and the character that a text begins with.
ghost use Rattle.std.specs.Prelude.{◌≡◌, ◌≤◌, ◌+◌, ◌-◌, ◌*◌, ◌<◌, ◌&&◌, length};
ghost use Rattle.std.specs.List.{prefix_len};
ghost use Rattle.unicode_ident.specs.Ident.{is_xid_continue, is_xid_start};
ghost use lib.Utf8.{scalar};
ghost use Rattle.mt_chars.specs.Classes.{char_len, first_char, is_digit, is_hex_digit, is_number_part, is_part, is_space, is_start};

use crate::bytes::byte_at;

/// A digit.
pub fn is_digit_byte(b: u8) -> bool
    ensures { result ≡ is_digit b }
{
    b.is_ascii_digit()
}

/// A digit of base sixteen.
pub(crate) fn is_hex_digit_byte(b: u8) -> bool
    ensures { result ≡ is_hex_digit b }
{
    is_digit_byte(b) || (b > b'@' && b < b'G') || (b > b'`' && b < b'g')
}

/// What a number goes on with after its digits.
pub(crate) fn is_number_part_byte(b: u8) -> bool
    ensures { result ≡ is_number_part b }
{
    b == b'$' || b == b'_' || b.is_ascii_uppercase() || b.is_ascii_lowercase() || is_digit_byte(b)
}

/// The length of the run of letters, digits, `$` and `_` of ASCII at the start.
pub(crate) fn number_part_len(rest: &[u8]) -> usize
    ensures value { result ≡ prefix_len is_number_part rest.now }
    ensures within { result ≤ length rest.now }
{
    rest.iter().take_while(|b| is_number_part_byte(**b)).count()
}

/// The length of the run of digits of base sixteen at the start.
pub(crate) fn hex_len(rest: &[u8]) -> usize
    ensures value { result ≡ prefix_len is_hex_digit rest.now }
    ensures within { result ≤ length rest.now }
{
    rest.iter().take_while(|b| is_hex_digit_byte(**b)).count()
}

/// How many bytes the character has that the text begins with.
pub(crate) fn front_char_len(rest: &[u8]) -> usize
    ensures { result ≡ char_len rest.now }
{
    match rest {
        [] => 0,
        [first, ..] if *first < 0x80 => 1,
        [first, ..] if *first < 0xE0 => 2,
        [first, ..] if *first < 0xF0 => 3,
        _ => 4,
    }
}

/// A character's bits with those of one more byte.
fn with_bits(code: u32, b: u8) -> u32
    requires { code < 1048576 }
    ensures { result ≡ code * 64 + (b - 128) }
{
    code * 64 + u32::from(b.saturating_sub(0x80))
}

/// The character that the text begins with, and 0 where it begins with none.
pub(crate) fn front_char(rest: &[u8]) -> u32
    ensures { result ≡ first_char rest.now }
{
    let len = front_char_len(rest);
    if len > rest.len() {
        return 0;
    }
    let [one, two, three, four] = [
        byte_at(rest, 0),
        byte_at(rest, 1),
        byte_at(rest, 2),
        byte_at(rest, 3),
    ];
    if len == 2 {
        return with_bits(u32::from(one.saturating_sub(0xC0)), two);
    }
    if len == 3 {
        let code = with_bits(u32::from(one.saturating_sub(0xE0)), two);
        return with_bits(code, three);
    }
    if len == 4 {
        let code = with_bits(u32::from(one.saturating_sub(0xF0)), two);
        return with_bits(with_bits(code, three), four);
    }
    u32::from(one)
}

/// A blank or a line end.
pub(crate) fn is_space_char(c: u32) -> bool
    ensures { result ≡ is_space c }
{
    (c > 8 && c < 14)
        || c == 0x20
        || c == 0xA0
        || c == 0x1680
        || (c > 0x1FFF && c < 0x200B)
        || c == 0x2028
        || c == 0x2029
        || c == 0x202F
        || c == 0x205F
        || c == 0x3000
        || c == 0xFEFF
}

/// What a name may begin with, by Unicode's list.
fn is_listed_start(c: u32) -> bool
    ensures { result ≡ (scalar c && is_xid_start c) }
{
    match char::from_u32(c) {
        Some(c) => unicode_ident::is_xid_start(c),
        None => false,
    }
}

/// What a name may go on with, by Unicode's list.
fn is_listed_part(c: u32) -> bool
    ensures { result ≡ (scalar c && is_xid_continue c) }
{
    match char::from_u32(c) {
        Some(c) => unicode_ident::is_xid_continue(c),
        None => false,
    }
}

/// What a name may begin with.
pub(crate) fn is_start_char(c: u32) -> bool
    ensures { result ≡ is_start c }
{
    c == 36 || c == 95 || is_listed_start(c)
}

/// What a name may go on with.
pub(crate) fn is_part_char(c: u32) -> bool
    ensures { result ≡ is_part c }
{
    is_start_char(c) || is_listed_part(c) || c == 0x200C || c == 0x200D
}
