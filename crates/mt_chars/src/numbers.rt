//! Numbers.
ghost use Rattle.std.specs.Prelude.{◌≡◌, ◌≤◌, length};
ghost use Rattle.std.specs.List.{prefix_len};
ghost use Rattle.mt_chars.specs.Classes.{is_digit, is_number_part};
ghost use Rattle.mt_chars.specs.Numbers.{begins_number, begins_base, is_digit_part, fraction_len, sign_len, exponent_len, and_after, number_len};

use crate::bytes::byte_at;
use crate::classes::{is_digit_byte, number_part_len};

/// Whether a number begins here.
pub fn begins_number_at(rest: &[u8]) -> bool
    ensures { result ≡ begins_number rest.now }
{
    let first = byte_at(rest, 0);
    is_digit_byte(first) || (first == b'.' && is_digit_byte(byte_at(rest, 1)))
}

/// Whether a number of another base than ten begins here.
fn begins_base_at(rest: &[u8]) -> bool
    ensures { result ≡ begins_base rest.now }
{
    byte_at(rest, 0) == b'0' && matches!(byte_at(rest, 1), b'x' | b'X' | b'o' | b'O' | b'b' | b'B')
}

/// A digit, or the `_` that parts digits.
fn is_digit_part_byte(b: u8) -> bool
    ensures { result ≡ is_digit_part b }
{
    is_digit_byte(b) || b == b'_'
}

/// The length of the digits and the `_` between them.
fn digit_part_len(rest: &[u8]) -> usize
    ensures value { result ≡ prefix_len is_digit_part rest.now }
    ensures within { result ≤ length rest.now }
{
    rest.iter().take_while(|b| is_digit_part_byte(**b)).count()
}

/// The length of the digits.
fn digit_len(rest: &[u8]) -> usize
    ensures value { result ≡ prefix_len is_digit rest.now }
    ensures within { result ≤ length rest.now }
{
    rest.iter().take_while(|b| is_digit_byte(**b)).count()
}

/// The length of the `.` and the digits after it.
fn front_fraction_len(rest: &[u8]) -> usize
    ensures value { result ≡ fraction_len rest.now }
    ensures within { result ≤ length rest.now }
{
    match rest {
        [b'.', digits @ ..] => digit_part_len(digits) + 1,
        _ => 0,
    }
}

/// The length of the sign, if one is there.
fn front_sign_len(rest: &[u8]) -> usize
    ensures { result ≡ sign_len rest.now }
{
    match byte_at(rest, 0) {
        b'+' | b'-' => 1,
        _ => 0,
    }
}

/// The length of the `e`, the sign and the digits after it, of which there is one at least.
fn front_exponent_len(rest: &[u8]) -> usize
    ensures value { result ≡ exponent_len rest.now }
    ensures within { result ≤ length rest.now }
{
    let [b'e' | b'E', signed @ ..] = rest else {
        return 0;
    };
    let digits = front_sign_len(signed) + 1;
    if is_digit_byte(byte_at(rest, digits)) {
        digit_len(&rest[digits..]) + digits
    } else {
        0
    }
}

/// The length of the exponent, and of the letters after it.
fn after_fraction_len(rest: &[u8]) -> usize
    ensures value { result ≡ and_after exponent_len (prefix_len is_number_part) rest.now }
    ensures within { result ≤ length rest.now }
{
    let len = front_exponent_len(rest);
    len + number_part_len(&rest[len..])
}

/// The length of the fraction, and of what belongs to the number after it.
fn after_digits_len(rest: &[u8]) -> usize
    ensures value { result ≡ and_after fraction_len (and_after exponent_len (prefix_len is_number_part)) rest.now }
    ensures within { result ≤ length rest.now }
{
    let len = front_fraction_len(rest);
    len + after_fraction_len(&rest[len..])
}

/// The length of the number that the text begins with.
pub fn front_number_len(rest: &[u8]) -> usize
    ensures { result ≡ number_len rest.now }
{
    if begins_base_at(rest) {
        return number_part_len(&rest[2..]) + 2;
    }
    let len = digit_part_len(rest);
    len + after_digits_len(&rest[len..])
}
