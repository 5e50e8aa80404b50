//! The values of strings.
use mt_tokens::cook;
use std::alloc::Global;

/// Whether the string in quotes has this value.
fn cooks(alloc: Global, literal: &str, expected: &str) -> bool {
    match cook(alloc, literal) {
        Ok(Some(value)) => value.as_str() == expected,
        _ => false,
    }
}

/// Whether the string in quotes has no value.
fn cooks_to_none(alloc: Global, literal: &str) -> bool {
    match cook(alloc, literal) {
        Ok(value) => value.is_none(),
        Err(_) => false,
    }
}

#[test]
fn a_character_stands_for_itself(rt: HostRuntime) {
    assert!(rt; cooks(rt.alloc(), "''", ""));
    assert!(rt; cooks(rt.alloc(), "'a\u{e9}\u{2028}\"'", "a\u{e9}\u{2028}\""));
    assert!(rt; cooks(rt.alloc(), "'\\\u{e9}\\'\\\\\\q'", "\u{e9}'\\q"));
}

#[test]
fn a_letter_after_a_backslash_stands_for_a_control(rt: HostRuntime) {
    assert!(rt; cooks(rt.alloc(), r"'\b\f\n\r\t\v'", "\u{8}\u{c}\n\r\t\u{b}"));
    assert!(rt; cooks(rt.alloc(), r"'\0'", "\0"));
    assert!(rt; cooks(rt.alloc(), r"'\0a'", "\0a"));
    assert!(rt; cooks_to_none(rt.alloc(), r"'\01'"));
    assert!(rt; cooks_to_none(rt.alloc(), r"'\09'"));
    assert!(rt; cooks_to_none(rt.alloc(), r#""\1""#));
    assert!(rt; cooks_to_none(rt.alloc(), r"'a\9'"));
}

#[test]
fn a_line_end_after_a_backslash_is_nothing(rt: HostRuntime) {
    assert!(rt; cooks(rt.alloc(), "'a\\\nb'", "ab"));
    assert!(rt; cooks(rt.alloc(), "'a\\\rb'", "ab"));
    assert!(rt; cooks(rt.alloc(), "'a\\\r\nb'", "ab"));
    assert!(rt; cooks(rt.alloc(), "'a\\\u{2028}b'", "ab"));
    assert!(rt; cooks(rt.alloc(), "'\\\u{2029}'", ""));
}

#[test]
fn digits_spell_a_character(rt: HostRuntime) {
    assert!(rt; cooks(rt.alloc(), r#""\x41\u{42}""#, "AB"));
    assert!(rt; cooks(rt.alloc(), r"'\u00e9\xE9'", "\u{e9}\u{e9}"));
    assert!(rt; cooks(rt.alloc(), r"'\u{0000000000041}'", "A"));
    assert!(rt; cooks(rt.alloc(), r"'\u{10FFFF}'", "\u{10ffff}"));
    assert!(rt; cooks_to_none(rt.alloc(), r"'\u{110000}'"));
    assert!(rt; cooks_to_none(rt.alloc(), r"'\u{fffffffffffff}'"));
}

#[test]
fn digits_are_there(rt: HostRuntime) {
    assert!(rt; cooks_to_none(rt.alloc(), r"'\u{}'"));
    assert!(rt; cooks_to_none(rt.alloc(), r"'\u{41'"));
    assert!(rt; cooks_to_none(rt.alloc(), r"'\u00g0'"));
    assert!(rt; cooks_to_none(rt.alloc(), r"'\u123'"));
    assert!(rt; cooks_to_none(rt.alloc(), r"'\x4'"));
    assert!(rt; cooks_to_none(rt.alloc(), r"'\xg1'"));
}

#[test]
fn two_halves_spell_a_character(rt: HostRuntime) {
    assert!(rt; cooks(rt.alloc(), r"'\ud83d\ude00'", "\u{1f600}"));
    assert!(rt; cooks(rt.alloc(), r"'\uD83D\u{DE00}a'", "\u{1f600}a"));
    assert!(rt; cooks_to_none(rt.alloc(), r"'\ud83d'"));
    assert!(rt; cooks_to_none(rt.alloc(), r"'\ude00'"));
    assert!(rt; cooks_to_none(rt.alloc(), r"'\ud83dx\ude00'"));
    assert!(rt; cooks_to_none(rt.alloc(), r"'\ud83d\u0041'"));
}
