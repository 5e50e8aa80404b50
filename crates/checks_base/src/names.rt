//! Names and blanks in every script.
use mt_tokens::{MAX_TEXT_BYTES, TokenFault, TokenKind, tokens};
use std::alloc::Global;

/// Whether `text` begins with a token of this kind that ends at `end`.
fn begins(alloc: Global, text: &str, kind: TokenKind, end: u32) -> bool {
    if text.len() > MAX_TEXT_BYTES {
        return false;
    }
    let Ok(found) = tokens(alloc, text) else {
        return false;
    };
    match found.as_slice() {
        [first, ..] => first.kind == kind && first.end == end,
        [] => false,
    }
}

/// Whether `text` begins with a name that ends at `end`.
fn is_name(alloc: Global, text: &str, end: u32) -> bool {
    begins(alloc, text, TokenKind::Ident, end)
}

/// Whether no token begins at `place`, and tokens do up to it.
fn is_bad(alloc: Global, text: &str, place: u32) -> bool {
    text.len() <= MAX_TEXT_BYTES && tokens(alloc, text).err() == Some(TokenFault::BadByte { place })
}

#[test]
fn a_name_has_letters_of_every_script(rt: HostRuntime) {
    assert!(rt; is_name(rt.alloc(), "$_9", 3));
    assert!(rt; is_name(rt.alloc(), "\u{e9}", 2));
    assert!(rt; is_name(rt.alloc(), "a\u{b7}b", 4));
    assert!(rt; is_name(rt.alloc(), "a\u{200c}b;", 5));
    assert!(rt; is_name(rt.alloc(), "\u{20bb7}", 4));
    assert!(rt; is_bad(rt.alloc(), "\u{b7}", 0));
    assert!(rt; is_bad(rt.alloc(), "\u{200c}", 0));
}

#[test]
fn a_name_has_escapes(rt: HostRuntime) {
    assert!(rt; is_name(rt.alloc(), "\\u0061b", 7));
    assert!(rt; is_name(rt.alloc(), "\\u{61}", 6));
    assert!(rt; is_name(rt.alloc(), "a\\u{0}\\u0041", 12));
    assert!(rt; is_name(rt.alloc(), "a\\u{110000}", 11));
    assert!(rt; is_bad(rt.alloc(), "\\u{1100000}", 0));
    assert!(rt; is_bad(rt.alloc(), "\\u{}", 0));
    assert!(rt; is_bad(rt.alloc(), "a\\u00g0", 1));
}

#[test]
fn a_private_name_has_a_name_after_its_mark(rt: HostRuntime) {
    assert!(rt; begins(rt.alloc(), "#x", TokenKind::Private, 2));
    assert!(rt; begins(rt.alloc(), "#\u{e9}=", TokenKind::Private, 3));
    assert!(rt; begins(rt.alloc(), "#\\u0061", TokenKind::Private, 7));
    assert!(rt; is_bad(rt.alloc(), "# a", 0));
    assert!(rt; is_bad(rt.alloc(), "a#1", 1));
}

#[test]
fn blanks_are_those_of_every_script(rt: HostRuntime) {
    assert!(rt; begins(rt.alloc(), "\u{a0}\u{feff}a", TokenKind::Space, 5));
    assert!(rt; begins(rt.alloc(), "\u{2028}\n\u{3000}a", TokenKind::Space, 7));
    assert!(rt; begins(rt.alloc(), "\u{1680}\u{2000}\u{200a}", TokenKind::Space, 9));
    assert!(rt;
        begins(
            rt.alloc(),
            " \u{202f}\u{205f}\u{2029}",
            TokenKind::Space,
            10
        )
    );
    assert!(rt; is_bad(rt.alloc(), "a\u{180e}", 1));
    assert!(rt; is_bad(rt.alloc(), "\u{200b}", 0));
}
