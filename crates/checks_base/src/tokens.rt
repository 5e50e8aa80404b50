//! The lexical grammar at its corners.
use mt_tokens::TokenKind::{Comment, Ident, Number, Punct, Space, Str};
use mt_tokens::{
    MAX_TEXT_BYTES, TokenFault, TokenKind, is_mark_token, is_plain_here, is_plain_word,
    is_seen_kind, is_word_token, token_bytes, tokens,
};
use std::alloc::Global;
use std::test::Fail;

/// Whether the tokens of `text` are of these kinds, and end at these places.
fn has_tokens(alloc: Global, text: &str, expected: &[(TokenKind, u32)]) -> bool {
    if text.len() > MAX_TEXT_BYTES {
        return false;
    }
    let Ok(found) = tokens(alloc, text) else {
        return false;
    };
    let ends = found.as_slice().iter().map(|token| (token.kind, token.end));
    ends.eq(expected.iter().copied())
}

/// Whether the fault of `text` is this one.
fn has_fault(alloc: Global, text: &str, expected: TokenFault) -> bool {
    text.len() <= MAX_TEXT_BYTES && tokens(alloc, text).err() == Some(expected)
}

#[test]
fn names_blanks_and_marks_are_tokens(rt: HostRuntime) {
    assert!(rt; has_tokens(rt.alloc(), "", &[]));
    assert!(rt;
        has_tokens(
            rt.alloc(),
            "a1 \t$_(b)",
            &[
                (Ident, 2),
                (Space, 4),
                (Ident, 6),
                (Punct, 7),
                (Ident, 8),
                (Punct, 9)
            ]
        )
    );
    assert!(rt; has_tokens(rt.alloc(), "a?.b", &[(Ident, 1), (Punct, 3), (Ident, 4)]));
    assert!(rt;
        has_tokens(
            rt.alloc(),
            "...>>>=>>>??=",
            &[(Punct, 3), (Punct, 7), (Punct, 10), (Punct, 13)]
        )
    );
}

#[test]
fn comments_end_with_their_line_or_mark(rt: HostRuntime) {
    assert!(rt;
        has_tokens(
            rt.alloc(),
            "#!/usr/bin/x\nx",
            &[(Comment, 12), (Space, 13), (Ident, 14)]
        )
    );
    assert!(rt; has_tokens(rt.alloc(), "//é", &[(Comment, 4)]));
    assert!(rt; has_tokens(rt.alloc(), "/*/**/a", &[(Comment, 6), (Ident, 7)]));
    assert!(rt; has_fault(rt.alloc(), "/* x", TokenFault::UnclosedComment { place: 0 }));
    assert!(rt;
        has_fault(
            rt.alloc(),
            " /*/`",
            TokenFault::UnclosedComment { place: 1 }
        )
    );
    assert!(rt;
        has_tokens(
            rt.alloc(),
            "//a\u{2028}b",
            &[(Comment, 3), (Space, 6), (Ident, 7)]
        )
    );
    assert!(rt; has_fault(rt.alloc(), " #!a", TokenFault::BadByte { place: 1 }));
}

#[test]
fn numbers_take_the_letters_after_them(rt: HostRuntime) {
    assert!(rt; has_tokens(rt.alloc(), "0x1Fg", &[(Number, 5)]));
    assert!(rt; has_tokens(rt.alloc(), "1_000.5e-3n", &[(Number, 11)]));
    assert!(rt; has_tokens(rt.alloc(), ".5", &[(Number, 2)]));
    assert!(rt; has_tokens(rt.alloc(), "1..a", &[(Number, 2), (Punct, 3), (Ident, 4)]));
    assert!(rt; has_tokens(rt.alloc(), "1e+a", &[(Number, 2), (Punct, 3), (Ident, 4)]));
    assert!(rt;
        has_tokens(
            rt.alloc(),
            "a?.5:b",
            &[(Ident, 1), (Punct, 2), (Number, 4), (Punct, 5), (Ident, 6)]
        )
    );
}

#[test]
fn strings_end_with_their_quote(rt: HostRuntime) {
    assert!(rt; has_tokens(rt.alloc(), "'a\\\r\n b'", &[(Str, 8)]));
    assert!(rt; has_tokens(rt.alloc(), "\"é\"", &[(Str, 4)]));
    assert!(rt; has_tokens(rt.alloc(), "\"\u{2028}'\"", &[(Str, 6)]));
    assert!(rt; has_tokens(rt.alloc(), r"'\''", &[(Str, 4)]));
    assert!(rt; has_fault(rt.alloc(), "\"abc", TokenFault::UnclosedString { place: 0 }));
    assert!(rt;
        has_fault(
            rt.alloc(),
            "x'\\\n\n'",
            TokenFault::UnclosedString { place: 1 }
        )
    );
    assert!(rt; has_fault(rt.alloc(), "'`\\", TokenFault::UnclosedString { place: 0 }));
}

#[test]
fn the_first_fault_is_answered(rt: HostRuntime) {
    assert!(rt; has_fault(rt.alloc(), "x #!", TokenFault::BadByte { place: 2 }));
    assert!(rt; has_fault(rt.alloc(), "a\\", TokenFault::BadByte { place: 1 }));
    assert!(rt; has_fault(rt.alloc(), "'a\r'", TokenFault::UnclosedString { place: 0 }));
    assert!(rt; has_fault(rt.alloc(), "(a\u{180e}", TokenFault::BadByte { place: 2 }));
    assert!(rt; has_fault(rt.alloc(), "a\u{7f}", TokenFault::BadByte { place: 1 }));
}

#[test]
fn brackets_come_in_pairs(rt: HostRuntime) {
    assert!(rt;
        has_tokens(
            rt.alloc(),
            "{([])}",
            &[
                (Punct, 1),
                (Punct, 2),
                (Punct, 3),
                (Punct, 4),
                (Punct, 5),
                (Punct, 6)
            ]
        )
    );
    assert!(rt; has_fault(rt.alloc(), "(]", TokenFault::Unbalanced { place: 1 }));
    assert!(rt; has_fault(rt.alloc(), "((", TokenFault::Unbalanced { place: 1 }));
    assert!(rt; has_fault(rt.alloc(), "((a)", TokenFault::Unbalanced { place: 0 }));
    assert!(rt; has_fault(rt.alloc(), ")", TokenFault::Unbalanced { place: 0 }));
    assert!(rt; has_fault(rt.alloc(), "x}`", TokenFault::Unbalanced { place: 1 }));
}

#[test]
fn a_million_open_brackets_are_read_flat(rt: HostRuntime) -> Result<(), Fail> {
    let mut text = String::new(rt.alloc());
    for _ in 0..1_000_000 {
        text.push('(')?;
    }
    assert!(rt; has_fault(rt.alloc(), &text, TokenFault::Unbalanced { place: 999_999 }));
    Ok(())
}

#[test]
fn a_token_list_is_read_by_numbers(rt: HostRuntime) -> Result<(), Fail> {
    let found = tokens(rt.alloc(), "ab;")?;
    assert!(rt; found.len() == 2 && !found.is_empty());
    let last = found.at(1);
    assert!(rt; last.kind == Punct && last.start == 2 && last.end == 3);
    Ok(())
}

#[test]
fn a_token_is_told_by_its_bytes(rt: HostRuntime) -> Result<(), Fail> {
    let found = tokens(rt.alloc(), "a.if;")?;
    assert!(rt; found.len() == 4);
    let dot = found.at(1);
    let word = found.at(2);
    assert!(rt; token_bytes(b"a.if;", word) == b"if".as_slice());
    assert!(rt; is_word_token(b"a.if;", b"if", word) && is_mark_token(b"a.if;", b".", dot));
    assert!(rt; is_plain_word(b"a.if;", b"if", None, word));
    assert!(rt; !is_plain_word(b"a.if;", b"if", Some(dot), word));
    assert!(rt; is_plain_here(b"a.if;", None) && !is_plain_here(b"a.if;", Some(dot)));
    assert!(rt; is_seen_kind(word.kind) && !is_seen_kind(Space));
    Ok(())
}
