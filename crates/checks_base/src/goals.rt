//! Regular expressions and divisions, blocks and templates: what the tokens before a place tell of it.
use mt_tokens::TokenKind::{Head, Ident, Middle, Punct, Regex, Tail, Whole};
use mt_tokens::{MAX_TEXT_BYTES, TokenFault, TokenKind, tokens};
use std::alloc::Global;

/// Whether `text` has a token of this kind from `start` to `end`.
fn has_token(alloc: Global, text: &str, kind: TokenKind, start: u32, end: u32) -> bool {
    if text.len() > MAX_TEXT_BYTES {
        return false;
    }
    let Ok(found) = tokens(alloc, text) else {
        return false;
    };
    for token in found.as_slice() {
        if token.kind == kind && token.start == start && token.end == end {
            return true;
        }
    }
    false
}

/// Whether a regular expression stands in `text` from `start` to `end`.
fn has_regex(alloc: Global, text: &str, start: u32, end: u32) -> bool {
    has_token(alloc, text, Regex, start, end)
}

/// Whether the `/` at `start` divides.
fn divides(alloc: Global, text: &str, start: u32) -> bool {
    start < 100 && has_token(alloc, text, Punct, start, start + 1)
}

/// Whether this is the first fault of `text`.
fn has_fault(alloc: Global, text: &str, expected: TokenFault) -> bool {
    text.len() <= MAX_TEXT_BYTES && tokens(alloc, text).err() == Some(expected)
}

#[test]
fn a_slash_after_a_value_divides(rt: HostRuntime) {
    assert!(rt; divides(rt.alloc(), "a/b/c", 1));
    assert!(rt; divides(rt.alloc(), "a/b/c", 3));
    assert!(rt; divides(rt.alloc(), "x = 1 / 2;", 6));
    assert!(rt; divides(rt.alloc(), "[1]/a", 3));
    assert!(rt; divides(rt.alloc(), "'a'/b", 3));
    assert!(rt; divides(rt.alloc(), "a/**/ /b/c", 6));
}

#[test]
fn a_slash_after_names_and_templates_divides(rt: HostRuntime) {
    assert!(rt; divides(rt.alloc(), "#a/b", 2));
    assert!(rt; divides(rt.alloc(), "`a`/b", 3));
    assert!(rt; divides(rt.alloc(), "`${a}`/b", 6));
    assert!(rt; divides(rt.alloc(), "a++/b/c", 3));
    assert!(rt; divides(rt.alloc(), "a.return/b/c", 8));
    assert!(rt; divides(rt.alloc(), "a?.return/b/c", 9));
    assert!(rt; has_token(rt.alloc(), "x/=2", Punct, 1, 3));
}

#[test]
fn a_slash_for_an_operand_begins_a_regex(rt: HostRuntime) {
    assert!(rt; has_regex(rt.alloc(), "x = /[/]/g", 4, 10));
    assert!(rt; has_regex(rt.alloc(), "/a/g", 0, 4));
    assert!(rt; has_regex(rt.alloc(), "/=/", 0, 3));
    assert!(rt; has_regex(rt.alloc(), "/**/ /a/", 5, 8));
    assert!(rt; has_regex(rt.alloc(), "return/a/", 6, 9));
    assert!(rt; has_regex(rt.alloc(), "a=>/b/", 3, 6));
    assert!(rt; has_regex(rt.alloc(), "`${/a/}`", 3, 6));
}

#[test]
fn a_slash_after_parentheses_goes_by_the_word_before_them(rt: HostRuntime) {
    assert!(rt; has_regex(rt.alloc(), "if(a)/b/.c", 5, 8));
    assert!(rt; has_regex(rt.alloc(), "while((a))/b/", 10, 13));
    assert!(rt; has_regex(rt.alloc(), "for await(a)/b/", 12, 15));
    assert!(rt; divides(rt.alloc(), "f(a)/b/c", 4));
    assert!(rt; divides(rt.alloc(), "await(a)/b/c", 8));
    assert!(rt; divides(rt.alloc(), "a.if(b)/c/d", 7));
    assert!(rt; divides(rt.alloc(), "if(f(a)/b)c", 7));
}

#[test]
fn a_slash_after_a_block_begins_a_regex(rt: HostRuntime) {
    assert!(rt; has_regex(rt.alloc(), "{}/a/g;", 2, 6));
    assert!(rt; has_regex(rt.alloc(), ";{}/a/", 3, 6));
    assert!(rt; has_regex(rt.alloc(), "()=>{}/a/", 6, 9));
    assert!(rt; has_regex(rt.alloc(), "else{}/a/", 6, 9));
    assert!(rt; has_regex(rt.alloc(), "a{}/b/", 3, 6));
    assert!(rt; has_regex(rt.alloc(), "{{}}/a/", 4, 7));
}

#[test]
fn a_slash_after_an_object_divides(rt: HostRuntime) {
    assert!(rt; divides(rt.alloc(), "x={}/a/g", 4));
    assert!(rt; divides(rt.alloc(), "return{}/a/b", 8));
    assert!(rt; divides(rt.alloc(), "({})/a/b", 4));
    assert!(rt; divides(rt.alloc(), "x={a:{}}/b/c", 8));
    assert!(rt; divides(rt.alloc(), "`${{}/a/b}`", 5));
}

#[test]
fn a_regex_ends_at_a_free_slash(rt: HostRuntime) {
    assert!(rt; has_regex(rt.alloc(), "/[/\\]/]/", 0, 8));
    assert!(rt; has_regex(rt.alloc(), "/\\//", 0, 4));
    assert!(rt; has_regex(rt.alloc(), "/a/\u{e9}", 0, 5));
    assert!(rt; has_regex(rt.alloc(), "/a/\\u0061", 0, 3));
    assert!(rt; has_token(rt.alloc(), "/a/\\u0061", Ident, 3, 9));
}

#[test]
fn a_regex_ends_on_its_line(rt: HostRuntime) {
    assert!(rt; has_fault(rt.alloc(), "/a", TokenFault::UnclosedRegex { place: 0 }));
    assert!(rt; has_fault(rt.alloc(), "a=/[/", TokenFault::UnclosedRegex { place: 2 }));
    assert!(rt; has_fault(rt.alloc(), "/a\n/", TokenFault::UnclosedRegex { place: 0 }));
    assert!(rt; has_fault(rt.alloc(), "/\\\n/", TokenFault::UnclosedRegex { place: 0 }));
    assert!(rt;
        has_fault(
            rt.alloc(),
            "/\u{2028}/",
            TokenFault::UnclosedRegex { place: 0 }
        )
    );
    assert!(rt; has_fault(rt.alloc(), "/a\\", TokenFault::UnclosedRegex { place: 0 }));
}

#[test]
fn a_template_has_pieces(rt: HostRuntime) {
    assert!(rt; has_token(rt.alloc(), "`a`", Whole, 0, 3));
    assert!(rt; has_token(rt.alloc(), "`a${b}c`", Head, 0, 4));
    assert!(rt; has_token(rt.alloc(), "`a${b}c`", Tail, 5, 8));
    assert!(rt; has_token(rt.alloc(), "`${a}${b}`", Middle, 4, 7));
    assert!(rt; has_token(rt.alloc(), "`\\``", Whole, 0, 4));
    assert!(rt; has_token(rt.alloc(), "`\\${`", Whole, 0, 5));
    assert!(rt; has_token(rt.alloc(), "`$\u{e9}`", Whole, 0, 5));
}

#[test]
fn a_brace_closes_what_is_innermost(rt: HostRuntime) {
    assert!(rt; has_token(rt.alloc(), "`${{}}`", Punct, 4, 5));
    assert!(rt; has_token(rt.alloc(), "`${{}}`", Tail, 5, 7));
    assert!(rt; has_token(rt.alloc(), "`${`b`}`", Whole, 3, 6));
    assert!(rt; has_token(rt.alloc(), "`${`b`}`", Tail, 6, 8));
    assert!(rt; has_fault(rt.alloc(), "`${(}`", TokenFault::Unbalanced { place: 4 }));
    assert!(rt; has_fault(rt.alloc(), "{`${a]`", TokenFault::Unbalanced { place: 5 }));
}

#[test]
fn a_template_is_closed(rt: HostRuntime) {
    assert!(rt; has_fault(rt.alloc(), "`a", TokenFault::UnclosedTemplate { place: 0 }));
    assert!(rt;
        has_fault(
            rt.alloc(),
            "`\\`",
            TokenFault::UnclosedTemplate { place: 0 }
        )
    );
    assert!(rt;
        has_fault(
            rt.alloc(),
            "`${a}b",
            TokenFault::UnclosedTemplate { place: 4 }
        )
    );
    assert!(rt;
        has_fault(
            rt.alloc(),
            "`${`b",
            TokenFault::UnclosedTemplate { place: 3 }
        )
    );
    assert!(rt; has_fault(rt.alloc(), "x`${`b}`", TokenFault::Unbalanced { place: 1 }));
    assert!(rt; has_fault(rt.alloc(), "`${", TokenFault::Unbalanced { place: 0 }));
}
