//! What a token is, by its kind and its bytes.
ghost use Rattle.std.specs.Prelude.{◌≡◌, codes};
ghost use Rattle.mt_tokens.specs.Tokens.{IsCut};
ghost use Rattle.mt_tokens.specs.Words.{bytes_of, is_access, is_mark, is_plain, is_plain_after, is_seen, is_word};

use crate::{Token, TokenKind};
use mt_chars::part;

/// The bytes of a token of the text.
pub fn token_bytes(bytes: &[u8], token: Token) -> &[u8]
    ensures bytes { result.now ≡ bytes_of bytes.now token }
{
    part(bytes, token.start as usize, token.end as usize)
}

/// The text of a token, which is cut between characters.
pub fn token_text(text: &str, token: Token) -> &str
    requires cut { IsCut text.now token }
    ensures text { result.now ≡ bytes_of text.now token }
{
    let start = token.start as usize;
    let end = token.end as usize;
    if start < end { &text[start..end] } else { "" }
}

/// Whether tokens of this kind are neither blanks nor comments.
pub fn is_seen_kind(kind: TokenKind) -> bool
    ensures seen { result ≡ is_seen kind }
{
    !matches!(kind, TokenKind::Space | TokenKind::Comment)
}

/// Whether the token is this punctuator.
pub fn is_mark_token(bytes: &[u8], mark: &[u8], token: Token) -> bool
    ensures mark { result ≡ is_mark bytes.now mark.now token }
{
    matches!(token.kind, TokenKind::Punct) && token_bytes(bytes, token) == mark
}

/// Whether the token is this word.
pub fn is_word_token(bytes: &[u8], word: &[u8], token: Token) -> bool
    ensures word { result ≡ is_word bytes.now word.now token }
{
    matches!(token.kind, TokenKind::Ident) && token_bytes(bytes, token) == word
}

/// Whether the token is `.` or `?.`.
fn is_access_mark(bytes: &[u8], token: Token) -> bool
    ensures { result ≡ is_access bytes.now token }
{
    is_mark_token(bytes, b".", token) || is_mark_token(bytes, b"?.", token)
}

/// Whether a word after this token is no property.
pub fn is_plain_here(bytes: &[u8], before: Option<Token>) -> bool
    ensures plain { result ≡ is_plain_after bytes.now before }
{
    match before {
        Some(token) => !is_access_mark(bytes, token),
        None => true,
    }
}

/// Whether the token is this word, and not a property.
pub fn is_plain_word(bytes: &[u8], word: &[u8], before: Option<Token>, here: Token) -> bool
    ensures plain { result ≡ is_plain bytes.now word.now before here }
{
    is_word_token(bytes, word, here) && is_plain_here(bytes, before)
}
