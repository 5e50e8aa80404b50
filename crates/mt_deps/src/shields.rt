//! Which tokens a function shields.
ghost use Rattle.std.specs.Prelude.{◌≡◌};
ghost use Rattle.mt_tokens.specs.Shields.{cover_by, head_after};

use crate::sites::is_name_token;
use mt_tokens::{Cover, Head, Token, is_mark_token, is_word_token};

/// How far the front of a function is read after a token.
fn next_head(bytes: &[u8], head: Head, here: Token) -> Head
    ensures { result ≡ head_after bytes.now head here }
{
    if is_word_token(bytes, b"function", here) {
        return Head::Function;
    }
    if is_mark_token(bytes, b"*", here) {
        return match head {
            Head::Function => Head::Star,
            Head::Elsewhere | Head::Star | Head::Name => Head::Elsewhere,
        };
    }
    if !is_name_token(here) {
        return Head::Elsewhere;
    }
    match head {
        Head::Function | Head::Star => Head::Name,
        Head::Elsewhere | Head::Name => Head::Elsewhere,
    }
}

/// What is covered after a token with this span.
pub(crate) fn next_cover(bytes: &[u8], cover: Cover, span: usize, here: Token) -> Cover
    ensures { result ≡ cover_by bytes.now cover span here }
{
    let head = next_head(bytes, cover.head, here);
    let count = match cover.head {
        Head::Elsewhere => cover.count,
        Head::Function | Head::Star | Head::Name => cover.count.max(span),
    };
    Cover {
        head,
        count: count.saturating_sub(1),
    }
}
