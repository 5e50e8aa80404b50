//! Tokens where they stand.
ghost use Rattle.std.specs.Prelude.{◌≡◌, ◌+◌, ◌≤◌, ◌<◌, ◌^◌, ◌∷◌, [], drop, length, IfSome, MatchOption, Some};
ghost use Rattle.mt_tokens.specs.Sites.{begins, begins_word, depth_after, first_name, is_plain_at};
ghost use Rattle.mt_tokens.specs.Words.{is_ident};
ghost use Rattle.mt_deps.specs.Seen.{seen_of, seen_site};

use crate::seen::SeenTokens;
use mt_tokens::{
    Token, TokenKind, is_closing_token, is_mark_token, is_opening_token, is_plain_word,
    is_word_token,
};

/// A token where it stands.
#[derive(Clone, Copy)]
pub(crate) struct Site<'t> {
    /// The token before it.
    pub before: Option<Token>,
    /// How many openers are unclosed before it.
    pub depth: usize,
    pub here: Token,
    /// The tokens after it.
    pub after: SeenTokens<'t>,
}

pub(crate) fn is_name_token(token: Token) -> bool
    ensures { result ≡ is_ident token.kind }
{
    matches!(token.kind, TokenKind::Ident)
}

/// Whether this plain word stands here.
pub(crate) fn is_word_at(bytes: &[u8], word: &[u8], site: &Site) -> bool
    ensures { result ≡ is_plain_at bytes.now word.now (seen_site site.now) }
{
    is_plain_word(bytes, word, site.before, site.here)
}

/// Whether the first of the tokens is this punctuator.
pub(crate) fn begins_with(bytes: &[u8], mark: &[u8], tokens: SeenTokens) -> bool
    ensures { result ≡ begins bytes.now mark.now (seen_of tokens.entry) }
{
    match tokens.split_first() {
        Some((first, _)) => is_mark_token(bytes, mark, first),
        None => false,
    }
}

/// Whether the first of the tokens is this word.
pub(crate) fn begins_with_word(bytes: &[u8], word: &[u8], tokens: SeenTokens) -> bool
    ensures { result ≡ begins_word bytes.now word.now (seen_of tokens.entry) }
{
    match tokens.split_first() {
        Some((first, _)) => is_word_token(bytes, word, first),
        None => false,
    }
}

/// The first of the tokens, if it is a name.
pub(crate) fn leading_name(tokens: SeenTokens) -> Option<Token>
    ensures { result ≡ first_name (seen_of tokens.entry) }
{
    let (first, _) = tokens.split_first()?;
    is_name_token(first).then_some(first)
}

/// The tokens after the first.
pub(crate) fn after_first(tokens: SeenTokens) -> SeenTokens
    ensures { seen_of result ≡ drop 1 (seen_of tokens.entry) }
{
    tokens.split_first().map_or(tokens, |(_, rest)| rest)
}

/// How many openers are unclosed after a token.
fn next_depth(bytes: &[u8], depth: usize, token: Token) -> usize
    requires { depth < usize.MAX }
    ensures exact { result ≡ depth_after bytes.now depth token }
    ensures most { result ≤ depth + 1 }
{
    let closed = usize::from(is_closing_token(bytes, token));
    depth.saturating_sub(closed) + usize::from(is_opening_token(bytes, token))
}

/// The sites of tokens that are left, of which the depth can be counted.
#[derive(Clone, Copy)]
pub(crate) struct Sites<'t> {
    before: Option<Token>,
    depth: usize,
    rest: SeenTokens<'t>,
    ghost room: { depth + length (seen_of rest) < 2 ^ 64 },
}

impl<'t> Sites<'t> {
    /// The sites of tokens that are after this one, at depth 0.
    #[tactic(auto, using(crate::proofs::Steps::seen_within))]
    pub(crate) fn new(before: Option<Token>, rest: SeenTokens<'t>) -> Sites<'t>
        ensures before { result.before ≡ before }
        ensures depth { result.depth ≡ 0 }
        ensures rest { result.rest ≡ rest.entry }
    {
        Sites {
            before,
            depth: 0,
            rest,
        }
    }

    /// The first of them, which is taken out.
    pub(crate) fn next(&mut self, bytes: &[u8]) -> Option<Site<'t>>
        ensures site { MatchOption result (seen_of self.old.rest ≡ []) (λ s. (seen_of self.old.rest ≡ s.here ∷ seen_of s.after) × (s.before ≡ self.old.before) × (s.depth ≡ self.old.depth)) }
        ensures before { IfSome result (λ s. self.new.before ≡ Some s.here) }
        ensures depth { IfSome result (λ s. self.new.depth ≡ depth_after bytes.now self.old.depth s.here) }
        ensures rest { IfSome result (λ s. self.new.rest ≡ s.after) }
    {
        let (here, after) = self.rest.split_first()?;
        let site = Site {
            before: self.before,
            depth: self.depth,
            here,
            after,
        };
        *self = Sites {
            before: Some(here),
            depth: next_depth(bytes, site.depth, here),
            rest: after,
        };
        Some(site)
    }
}
