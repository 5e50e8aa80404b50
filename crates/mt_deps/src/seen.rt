//! Tokens, without the blanks and the comments between them.
ghost use Rattle.std.specs.Prelude.{◌≡◌, ◌<◌, ◌^◌, ◌∷◌, [], length, MatchOption};
ghost use Rattle.mt_tokens.specs.Words.{seen};

use mt_tokens::{Token, is_seen_kind};

/// Tokens of which blanks and comments are passed over as they are met.
#[derive(Clone, Copy)]
pub(crate) struct SeenTokens<'t> {
    /// All of them.
    pub tokens: &'t [Token],
    ghost few: { length tokens.now < 2 ^ 64 },
}

impl<'t> SeenTokens<'t> {
    /// The first one, and those after it.
    pub(crate) fn split_first(self) -> Option<(Token, SeenTokens<'t>)>
        ensures { MatchOption result (seen self.entry.tokens.now ≡ []) (λ (first, rest). seen self.entry.tokens.now ≡ first ∷ seen rest.tokens.now) }
    {
        let mut tokens = self.tokens;
        while let Some((first, rest)) = tokens.split_first() {
            if is_seen_kind(first.kind) {
                return Some((*first, SeenTokens { tokens: rest }));
            }
            tokens = rest;
        }
        None
    }
}
