//! The tokens of a text in a row.
ghost use Rattle.std.specs.Prelude.{◌≡◌, ◌<◌, ◌↔◌, [], length, IsTrue, Some, slice_get};

use crate::Token;
use std::marker::Model;

/// Tokens in a row, fewer than 2^32. Contracts see it as the list of the tokens.
#[derive(Debug, Drop)]
pub struct TokenList {
    items: Vec<Token>,
}

impl Model for TokenList {
    ghost use Rattle.std.specs.Prelude.{List, ◌<◌, ◌^◌, length};
    ghost use Rattle.mt_tokens.specs.declared.token.Token.{Token};

    ghost Value = { List Token };

    ghost view = { λ l. l.items.items };

    ghost invariant = { λ l. length l.items.items < 2 ^ 32 };
}

impl TokenList {
    /// The list of `items`, whose memory it keeps.
    pub(crate) fn from_vec(items: Vec<Token>) -> TokenList
        requires { length items.items < 4294967296 }
        ensures tokens { result ≡ items.items }
    {
        TokenList { items }
    }

    /// The number of the tokens.
    pub fn len(&self) -> u32
        ensures count { result ≡ length self.now }
    {
        self.items.len() as u32
    }

    /// Whether there is no token.
    pub fn is_empty(&self) -> bool
        ensures empty { IsTrue result ↔ (self.now ≡ []) }
    {
        self.items.is_empty()
    }

    /// The token at the number `i`, counted from 0.
    pub fn at(&self, i: u32) -> Token
        requires { i < length self.now }
        ensures token { slice_get self.now i ≡ Some result }
    {
        self.items[i as usize]
    }

    /// The tokens as a slice.
    pub fn as_slice(&self) -> &[Token]
        ensures tokens { result.now ≡ self.now }
        ensures few { length result.now < 4294967296 }
    {
        self.items.as_slice()
    }
}
