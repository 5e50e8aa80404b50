//! Which tokens open and close what counts for the depth.
ghost use Rattle.std.specs.Prelude.{◌≡◌};
ghost use Rattle.mt_tokens.specs.Sites.{closes, opens};

use crate::Token;
use crate::brackets::{closed_byte, opened_byte};
use mt_chars::byte_at;

/// Whether the token opens a bracket or a `${`.
pub fn is_opening_token(bytes: &[u8], token: Token) -> bool
    ensures opens { result ≡ opens bytes.now token }
{
    opened_byte(token.kind, byte_at(bytes, token.start as usize)) != 0
}

/// Whether the token closes a bracket or a `${`.
pub fn is_closing_token(bytes: &[u8], token: Token) -> bool
    ensures closes { result ≡ closes bytes.now token }
{
    closed_byte(token.kind, byte_at(bytes, token.start as usize)) != 0
}
