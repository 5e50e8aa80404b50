//! The tokens of a text, in a profile of the lexical grammar of ECMAScript.
ghost use Rattle.std.specs.Prelude.{◌≡◌, ◌↔◌, ◌≤◌, ◌<◌, ◌⊎◌, length, List, ℕ, IfOk, IfErr, Ok, Err, All};
ghost use Rattle.mt_tokens.specs.Tokens.{Covers, HasFault, HasTokens, IsCut, max_text_bytes, token_at, tokens_of};

use crate::front::{Before, front_token};
use crate::scanner::Scanner;
use crate::{Token, TokenFault, TokenList};
use std::alloc::Global;

/// The largest number of bytes of a text that tokens are made of: 16 MiB.
pub const MAX_TEXT_BYTES: usize = 16_777_216;

/// The token at the place `at`, which is before the end.
fn token_in(bytes: &[u8], before: Before, at: usize) -> Result<Token, TokenFault>
    requires inside { at < length bytes.now }
    requires short { length bytes.now ≤ max_text_bytes }
    ensures exact { result ≡ token_at bytes.now before at }
    ensures starts { IfOk result (λ t. t.start ≡ at) }
    ensures ends { IfOk result (λ t. (at < t.end) × (t.end ≤ length bytes.now)) }
{
    let start = at as u32;
    let (kind, len) = front_token(before, start, &bytes[at..])?;
    let end = (at + len) as u32;
    Ok(Token { kind, start, end })
}

/// The tokens of a text, in one pass.
fn read_tokens(alloc: Global, text: &str) -> Result<TokenList, TokenFault>
    requires { length text.now ≤ max_text_bytes }
    ensures exact { (result ≡ Err TokenFault.NoMemory) ⊎ (result ≡ tokens_of text.now) }
{
    let bytes = text.as_bytes();
    let mut found = Vec::new(alloc);
    let mut scanner = Scanner::new(alloc);
    let mut at = 0;
    while at < bytes.len() {
        let token = token_in(bytes, scanner.before(), at)?;
        scanner.read(bytes, token)?;
        if found.push(token).is_err() {
            return Err(TokenFault::NoMemory);
        }
        at = token.end as usize;
    }
    if let Some(place) = scanner.innermost() {
        return Err(TokenFault::Unbalanced { place });
    }
    Ok(TokenList::from_vec(found))
}

/// The tokens of a text of at most `MAX_TEXT_BYTES` bytes, from its first byte to its last.
///
/// Refused with the first fault from the start on, or where memory runs out. Takes time linear in the text.
pub fn tokens(alloc: Global, text: &str) -> Result<TokenList, TokenFault>
    requires { length text.now ≤ max_text_bytes }
    ensures exact { (result ≡ Err TokenFault.NoMemory) ⊎ (result ≡ tokens_of text.now) }
    ensures covers { IfOk result (λ ts. Covers 0 (length text.now) ts) }
    ensures cut { IfOk result (λ ts. All (IsCut text.now) ts) }
    ensures tokens { IfOk result (λ ts. HasTokens text.now ts) }
    ensures fault { IfErr result (λ e. (e ≡ TokenFault.NoMemory) ⊎ HasFault text.now e) }
{
    read_tokens(alloc, text)
}

/// Does nothing, and carries a law: each text has its tokens or its first fault, and never both or two of one.
pub fn law_of_tokens()
    ensures tokens { (text : List ℕ) (ts : _) → (tokens_of text ≡ Ok ts) ↔ HasTokens text ts }
    ensures fault { (text : List ℕ) (e : _) → (tokens_of text ≡ Err e) ↔ HasFault text e }
{}
