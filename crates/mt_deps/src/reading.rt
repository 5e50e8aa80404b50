//! What a text requires, imports and exports, in one reading of its tokens.
ghost use Rattle.std.specs.Prelude.{◌≡◌, ◌⊎◌, ◌<◌, length, None, All, Err};
ghost use Rattle.std.specs.List.{list_any};
ghost use Rattle.mt_tokens.specs.Cut.{AreCut};
ghost use Rattle.mt_tokens.specs.Deps.{deps_of, gathered_or};
ghost use Rattle.mt_tokens.specs.Readings.{found_at};
ghost use Rattle.mt_tokens.specs.Shields.{no_cover};
ghost use Rattle.mt_tokens.specs.Tokens.{IsCut};
ghost use Rattle.mt_tokens.specs.Words.{seen};
ghost use Rattle.mt_deps.specs.Words.{is_telling};

use crate::DepList;
use crate::calls::read_at;
use crate::gathering::Gathering;
use crate::seen::SeenTokens;
use crate::shields::next_cover;
use crate::sites::Sites;
use crate::spans::read_spans;
use mt_tokens::{Cover, DepFault, Head, Token, TokenList, is_word_token};
use std::alloc::Global;

/// Whether something may be found at a token: it is one of three words.
fn is_telling_word(bytes: &[u8], token: Token) -> bool
    ensures { result ≡ is_telling bytes.now token }
{
    is_word_token(bytes, b"import", token)
        || is_word_token(bytes, b"export", token)
        || is_word_token(bytes, b"require", token)
}

/// Whether something may be found at one of the tokens.
fn has_telling_word(bytes: &[u8], tokens: &[Token]) -> bool
    ensures { result ≡ list_any (is_telling bytes.now) tokens.now }
{
    tokens.iter().any(|token| is_telling_word(bytes, *token))
}

/// What is found at these tokens, of which blanks and comments are passed over.
fn read_seen(alloc: Global, text: &str, tokens: &[Token]) -> Result<DepList, DepFault>
    requires few { length (seen tokens.now) < 4294967296 }
    requires cut { AreCut text.now (seen tokens.now) }
    ensures exact { (result ≡ Err DepFault.NoMemory) ⊎ (result ≡ gathered_or text.now (found_at text.now no_cover None 0 (seen tokens.now))) }
{
    let bytes = text.as_bytes();
    let mut spans = read_spans(alloc, bytes, tokens)?;
    let mut gathering = Gathering::new(alloc);
    let mut cover = Cover {
        head: Head::Elsewhere,
        count: 0,
    };
    let mut sites = Sites::new(None, SeenTokens { tokens });
    while let Some(site) = sites.next(bytes) {
        let shielded = cover.count > 0;
        let found = read_at(alloc, text, shielded, &site)?;
        gathering.add_any(alloc, text, found)?;
        let span = spans.pop();
        cover = next_cover(bytes, cover, span, site.here);
    }
    Ok(gathering.into_list())
}

/// What is found in a text with these tokens: what it requires, imports and exports, and the ranges of it that a bundle
/// replaces. Each token begins and ends between characters, as those that `tokens` answers do.
///
/// A text without the words `import`, `export` and `require` is answered at once. Refused at the first `import` or `export` that begins no form of one, or where memory runs out. Takes time of n log n in
/// the number of the tokens.
#[tactic(auto, using(crate::proofs::Steps::seen_within, crate::proofs::Replaced::seen_all, crate::proofs::Wordless::deps_none), unfolding(mt_tokens::specs::Deps::deps_of))]
pub fn deps(alloc: Global, text: &str, tokens: &TokenList) -> Result<DepList, DepFault>
    requires cut { All (IsCut text.now) tokens.now }
    ensures exact { (result ≡ Err DepFault.NoMemory) ⊎ (result ≡ deps_of text.now tokens.now) }
{
    if !has_telling_word(text.as_bytes(), tokens.as_slice()) {
        return Ok(Gathering::new(alloc).into_list());
    }
    read_seen(alloc, text, tokens.as_slice())
}
