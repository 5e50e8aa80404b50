//! What is found at one token.
ghost use Rattle.std.specs.Prelude.{◌≡◌, ◌⊎◌, Ok, Err, IfOk, IfErr};
ghost use Rattle.mt_tokens.specs.Cut.{AreCut};
ghost use Rattle.mt_tokens.specs.Readings.{argument, call_close, call_or, dynamic_call, read_export, read_import, read_require, read_site};
ghost use Rattle.mt_tokens.specs.declared.forms.Found.TheVariants.{ImportCall};
ghost use Rattle.mt_deps.specs.Seen.{seen_of, seen_site};

use crate::exports::read_export_form;
use crate::imports::read_import_form;
use crate::lists::read_named;
use crate::seen::SeenTokens;
use crate::sites::{Site, begins_with, is_word_at};
use mt_tokens::{DepFault, Found, Named, Token, is_mark_token, is_word_token};
use std::alloc::{AllocError, Global};

/// The `)` after an optional `,`.
fn close_of_call(bytes: &[u8], tokens: SeenTokens) -> Option<Token>
    ensures { result ≡ call_close bytes.now (seen_of tokens.entry) }
{
    let (first, after) = tokens.split_first()?;
    if is_mark_token(bytes, b")", first) {
        return Some(first);
    }
    let (second, _) = after.split_first()?;
    if is_mark_token(bytes, b",", first) && is_mark_token(bytes, b")", second) {
        Some(second)
    } else {
        None
    }
}

/// `(`, a string, an optional `,`, `)`.
fn read_argument(alloc: Global, text: &str, tokens: SeenTokens) -> Result<Option<Named>, AllocError>
    requires { AreCut text.now (seen_of tokens) }
    ensures { IfOk result (λ m. m ≡ argument text.now (seen_of tokens.entry)) }
{
    let Some((opener, after)) = tokens.split_first() else {
        return Ok(None);
    };
    let Some((string, rest)) = after.split_first() else {
        return Ok(None);
    };
    let bytes = text.as_bytes();
    if !is_mark_token(bytes, b"(", opener) {
        return Ok(None);
    }
    match close_of_call(bytes, rest) {
        Some(close) => read_named(alloc, text, string, close.end),
        None => Ok(None),
    }
}

/// A call that names no module.
fn read_dynamic(bytes: &[u8], site: &Site) -> Option<Found>
    ensures { result ≡ dynamic_call bytes.now (seen_site site.now) }
{
    let declared = site
        .before
        .is_some_and(|token| is_word_token(bytes, b"function", token));
    if begins_with(bytes, b"(", site.after) && !declared {
        Some(Found::Dynamic)
    } else {
        None
    }
}

/// What a plain `require` is.
fn read_require_at(
    alloc: Global,
    text: &str,
    shielded: bool,
    site: &Site,
) -> Result<Option<Found>, AllocError>
    requires { AreCut text.now (seen_site site.now).after }
    ensures { IfOk result (λ f. f ≡ read_require text.now shielded (seen_site site.now)) }
{
    if shielded {
        return Ok(None);
    }
    match read_argument(alloc, text, site.after)? {
        Some(named) => Ok(Some(Found::Require(named))),
        None => Ok(read_dynamic(text.as_bytes(), site)),
    }
}

/// What a plain `import` before a `(` is.
fn read_import_call(alloc: Global, text: &str, site: &Site) -> Result<Option<Found>, AllocError>
    requires { AreCut text.now (seen_site site.now).after }
    ensures { IfOk result (λ f. f ≡ call_or (λ m. ImportCall (seen_site site.now).here m) (argument text.now (seen_site site.now).after) (dynamic_call text.now (seen_site site.now))) }
{
    match read_argument(alloc, text, site.after)? {
        Some(named) => Ok(Some(Found::ImportCall {
            word: site.here,
            named,
        })),
        None => Ok(read_dynamic(text.as_bytes(), site)),
    }
}

/// What a plain `import` is.
fn read_import_at(alloc: Global, text: &str, site: &Site) -> Result<Option<Found>, DepFault>
    requires cut { AreCut text.now (seen_site site.now).after }
    ensures ok { IfOk result (λ f. read_import text.now (seen_site site.now) ≡ Ok f) }
    ensures err { IfErr result (λ e. (e ≡ DepFault.NoMemory) ⊎ (read_import text.now (seen_site site.now) ≡ Err e)) }
{
    let bytes = text.as_bytes();
    let word = site.here;
    if begins_with(bytes, b"(", site.after) {
        return Ok(read_import_call(alloc, text, site)?);
    }
    if begins_with(bytes, b".", site.after) || site.depth != 0 {
        return Ok(None);
    }
    match read_import_form(alloc, text, site.after)? {
        Some(form) => Ok(Some(Found::Statement { word, form })),
        None => Err(DepFault::ImportForm { place: word.start }),
    }
}

/// What a plain `export` is.
fn read_export_at(alloc: Global, text: &str, site: &Site) -> Result<Option<Found>, DepFault>
    requires cut { AreCut text.now (seen_site site.now).after }
    ensures ok { IfOk result (λ f. read_export text.now (seen_site site.now) ≡ Ok f) }
    ensures err { IfErr result (λ e. (e ≡ DepFault.NoMemory) ⊎ (read_export text.now (seen_site site.now) ≡ Err e)) }
{
    let word = site.here;
    if site.depth != 0 {
        return Ok(None);
    }
    match read_export_form(alloc, text, site.after)? {
        Some(form) => Ok(Some(Found::Statement { word, form })),
        None => Err(DepFault::ExportForm { place: word.start }),
    }
}

/// What is found at a token, where it stands. In a function that shields it no `require` names a module.
pub(crate) fn read_at(
    alloc: Global,
    text: &str,
    shielded: bool,
    site: &Site,
) -> Result<Option<Found>, DepFault>
    requires cut { AreCut text.now (seen_site site.now).after }
    ensures ok { IfOk result (λ f. read_site text.now shielded (seen_site site.now) ≡ Ok f) }
    ensures err { IfErr result (λ e. (e ≡ DepFault.NoMemory) ⊎ (read_site text.now shielded (seen_site site.now) ≡ Err e)) }
{
    let bytes = text.as_bytes();
    if is_word_at(bytes, b"import", site) {
        read_import_at(alloc, text, site)
    } else if is_word_at(bytes, b"export", site) {
        read_export_at(alloc, text, site)
    } else if is_word_at(bytes, b"require", site) {
        Ok(read_require_at(alloc, text, shielded, site)?)
    } else {
        Ok(None)
    }
}
