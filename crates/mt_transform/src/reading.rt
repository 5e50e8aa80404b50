//! Reading a source.
ghost use Rattle.std.specs.Prelude.{◌≡◌, ◌≤◌, ◌⊎◌, Bool, length, All, Ok, Err, IfOk, IfErr, true, false};
ghost use Rattle.std.specs.Str.{is_utf8};
ghost use Rattle.std.specs.Str.Lossy.{utf8_valid_len};
ghost use Rattle.mt_tokens.specs.Sources.{max_source_bytes};
ghost use Rattle.mt_tokens.specs.Tokens.{IsCut, tokens_of};
ghost use Rattle.mt_tokens.specs.Transform.{is_json, made_of, read_script, script_of, transformed};
ghost use Rattle.mt_transform.specs.Readings.{made};
ghost use Rattle.mt_transform.specs.declared.reading.Reading.TheVariants.{Json};

use crate::refusal::{dep_refusal, token_refusal};
use mt_deps::{DepList, deps};
use mt_tokens::{MAX_DEPENDENCIES, PathKind, SourceFault, TokenList, tokens};
use serde_json::Value;
use std::alloc::Global;

/// What is read of a source.
#[derive(Drop)]
pub(crate) enum Reading {
    /// The tokens of a script, and what is found in it.
    Script { tokens: TokenList, list: DepList },
    /// A JSON source has nothing more.
    Json,
}

/// The text of a source, or the place up to which it is one.
fn utf8_text(source: &[u8]) -> Result<&str, SourceFault>
    requires { length source.now ≤ max_source_bytes }
    ensures ok { IfOk result (λ text. (text.now ≡ source.now) × (is_utf8 source.now ≡ true)) }
    ensures err { IfErr result (λ e. (is_utf8 source.now ≡ false) × (e ≡ SourceFault.NotUtf8 (utf8_valid_len source.now))) }
{
    match std::str::from_utf8(source) {
        Ok(text) => Ok(text),
        Err(fault) => Err(SourceFault::NotUtf8 {
            place: fault.valid_up_to() as u32,
        }),
    }
}

/// The tokens of a text.
fn read_tokens(alloc: Global, text: &str) -> Result<TokenList, SourceFault>
    requires { length text.now ≤ max_source_bytes }
    ensures ok { IfOk result (λ tokens. tokens_of text.now ≡ Ok tokens) }
    ensures cut { IfOk result (λ tokens. All (IsCut text.now) tokens) }
    ensures err { IfErr result (λ e. (e ≡ SourceFault.NoMemory) ⊎ ((strip : Bool) → read_script strip text.now (tokens_of text.now) ≡ Err e)) }
{
    match tokens(alloc, text) {
        Ok(tokens) => Ok(tokens),
        Err(fault) => Err(token_refusal(fault)),
    }
}

/// What is found in a text with these tokens: at most `MAX_DEPENDENCIES` dependencies.
fn read_deps(alloc: Global, text: &str, tokens: &TokenList) -> Result<DepList, SourceFault>
    requires cut { All (IsCut text.now) tokens.now }
    ensures ok { IfOk result (λ list. (strip : Bool) → script_of strip text.now tokens.now ≡ Ok (made_of strip text.now tokens.now list)) }
    ensures err { IfErr result (λ e. (e ≡ SourceFault.NoMemory) ⊎ ((strip : Bool) → script_of strip text.now tokens.now ≡ Err e)) }
{
    match deps(alloc, text, tokens) {
        Ok(list) if list.deps().len() > MAX_DEPENDENCIES => Err(SourceFault::TooManyDeps),
        Ok(list) => Ok(list),
        Err(fault) => Err(dep_refusal(fault)),
    }
}

/// What is read of a text.
fn read_text(alloc: Global, text: &str) -> Result<Reading, SourceFault>
    requires { length text.now ≤ max_source_bytes }
    ensures ok { IfOk result (λ reading. (strip : Bool) → read_script strip text.now (tokens_of text.now) ≡ Ok (made strip text.now reading)) }
    ensures err { IfErr result (λ e. (e ≡ SourceFault.NoMemory) ⊎ ((strip : Bool) → read_script strip text.now (tokens_of text.now) ≡ Err e)) }
{
    let tokens = read_tokens(alloc, text)?;
    let list = read_deps(alloc, text, &tokens)?;
    Ok(Reading::Script { tokens, list })
}

/// What is read of a JSON source.
fn read_json(alloc: Global, text: &str) -> Result<Reading, SourceFault>
    ensures ok { IfOk result (λ reading. (reading ≡ Json) × (is_json text.now ≡ true)) }
    ensures err { IfErr result (λ e. (e ≡ SourceFault.NoMemory) ⊎ ((e ≡ SourceFault.Json) × (is_json text.now ≡ false))) }
{
    match Value::from_str(alloc, text) {
        Ok(_) => Ok(Reading::Json),
        Err(error) => Err(if error.is_memory() {
            SourceFault::NoMemory
        } else {
            SourceFault::Json
        }),
    }
}

/// What is read of a source. Nothing of it depends on whether comments are left out.
pub(crate) fn read_source(
    alloc: Global,
    kind: PathKind,
    source: &[u8],
) -> Result<Reading, SourceFault>
    requires { length source.now ≤ max_source_bytes }
    ensures ok { IfOk result (λ reading. (strip : Bool) → transformed strip kind source.now ≡ Ok (made strip source.now reading)) }
    ensures err { IfErr result (λ e. (e ≡ SourceFault.NoMemory) ⊎ ((strip : Bool) → transformed strip kind source.now ≡ Err e)) }
{
    let text = utf8_text(source)?;
    match kind {
        PathKind::Script => read_text(alloc, text),
        PathKind::Json => read_json(alloc, text),
    }
}
