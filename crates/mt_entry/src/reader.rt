//! Reads entries.
ghost use Rattle.std.specs.Prelude.{◌≡◌, ◌≤◌, length, IfOk, IfSome, IfNone};
ghost use Rattle.mt_tokens.specs.CacheEntries.{Says};
ghost use Rattle.mt_tokens.specs.Sources.{max_source_bytes};
ghost use Rattle.mt_entry.specs.Entries.{entry_of};
ghost use Rattle.mt_entry.specs.Readers.{AreCounted, AreSpelled, IsNoEntry, IsTail, NoCounted, NoNames, NoTail};

use crate::taking::{take_name, take_source, take_text, take_word};
use mt_tokens::{Bytes, MAX_DEPENDENCIES, PathKind, Shared, Text};
use mt_transform::{Name, NameList, Output};
use std::alloc::{AllocError, Global};

/// What an entry has after its source.
#[derive(Drop)]
pub(crate) struct Tail {
    /// What the bundle has of the source.
    pub body: Text,
    /// How many calls name what only a run can tell.
    pub dynamic: u32,
    /// The names that the source requires.
    pub names: NameList,
}

/// The names, so many, that these bytes are; none where they are no such names.
fn read_names(alloc: Global, count: u32, bytes: &[u8]) -> Result<Option<NameList>, AllocError>
    ensures count { IfOk result (λ found. IfSome found (λ names. length names ≡ count)) }
    ensures some { IfOk result (λ found. IfSome found (AreSpelled bytes.now)) }
    ensures none { IfOk result (λ found. IfNone found (NoNames count bytes.now)) }
{
    let mut names = NameList::new(alloc);
    let mut left = bytes;
    for _at in 0..count {
        let Some((kind, text, rest)) = take_name(left) else {
            return Ok(None);
        };
        let text = Text::from_str(alloc, text)?;
        names.push(Name { text, kind })?;
        left = rest;
    }
    if left.is_empty() {
        Ok(Some(names))
    } else {
        Ok(None)
    }
}

/// The names that these bytes are after their number; none where they are none, or more than a source may have.
fn read_counted(alloc: Global, bytes: &[u8]) -> Result<Option<NameList>, AllocError>
    ensures some { IfOk result (λ found. IfSome found (AreCounted bytes.now)) }
    ensures none { IfOk result (λ found. IfNone found (NoCounted bytes.now)) }
{
    let Some((count, rest)) = take_word(bytes) else {
        return Ok(None);
    };
    if count as usize > MAX_DEPENDENCIES {
        return Ok(None);
    }
    read_names(alloc, count, rest)
}

/// What an entry has after its source, if these bytes are that.
fn read_tail(alloc: Global, bytes: &[u8]) -> Result<Option<Tail>, AllocError>
    ensures some { IfOk result (λ found. IfSome found (IsTail bytes.now)) }
    ensures none { IfOk result (λ found. IfNone found (NoTail bytes.now)) }
{
    let Some((body, rest)) = take_text(bytes) else {
        return Ok(None);
    };
    let Some((dynamic, rest)) = take_word(rest) else {
        return Ok(None);
    };
    let Some(names) = read_counted(alloc, rest)? else {
        return Ok(None);
    };
    let body = Text::from_str(alloc, body)?;
    Ok(Some(Tail {
        body,
        dynamic,
        names,
    }))
}

/// The output that an entry says, if these bytes are an entry of this source, stripped so and of this kind. Refused only
/// where memory runs out.
pub fn read_entry(
    alloc: Global,
    bytes: &[u8],
    strip: bool,
    kind: PathKind,
    source: &Shared<Bytes>,
) -> Result<Option<Output>, AllocError>
    requires small { length source.now ≤ max_source_bytes }
    ensures says { IfOk result (λ found. IfSome found (λ output. Says bytes.now (entry_of output))) }
    ensures of { IfOk result (λ found. IfSome found (λ output. (output.source ≡ source.now) × (output.strip ≡ strip) × (output.kind ≡ kind))) }
    ensures none { IfOk result (λ found. IfNone found (IsNoEntry bytes.now strip kind source.now)) }
{
    let Some(rest) = take_source(bytes, strip, kind, source.as_slice()) else {
        return Ok(None);
    };
    let Some(tail) = read_tail(alloc, rest)? else {
        return Ok(None);
    };
    let Tail {
        body,
        dynamic,
        names,
    } = tail;
    let source = source.clone()?;
    Ok(Some(Output::from_parts(source, strip, kind, body, names, dynamic)))
}
