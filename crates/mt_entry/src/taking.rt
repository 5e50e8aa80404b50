//! Parts of an entry that are taken from the front of bytes.
ghost use Rattle.std.specs.Prelude.{◌≡◌, ◌<◌, ◌≤◌, ◌^◌, ◌∷◌, ◌++◌, length, IfSome, IfNone};
ghost use Rattle.mt_tokens.specs.CacheEntries.{IsEntryName, name_byte, name_bytes, sized, word};
ghost use Rattle.mt_tokens.specs.Sources.{max_source_bytes};
ghost use Rattle.mt_entry.specs.Readers.{IsText, NoFront, NoKind, NoName, NoSized, NoStart, NoText, with_source};

use crate::parts::start_bytes;
use mt_tokens::{DepKind, PathKind};

/// A number of four bytes, the least first, and what comes after it; `None` where fewer bytes are left.
pub(crate) fn take_word(bytes: &[u8]) -> Option<(u32, &[u8])>
    ensures some { IfSome result (λ taken. bytes.now ≡ word taken.0 ++ taken.1.now) }
    ensures none { IfNone result (length bytes.now < 4) }
{
    let (word, rest) = bytes.split_first_chunk::<4>()?;
    Some((u32::from_le_bytes(*word), rest))
}

/// Bytes after their number, and what comes after them; `None` where no such bytes are at the front.
fn take_sized(bytes: &[u8]) -> Option<(&[u8], &[u8])>
    ensures some { IfSome result (λ taken. bytes.now ≡ sized taken.0.now ++ taken.1.now) }
    ensures short { IfSome result (λ taken. length taken.0.now < 2 ^ 32) }
    ensures none { IfNone result (NoSized bytes.now) }
{
    let (count, rest) = take_word(bytes)?;
    rest.split_at_checked(count as usize)
}

/// A text after its length, and what comes after it; `None` where no text is at the front.
pub(crate) fn take_text(bytes: &[u8]) -> Option<(&str, &[u8])>
    ensures some { IfSome result (λ taken. bytes.now ≡ sized taken.0.now ++ taken.1.now) }
    ensures text { IfSome result (λ taken. IsText taken.0.now) }
    ensures none { IfNone result (NoText bytes.now) }
{
    let (text, rest) = take_sized(bytes)?;
    match std::str::from_utf8(text) {
        Ok(text) => Some((text, rest)),
        Err(_) => None,
    }
}

/// How a name is required, and what comes after that byte; `None` where no such byte is at the front.
fn take_kind(bytes: &[u8]) -> Option<(DepKind, &[u8])>
    ensures some { IfSome result (λ taken. bytes.now ≡ name_byte taken.0 ∷ taken.1.now) }
    ensures none { IfNone result (NoKind bytes.now) }
{
    let (byte, rest) = bytes.split_first()?;
    match *byte {
        0 => Some((DepKind::Require, rest)),
        1 => Some((DepKind::Import, rest)),
        2 => Some((DepKind::ImportCall, rest)),
        _ => None,
    }
}

/// How a name is required, the name, and what comes after it; `None` where no name is at the front.
pub(crate) fn take_name(bytes: &[u8]) -> Option<(DepKind, &str, &[u8])>
    ensures some { IfSome result (λ taken. bytes.now ≡ name_bytes (record { text = taken.1.now; kind = taken.0 }) ++ taken.2.now) }
    ensures name { IfSome result (λ taken. IsEntryName (record { text = taken.1.now; kind = taken.0 })) }
    ensures none { IfNone result (NoName bytes.now) }
{
    let (kind, rest) = take_kind(bytes)?;
    let (text, rest) = take_text(rest)?;
    Some((kind, text, rest))
}

/// What comes after these bytes; `None` where they aren't at the front.
fn take_exactly<'b>(bytes: &'b [u8], front: &[u8]) -> Option<&'b [u8]>
    ensures some { IfSome result (λ rest. bytes.now ≡ front.now ++ rest.now) }
    ensures none { IfNone result (NoFront front.now bytes.now) }
{
    bytes.strip_prefix(front)
}

/// What comes after the source of an entry that is of this source, stripped so and of this kind; `None` where the bytes
/// don't begin as such an entry does.
pub(crate) fn take_source<'b>(
    bytes: &'b [u8],
    strip: bool,
    kind: PathKind,
    source: &[u8],
) -> Option<&'b [u8]>
    requires small { length source.now ≤ max_source_bytes }
    ensures some { IfSome result (λ rest. bytes.now ≡ with_source strip kind source.now rest.now) }
    ensures none { IfNone result (NoStart bytes.now strip kind source.now) }
{
    let start = start_bytes(strip, kind);
    let count = (source.len() as u32).to_le_bytes();
    let rest = take_exactly(bytes, start.as_slice())?;
    let rest = take_exactly(rest, count.as_slice())?;
    take_exactly(rest, source)
}
