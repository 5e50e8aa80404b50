//! Writes entries.
ghost use Rattle.std.specs.Prelude.{◌≡◌, ◌≤◌, ◌<◌, ◌^◌, ◌++◌, length, map, IfOk, IfSome, IfNone, OnOk, true, false};
ghost use Rattle.std.specs.List.{flat_map};
ghost use Rattle.mt_tokens.specs.CacheEntries.{CanBeKept, IsEntryName, Says, name_bytes, sized, word};
ghost use Rattle.mt_entry.specs.Entries.{entry_name_of, entry_of};
ghost use Rattle.mt_entry.specs.Readers.{AreEntryNames};

use crate::parts::{name_byte, start_bytes};
use mt_tokens::Bytes;
use mt_transform::{Name, Output};
use std::alloc::{AllocError, Global};

/// The greatest length that four bytes say.
const MAX_LENGTH: usize = u32::MAX as usize;

/// How many bytes of an entry are neither its source nor its body nor its names.
const FIXED_BYTES: usize = 22;

/// Whether an entry may have a name.
fn is_short(name: &Name) -> bool
    ensures yes { result ≡ true → IsEntryName (entry_name_of name.now) }
    ensures no { result ≡ false → IsEntryName (entry_name_of name.now) → ⊥ }
{
    name.text.as_str().len() <= MAX_LENGTH
}

/// Whether an entry may have these names.
fn are_short(names: &[Name]) -> bool
    ensures yes { result ≡ true → AreEntryNames (map entry_name_of names.now) }
    ensures no { result ≡ false → AreEntryNames (map entry_name_of names.now) → ⊥ }
{
    for name in names {
        if !is_short(name) {
            return false;
        }
    }
    true
}

/// Adds a number in four bytes, the least first.
fn push_word(bytes: &mut Bytes, number: u32) -> Result<(), AllocError>
    ensures { OnOk result (bytes.new ≡ bytes.old ++ word number) }
{
    bytes.extend(number.to_le_bytes().as_slice())
}

/// Adds a text after its length.
fn push_sized(bytes: &mut Bytes, text: &[u8]) -> Result<(), AllocError>
    requires { length text.now < 2 ^ 32 }
    ensures { OnOk result (bytes.new ≡ bytes.old ++ sized text.now) }
{
    push_word(bytes, text.len() as u32)?;
    bytes.extend(text)
}

/// Adds how a name is required, and the name.
fn push_name(bytes: &mut Bytes, name: &Name) -> Result<(), AllocError>
    requires { IsEntryName (entry_name_of name.now) }
    ensures { OnOk result (bytes.new ≡ bytes.old ++ name_bytes (entry_name_of name.now)) }
{
    bytes.push(name_byte(name.kind))?;
    push_sized(bytes, name.text.as_bytes())
}

/// Adds names in order.
fn push_names(bytes: &mut Bytes, names: &[Name]) -> Result<(), AllocError>
    requires { AreEntryNames (map entry_name_of names.now) }
    ensures { OnOk result (bytes.new ≡ bytes.old ++ flat_map name_bytes (map entry_name_of names.now)) }
{
    for name in names {
        push_name(bytes, name)?;
    }
    Ok(())
}

/// The entry of an output in bytes; none where one of its texts is too long for a length of four bytes. Refused only where
/// memory runs out.
pub fn write_entry(alloc: Global, output: &Output) -> Result<Option<Bytes>, AllocError>
    ensures says { IfOk result (λ written. IfSome written (λ bytes. Says bytes (entry_of output.now))) }
    ensures none { IfOk result (λ written. IfNone written (CanBeKept (entry_of output.now) → ⊥)) }
{
    let source = output.source().as_slice();
    let body = output.body();
    let names = output.names().as_slice();
    if body.len() > MAX_LENGTH || !are_short(names) {
        return Ok(None);
    }
    let mut bytes = Bytes::with_capacity(alloc, FIXED_BYTES + source.len() + body.len())?;
    bytes.extend(start_bytes(output.strip(), output.kind()).as_slice())?;
    push_sized(&mut bytes, source)?;
    push_sized(&mut bytes, body)?;
    push_word(&mut bytes, output.dynamic())?;
    push_word(&mut bytes, names.len() as u32)?;
    push_names(&mut bytes, names)?;
    Ok(Some(bytes))
}
