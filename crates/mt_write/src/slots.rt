//! The slots and the path of a module.
ghost use Rattle.std.specs.Prelude.{◌≡◌, ◌++◌, codes, drop};
ghost use Rattle.std.specs.List.{flat_map, join_by};
ghost use Rattle.mt_write.specs.Buffered.{Buffers};
ghost use Rattle.mt_write.specs.Modules.{escaped, escaped_byte, path_text, quoted_path, slot_text};

use crate::buffer::WriteBuffer;
use crate::slot::Slot;
use mt_io::{Failed, Sink};
use mt_path::Path;

/// Puts a byte of a path, with a `\` before it where it is a `\` or a `"`.
fn put_escaped_byte<S: Sink>(buffer: &mut WriteBuffer, byte: u8, sink: &mut S) -> Result<(), Failed>
    ensures { Buffers (S.seen sink.old) (S.seen sink.new) buffer.old (escaped_byte byte) buffer.new result }
{
    if byte == b'\\' || byte == b'"' {
        buffer.put(&[b'\\', byte], sink)
    } else {
        buffer.put(&[byte], sink)
    }
}

/// Puts a text with a `\` before each `\` and `"`.
#[tactic(auto, using(crate::proofs::Buffered::buffered_none, crate::proofs::Buffered::buffered_whole))]
fn put_escaped<S: Sink>(buffer: &mut WriteBuffer, text: &[u8], sink: &mut S) -> Result<(), Failed>
    ensures { Buffers (S.seen sink.old) (S.seen sink.new) buffer.old (escaped text.now) buffer.new result }
{
    for byte in text {
        put_escaped_byte(buffer, *byte, sink)?;
    }
    Ok(())
}

/// The text of a path without its first `/`.
fn without_slash(path: &Path) -> &[u8]
    ensures { result.now ≡ drop 1 path.now }
{
    match path.as_str().as_bytes() {
        [_, rest @ ..] => rest,
        [] => b"",
    }
}

/// Puts a path between `"`, without its first `/` and after a `,`.
#[tactic(auto, using(crate::proofs::Buffered::buffered_then, crate::proofs::Buffered::buffer_stopped, crate::proofs::Buffered::buffer_stopped_more))]
fn put_quoted_path<S: Sink>(
    buffer: &mut WriteBuffer,
    path: &Path,
    sink: &mut S,
) -> Result<(), Failed>
    ensures { Buffers (S.seen sink.old) (S.seen sink.new) buffer.old (quoted_path path.now) buffer.new result }
{
    buffer.put(b",\"", sink)?;
    put_escaped(buffer, without_slash(path), sink)?;
    buffer.put(b"\"", sink)?;
    Ok(())
}

/// Puts the path that comes after a module's dependencies in a bundle for development.
#[tactic(auto, using(crate::proofs::Buffered::buffered_none))]
pub(crate) fn put_path<S: Sink>(
    buffer: &mut WriteBuffer,
    path: &Path,
    dev: bool,
    sink: &mut S,
) -> Result<(), Failed>
    ensures { Buffers (S.seen sink.old) (S.seen sink.new) buffer.old (path_text dev path.now) buffer.new result }
{
    if dev {
        put_quoted_path(buffer, path, sink)
    } else {
        Ok(())
    }
}

/// Puts a slot: its number, or `null`.
fn put_slot<S: Sink>(buffer: &mut WriteBuffer, slot: Slot, sink: &mut S) -> Result<(), Failed>
    ensures { Buffers (S.seen sink.old) (S.seen sink.new) buffer.old (slot_text slot) buffer.new result }
{
    match slot {
        Slot::Module(number) => buffer.put_number(number, sink),
        Slot::Empty => buffer.put(b"null", sink),
    }
}

/// Puts a `,` and a slot.
#[tactic(auto, using(crate::proofs::Buffered::buffered_then, crate::proofs::Buffered::buffer_stopped, crate::proofs::Buffered::buffer_stopped_more))]
fn put_next_slot<S: Sink>(buffer: &mut WriteBuffer, slot: Slot, sink: &mut S) -> Result<(), Failed>
    ensures { Buffers (S.seen sink.old) (S.seen sink.new) buffer.old (codes "," ++ slot_text slot) buffer.new result }
{
    buffer.put(b",", sink)?;
    put_slot(buffer, slot, sink)?;
    Ok(())
}

/// Puts slots with a `,` before each.
#[tactic(auto, using(crate::proofs::Buffered::buffered_none, crate::proofs::Buffered::buffered_whole))]
fn put_next_slots<S: Sink>(
    buffer: &mut WriteBuffer,
    slots: &[Slot],
    sink: &mut S,
) -> Result<(), Failed>
    ensures { Buffers (S.seen sink.old) (S.seen sink.new) buffer.old (flat_map (λ slot. codes "," ++ slot_text slot) slots.now) buffer.new result }
{
    for slot in slots {
        put_next_slot(buffer, *slot, sink)?;
    }
    Ok(())
}

/// Puts slots, joined by `,`.
#[tactic(auto, using(crate::proofs::Buffered::buffered_none))]
pub(crate) fn put_slots<S: Sink>(
    buffer: &mut WriteBuffer,
    slots: &[Slot],
    sink: &mut S,
) -> Result<(), Failed>
    ensures { Buffers (S.seen sink.old) (S.seen sink.new) buffer.old (join_by slot_text (codes ",") slots.now) buffer.new result }
{
    let [first, rest @ ..] = slots else {
        return Ok(());
    };
    put_slot(buffer, *first, sink)?;
    put_next_slots(buffer, rest, sink)?;
    Ok(())
}
