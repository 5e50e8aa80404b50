//! The pieces of which a bundle is made.
ghost use Rattle.std.specs.List.{flat_map};
ghost use Rattle.mt_io.specs.Seen.{Writes};
ghost use Rattle.mt_write.specs.Buffered.{Buffers};
ghost use Rattle.mt_write.specs.Pieces.{piece_text};

use crate::buffer::WriteBuffer;
use crate::slot::Slot;
use crate::slots::{put_path, put_slots};
use mt_io::{Failed, Sink};
use mt_path::Path;

/// A piece of a bundle.
#[derive(Clone, Copy)]
pub(crate) enum Piece<'a> {
    /// These bytes.
    Bytes(&'a [u8]),
    /// A number in decimal digits.
    Number(u32),
    /// Slots, joined by `,`.
    Slots(&'a [Slot]),
    /// The path that comes after a module's dependencies, where the bundle is for development.
    Path(&'a Path, bool),
}

/// Puts a piece.
fn put_piece<S: Sink>(
    buffer: &mut WriteBuffer,
    piece: &Piece<'_>,
    sink: &mut S,
) -> Result<(), Failed>
    ensures { Buffers (S.seen sink.old) (S.seen sink.new) buffer.old (piece_text piece.now) buffer.new result }
{
    match *piece {
        Piece::Bytes(bytes) => buffer.put(bytes, sink),
        Piece::Number(number) => buffer.put_number(number, sink),
        Piece::Slots(slots) => put_slots(buffer, slots, sink),
        Piece::Path(path, dev) => put_path(buffer, path, dev, sink),
    }
}

/// Puts pieces in order.
#[tactic(auto, using(crate::proofs::Buffered::buffered_none, crate::proofs::Buffered::buffered_whole))]
pub(crate) fn put_pieces<S: Sink>(
    buffer: &mut WriteBuffer,
    pieces: &[Piece<'_>],
    sink: &mut S,
) -> Result<(), Failed>
    ensures { Buffers (S.seen sink.old) (S.seen sink.new) buffer.old (flat_map piece_text pieces.now) buffer.new result }
{
    for piece in pieces {
        put_piece(buffer, piece, sink)?;
    }
    Ok(())
}

/// Writes pieces in order, through a buffer of their own.
#[tactic(auto, using(crate::proofs::Buffered::wrote_all, crate::proofs::Buffered::stopped_before, crate::proofs::Buffered::stopped_at_last))]
pub(crate) fn write_pieces<S: Sink>(pieces: &[Piece<'_>], sink: &mut S) -> Result<(), Failed>
    ensures { Writes (S.seen sink.old) (S.seen sink.new) (flat_map piece_text pieces.now) result }
{
    let mut buffer = WriteBuffer::new();
    put_pieces(&mut buffer, pieces, sink)?;
    buffer.flush(sink)
}
