//! A buffer before a sink, so that small pieces go to it in few writes.
ghost use Rattle.std.specs.Prelude.{◌≡◌, [], decimal, OnOk};
ghost use Rattle.mt_io.specs.Seen.{Writes};
ghost use Rattle.mt_write.specs.Buffered.{Buffers};

use arrayvec::ArrayVec;
use itoa::Buffer;
use mt_io::{Failed, Sink, send_all};
use std::marker::Model;

/// Bytes that are held before they go to a sink: at most 512.
#[derive(Drop)]
pub(crate) struct WriteBuffer {
    held: ArrayVec<u8, 512>,
}

impl Model for WriteBuffer {
    ghost use Rattle.std.specs.Prelude.{List, ℕ};

    ghost Value = { List ℕ };

    ghost view = { λ b. b.held.items };
}

impl WriteBuffer {
    /// A buffer that holds nothing.
    pub(crate) fn new() -> WriteBuffer
        ensures empty { result ≡ [] }
    {
        WriteBuffer {
            held: ArrayVec::new(),
        }
    }

    /// Writes what is held. After an `Err` the sink has taken a prefix of it.
    pub(crate) fn flush<S: Sink>(&mut self, sink: &mut S) -> Result<(), Failed>
        ensures writes { Writes (S.seen sink.old) (S.seen sink.new) self.old result }
        ensures empty { OnOk result (self.new ≡ []) }
    {
        send_all(sink, self.held.as_slice())?;
        self.held.clear();
        Ok(())
    }

    /// Puts bytes after those that are held, which are written where they leave no room for them. Bytes that are too many
    /// to be held are written as they are, in one call of `send_all`.
    #[tactic(auto, using(crate::proofs::Buffered::buffered_held, crate::proofs::Buffered::buffered_flushed, crate::proofs::Buffered::buffered_sent, mt_io::proofs::Seen::stopped_more, mt_io::proofs::Seen::stopped_then))]
    pub(crate) fn put<S: Sink>(&mut self, bytes: &[u8], sink: &mut S) -> Result<(), Failed>
        ensures { Buffers (S.seen sink.old) (S.seen sink.new) self.old bytes.now self.new result }
    {
        if self.held.try_extend_from_slice(bytes).is_ok() {
            return Ok(());
        }
        self.flush(sink)?;
        if self.held.try_extend_from_slice(bytes).is_ok() {
            return Ok(());
        }
        send_all(sink, bytes)
    }

    /// Puts a number after what is held, in decimal digits.
    pub(crate) fn put_number<S: Sink>(&mut self, number: u32, sink: &mut S) -> Result<(), Failed>
        ensures { Buffers (S.seen sink.old) (S.seen sink.new) self.old (decimal number) self.new result }
    {
        let mut digits = Buffer::new();
        self.put(digits.format(number).as_bytes(), sink)
    }
}
