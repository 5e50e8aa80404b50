//! Streams of std.
ghost use Rattle.std.specs.Prelude.{◌≡◌, None};

use mt_io::{Failed, Sink, Source};
use std::io::{Read, Write};

/// A source over a reader of std.
#[derive(Drop)]
pub struct RealSource<R: Read> {
    reader: R,
    faults: u64,
}

impl<R: Read> RealSource<R> {
    /// What the reader gives.
    pub fn new(reader: R) -> RealSource<R>
        ensures none { result.faults ≡ 0 }
    {
        RealSource { reader, faults: 0 }
    }
}

impl<R: Read> Source for RealSource<R> {
    ghost seen = { λ s. record { faults = s.faults; told = None; beside = None } };

    fn faults(&self) -> u64 {
        self.faults
    }

    fn read(&mut self, into: &mut [u8]) -> Result<usize, Failed> {
        match self.reader.read(into) {
            Ok(count) => Ok(count),
            Err(_) => {
                self.faults = self.faults.saturating_add(1);
                Err(Failed)
            }
        }
    }
}

/// A sink over a writer of std. A write that takes nothing is a fault.
#[derive(Drop)]
pub struct RealSink<W: Write> {
    writer: W,
    faults: u64,
}

impl<W: Write> RealSink<W> {
    /// What the writer takes.
    pub fn new(writer: W) -> RealSink<W>
        ensures none { result.faults ≡ 0 }
    {
        RealSink { writer, faults: 0 }
    }
}

impl<W: Write> Sink for RealSink<W> {
    ghost seen = { λ s. record { faults = s.faults; told = None; beside = None } };

    fn faults(&self) -> u64 {
        self.faults
    }

    #[tactic(auto, unfolding(mt_io::specs::Seen::Wrote, mt_io::specs::Seen::Missed))]
    fn write(&mut self, bytes: &[u8]) -> Result<usize, Failed> {
        match self.writer.write(bytes) {
            Ok(count) => {
                if count == 0 && !bytes.is_empty() {
                    self.faults = self.faults.saturating_add(1);
                    return Err(Failed);
                }
                Ok(count)
            }
            Err(_) => {
                self.faults = self.faults.saturating_add(1);
                Err(Failed)
            }
        }
    }
}
