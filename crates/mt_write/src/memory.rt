//! The text of a module in memory.
ghost use Rattle.std.specs.Prelude.{◌≡◌, ◌++◌, length, IfOk, OnErr, OnOk, None, Some};
ghost use Rattle.mt_io.specs.Causes.{HasOneCause};
ghost use Rattle.mt_io.specs.Seen.{Wrote, Missed};
ghost use Rattle.mt_write.specs.Modules.{module_of};

use crate::slot::Slot;
use crate::writers::write_module;
use mt_io::{Failed, Sink};
use mt_path::Path;
use mt_tokens::Bytes;
use std::alloc::{AllocError, Global};

/// A sink that keeps all that it takes in memory, and fails only where memory runs out.
#[derive(Drop)]
struct MemorySink {
    bytes: Bytes,
    faults: u64,
}

impl MemorySink {
    /// Takes all of the bytes, or none.
    fn take(&mut self, bytes: &[u8]) -> Result<usize, Failed>
        ensures all { IfOk result (λ n. n ≡ length bytes.now) }
        ensures taken { OnOk result (self.new.bytes ≡ self.old.bytes ++ bytes.now) }
        ensures err { OnErr result (self.new.bytes ≡ self.old.bytes) }
        ensures cause { HasOneCause self.old.faults self.new.faults result }
    {
        if self.bytes.extend(bytes).is_err() {
            self.faults = self.faults.saturating_add(1);
            return Err(Failed);
        }
        Ok(bytes.len())
    }
}

impl Sink for MemorySink {
    ghost seen = { λ sink. record { faults = sink.faults; told = Some sink.bytes; beside = None } };

    fn faults(&self) -> u64 {
        self.faults
    }

    #[tactic(auto, unfolding(mt_io::specs::Seen::Wrote, mt_io::specs::Seen::Missed))]
    fn write(&mut self, bytes: &[u8]) -> Result<usize, Failed> {
        self.take(bytes)
    }
}

/// The text of a module with its number, its path, its body and a slot for each dependency, as `write_module`
/// writes it. Refused only where memory runs out.
#[tactic(auto, unfolding(mt_io::specs::Seen::Wrote))]
pub fn module_text(
    alloc: Global,
    number: u32,
    path: &Path,
    body: &[u8],
    slots: &[Slot],
    dev: bool,
) -> Result<Bytes, AllocError>
    ensures exact { IfOk result (λ text. text ≡ module_of number path.now body.now slots.now dev) }
{
    let mut memory = MemorySink {
        bytes: Bytes::new(alloc),
        faults: 0,
    };
    match write_module(number, path, body, slots, dev, &mut memory) {
        Ok(()) => Ok(memory.bytes),
        Err(Failed) => Err(AllocError),
    }
}
