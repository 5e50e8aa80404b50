//! What gives bytes.
ghost use Rattle.std.specs.Prelude.{◌≡◌};
ghost use Rattle.mt_io.specs.Seen.{Reads, Seen};
ghost use Rattle.mt_io.specs.Told.{Reading};

use crate::trouble::Failed;

/// What gives bytes, in order, and may fail at each call.
pub trait Source {
    /// What contracts see: the faults, the bytes that the source gave so far and those that it has left, and what it tells
    /// beside this trait.
    ghost seen: { Self → Seen Reading };

    /// How many calls have failed, up to the greatest `u64`.
    fn faults(&self) -> u64
        ensures count { result ≡ (seen self.now).faults };

    /// Writes the next bytes to the front of `into`, and answers how many; 0 for an `into` that is not empty means that
    /// nothing is left. What `into` holds after them isn't said; an `Err` gives no bytes.
    fn read(&mut self, into: &mut [u8]) -> Result<usize, Failed>
        ensures { Reads (seen self.old) (seen self.new) into.old into.new result };
}
