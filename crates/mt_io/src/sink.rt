//! What takes bytes.
ghost use Rattle.std.specs.Prelude.{◌≡◌, ℕ, List};
ghost use Rattle.mt_io.specs.Seen.{Seen, Takes, Writes};

use crate::trouble::Failed;

/// What takes bytes, in order, and may fail at each call.
pub trait Sink {
    /// What contracts see: the faults, the bytes that the sink took so far, and what it tells beside this trait.
    ghost seen: { Self → Seen (List ℕ) };

    /// How many calls have failed, up to the greatest `u64`.
    fn faults(&self) -> u64
        ensures count { result ≡ (seen self.now).faults };

    /// Takes bytes from the front of `bytes`, at least one where there is one, and answers how many. After an `Err` it
    /// has taken none.
    fn write(&mut self, bytes: &[u8]) -> Result<usize, Failed>
        ensures takes { Takes (seen self.old) (seen self.new) bytes.now result };
}

/// Writes all of `bytes`. After an `Err` the sink has taken a prefix of them.
#[tactic(auto, using(crate::proofs::Seen::wrote_none, crate::proofs::Seen::wrote_more, crate::proofs::Seen::wrote_whole, crate::proofs::Seen::stopped_at))]
pub fn send_all<S: Sink>(sink: &mut S, bytes: &[u8]) -> Result<(), Failed>
    ensures { Writes (S.seen sink.old) (S.seen sink.new) bytes.now result }
{
    let mut at = 0;
    while at < bytes.len() {
        let (_, rest) = bytes.split_at(at);
        at += sink.write(rest)?;
    }
    Ok(())
}
