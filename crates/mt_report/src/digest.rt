//! The length and the digest of what is written.
ghost use Rattle.std.specs.Prelude.{◌≡◌, ◌≤◌, ◌++◌, [], ◌∷◌, length, take, OnOk, OnErr, Some, None};
ghost use Rattle.sha2.specs.Sha256.{sha256};
ghost use Rattle.mt_io.specs.Seen.{Takes};
ghost use Rattle.mt_report.specs.Digests.{seen_digest};

use mt_io::{Failed, Sink};
use sha2::{Digest, Sha256};
use std::alloc::{AllocError, Global};
use std::marker::Model;
use std::snapshot::Snapshot;

/// Bytes that only proofs read: they take no memory, and only how many there are is kept.
#[derive(Drop)]
struct UnkeptBytes {
    bytes: Vec<Snapshot<u8>>,
}

impl Model for UnkeptBytes {
    ghost use Rattle.std.specs.Prelude.{List, ℕ, map};

    ghost Value = { List ℕ };

    ghost view = { λ t. map (λ byte. byte.value) t.bytes.items };
}

impl UnkeptBytes {
    fn new(alloc: Global) -> UnkeptBytes
        ensures none { result ≡ [] }
    {
        UnkeptBytes {
            bytes: Vec::new(alloc),
        }
    }

    fn len(&self) -> usize
        ensures len { result ≡ length self.now }
    {
        self.bytes.len()
    }

    fn push(&mut self, byte: &u8) -> Result<(), AllocError>
        ensures ok { OnOk result (self.new ≡ self.old ++ byte.now ∷ []) }
        ensures err { OnErr result (self.new ≡ self.old) }
    {
        self.bytes.push(Snapshot::of(byte))?;
        Ok(())
    }

    /// Adds bytes from the front of these, and answers how many.
    fn extend(&mut self, bytes: &[u8]) -> usize
        ensures within { result ≤ length bytes.now }
        ensures taken { self.new ≡ self.old ++ take result bytes.now }
    {
        for i in 0..bytes.len() {
            if self.push(&bytes[i]).is_err() {
                return i;
            }
        }
        bytes.len()
    }
}

/// A sink that keeps the length and the digest of what it takes, and none of its bytes. It fails only where memory runs
/// out.
#[derive(Drop)]
pub struct DigestSink {
    hasher: Sha256,
    faults: u64,
    taken: UnkeptBytes,
}

impl Model for DigestSink {
    ghost use Rattle.sha2.specs.Hashers.{Holds256};
    ghost use Rattle.mt_report.specs.Digests.{Digested};

    ghost Value = { Digested };

    ghost view = { λ s. record { bytes = s.taken; faults = s.faults } };

    ghost invariant = { λ s. Holds256 s.hasher s.taken };
}

impl DigestSink {
    /// A sink that took nothing.
    pub fn new(alloc: Global) -> DigestSink
        ensures none { result ≡ record { bytes = []; faults = 0 } }
    {
        DigestSink {
            hasher: Sha256::new(),
            faults: 0,
            taken: UnkeptBytes::new(alloc),
        }
    }

    /// How many bytes were taken, and their digest.
    pub fn finish(self) -> (usize, [u8; 32])
        ensures length { result.0 ≡ length self.bytes }
        ensures digest { result.1 ≡ sha256 self.bytes }
    {
        let DigestSink { hasher, taken, .. } = self;
        (taken.len(), hasher.finalize())
    }
}

impl Sink for DigestSink {
    ghost seen = { seen_digest };

    fn faults(&self) -> u64 {
        self.faults
    }

    /// Takes bytes from the front of these, and answers how many; none only where there are none, or no memory.
    #[tactic(auto, unfolding(mt_io::specs::Seen::Wrote, mt_io::specs::Seen::Missed))]
    fn write(&mut self, bytes: &[u8]) -> Result<usize, Failed>
        ensures takes { Takes (seen_digest self.old) (seen_digest self.new) bytes.now result }
    {
        let count = self.taken.extend(bytes);
        let (prefix, _) = bytes.split_at(count);
        self.hasher.update(prefix);
        if count == 0 && !bytes.is_empty() {
            self.faults = self.faults.saturating_add(1);
            return Err(Failed);
        }
        Ok(count)
    }
}
