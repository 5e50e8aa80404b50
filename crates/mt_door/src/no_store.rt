//! No store at all.
ghost use Rattle.std.specs.Prelude.{⊤, None};

use mt_io::{Store, Trouble};
use mt_tokens::{Bytes, Text};
use std::alloc::Global;

/// A store that keeps nothing and never fails.
#[derive(Clone, Copy, Debug, PartialEq, Eq)]
pub struct NoStore;

impl Store for NoStore {
    ghost seen = { λ _. record { faults = 0; told = None; beside = None } };

    ghost honest = { λ _. ⊤ };

    ghost pledged = { ⊤ };

    fn faults(&self) -> u64 {
        0
    }

    fn pledge(&self) {}

    fn get(&mut self, _alloc: Global, _key: &Text) -> Result<Option<Bytes>, Trouble> {
        Ok(None)
    }

    fn put(&mut self, _alloc: Global, _key: &Text, _bytes: &[u8]) -> Result<(), Trouble> {
        Ok(())
    }
}
