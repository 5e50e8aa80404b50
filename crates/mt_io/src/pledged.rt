//! Stores that are honest by their type.
ghost use Rattle.std.specs.Prelude.{⊤, ◌≡◌};

use crate::store::Store;
use crate::trouble::Trouble;
use mt_tokens::{Bytes, Text};
use std::alloc::Global;
use std::marker::Model;

/// An honest store, which takes honest bytes alone.
#[derive(Drop)]
pub struct Pledged<C: Store> {
    store: C,
}

impl<C: Store> Model for Pledged<C> {
    ghost Value = { C };

    ghost coded = { C.code };

    ghost view = { λ p. p.store };

    ghost invariant = { λ p. C.honest p.store };
}

impl<C: Store> Pledged<C> {
    /// A pledge for an honest store.
    pub fn new(store: C) -> Pledged<C>
        requires honest { C.honest store }
        ensures same { result ≡ store }
    {
        Pledged { store }
    }
}

impl<C: Store> Store for Pledged<C> {
    ghost seen = { λ p. C.seen p };

    ghost honest = { λ p. C.honest p };

    ghost pledged = { ⊤ };

    fn faults(&self) -> u64 {
        self.store.faults()
    }

    fn pledge(&self) {
        self.store.pledge();
    }

    fn get(&mut self, alloc: Global, key: &Text) -> Result<Option<Bytes>, Trouble> {
        self.store.get(alloc, key)
    }

    fn put(&mut self, alloc: Global, key: &Text, bytes: &[u8]) -> Result<(), Trouble> {
        self.store.put(alloc, key, bytes)
    }
}
