//! Values by number.
ghost use Rattle.std.specs.Prelude.{◌≡◌, ℕ, ◌↔◌, ◌<◌, ◌^◌, IfNone, IfSome, IsTrue, OnOk, OnErr, Some, is_some, option_copied, filter, nat_le, slice_get};
ghost use Rattle.std.specs.Option.{option_map};
ghost use Rattle.std.specs.Map.Iter.{ShowsInOrder, deref, deref_pair};
ghost use Rattle.std.specs.List.Sorted.{IsStrictlySortedBy};
ghost use Rattle.std.specs.Ordering.{nat_cmp};
ghost use Rattle.std.specs.FinMap as map;

use crate::Copies;
use std::alloc::{AllocError, Global};
use std::collections::BTreeMap;
use std::collections::btree_map::{IntoIter, Iter, Keys};
use std::marker::Model;

/// Values by number. Contracts see it as the finite map to their views; with `()` as the value it is a finite set.
#[derive(Drop)]
pub struct NumberMap<V> {
    tree: BTreeMap<u32, V>,
}

/// A set of numbers.
pub type NumberSet = NumberMap<()>;

impl<V> Model for NumberMap<V> {
    ghost use Rattle.std.specs.FinMap as map;
    ghost use Rattle.std.specs.Ordering.{nat_cmp};
    ghost use Rattle.std.specs.Coded.{coded_ℕ};

    ghost Value = { map.FinMap nat_cmp V };

    ghost coded = { map.code coded_ℕ V.code };

    ghost view = { λ m. map.from_entries m.tree.entries };
}

impl<V> NumberMap<V> {
    /// Nothing. Takes no memory.
    pub fn new(alloc: Global) -> NumberMap<V>
        ensures empty { result ≡ map.empty }
    {
        NumberMap {
            tree: BTreeMap::new(alloc),
        }
    }

    /// How many values there are.
    pub fn len(&self) -> usize
        ensures len { result ≡ map.len self.now }
        ensures small { result < 2 ^ 63 }
    {
        self.tree.len()
    }

    /// Whether there are none.
    pub fn is_empty(&self) -> bool
        ensures empty { IsTrue result ↔ (map.len self.now ≡ 0) }
    {
        self.len() == 0
    }

    /// The value under a key.
    pub fn get(&self, key: u32) -> Option<&V>
        ensures found { option_copied result ≡ map.get self.now key }
    {
        self.tree.get(&key)
    }

    /// Whether there is a value under a key.
    pub fn contains(&self, key: u32) -> bool
        ensures has { result ≡ is_some (map.get self.now key) }
    {
        self.get(key).is_some()
    }

    /// The keys with their values, ascending.
    pub fn iter(&self) -> Iter<'_, u32, V>
        ensures rest { result ≡ map.entries self.now }
        ensures runs { ShowsInOrder (deref_pair {K = ℕ} {X = V}) }
        ensures sorted { IsStrictlySortedBy nat_cmp (map.keys self.now) }
    {
        self.tree.iter()
    }

    /// The keys, ascending.
    pub fn keys(&self) -> Keys<'_, u32, V>
        ensures rest { result ≡ map.keys self.now }
        ensures runs { ShowsInOrder (deref {X = ℕ}) }
        ensures sorted { IsStrictlySortedBy nat_cmp (map.keys self.now) }
    {
        self.tree.keys()
    }

    /// Takes out the value under the first key. Without values there is nothing to take.
    pub fn pop_first(&mut self) -> Option<(u32, V)>
        ensures first { option_map (λ e. e.0) result ≡ slice_get (map.keys self.old) 0 }
        ensures found { IfSome result (λ e. map.get self.old e.0 ≡ Some e.1) }
        ensures rest { IfSome result (λ e. self.new ≡ map.remove self.old e.0) }
        ensures none { IfNone result (self.old ≡ map.empty) }
    {
        self.tree.pop_first()
    }

    /// The least key that is at least this one.
    pub fn at_least(&self, key: u32) -> Option<u32>
        ensures least { result ≡ slice_get (filter (nat_le key) (map.keys self.now)) 0 }
    {
        let (least, _) = self.tree.range(key..).next()?;
        Some(*least)
    }
}

impl<V: Drop> NumberMap<V> {
    /// Keeps a value under a key, in place of another one. Refused only where memory runs out, and the map is then as before.
    pub fn insert(&mut self, key: u32, value: V) -> Result<(), AllocError>
        ensures ok { OnOk result (self.new ≡ map.insert self.old key value) }
        ensures err { OnErr result (self.new ≡ self.old) }
    {
        self.tree.insert(key, value)?;
        Ok(())
    }

    /// Takes the value under a key out, if there is one.
    pub fn remove(&mut self, key: u32) -> Option<V>
        ensures taken { result ≡ map.get self.old key }
        ensures rest { self.new ≡ map.remove self.old key }
    {
        self.tree.remove(&key)
    }
}

impl<'a, V> IntoIterator for &'a NumberMap<V> {
    type Item = (&'a u32, &'a V);

    type IntoIter = Iter<'a, u32, V>;

    ghost into_iter_gives = { λ m r. (r ≡ map.entries m.now) × IsStrictlySortedBy nat_cmp (map.keys m.now) };

    fn into_iter(self) -> Iter<'a, u32, V> {
        self.iter()
    }
}

impl<V: Drop> IntoIterator for NumberMap<V> {
    type Item = (u32, V);

    type IntoIter = IntoIter<u32, V>;

    ghost into_iter_gives = { λ m r. r ≡ map.entries m };

    fn into_iter(self) -> IntoIter<u32, V> {
        let NumberMap { tree } = self;
        tree.into_iter()
    }
}

impl<V: Copies> Clone for NumberMap<V> {
    ghost is_clone = { λ s t. t ≡ s };

    fn clone(&self) -> Result<NumberMap<V>, AllocError> {
        let tree = self.tree.clone()?;
        Ok(NumberMap { tree })
    }
}

impl<V: Copies> Copies for NumberMap<V> {
    ghost copies = { λ x y h. h };
}
