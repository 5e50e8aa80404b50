//! Values by keys that have texts.
ghost use Rattle.std.specs.Prelude.{◌≡◌, ◌↔◌, ◌<◌, ◌^◌, List, ℕ, map as mapped, IfNone, IfSome, IsTrue, OnOk, OnErr, Some, is_some, option_copied, slice_get};
ghost use Rattle.std.specs.Option.{option_map};
ghost use Rattle.std.specs.Map.Iter.{ShowsInOrder, deref, deref_pair};
ghost use Rattle.std.specs.List.Sorted.{IsStrictlySortedBy};
ghost use Rattle.std.specs.Ordering.{nat_cmp};
ghost use Rattle.std.specs.Cmp.Lexicographic.{slice_cmp};
ghost use Rattle.std.specs.FinMap as map;
ghost use Rattle.mt_containers.specs.Texts.{with_texts};

use crate::Copies;
use std::alloc::{AllocError, Global};
use std::collections::BTreeMap;
use std::collections::btree_map::{IntoIter, Iter, Keys};
use std::marker::Model;

/// A key that has a text, by whose bytes it is ordered.
///
/// `texts` and `entries` are the texts of keys and entries by texts. A type that contracts see as its text gives
/// `own_texts` and `own_entries`, and they then compute away in each clause of a `KeyMap`.
pub trait TextKey: Ord {
    ghost text: { Self → List ℕ };

    ghost texts: { (ks : List Self) → (ts : List (List ℕ)) × (ts ≡ mapped text ks) };

    ghost entries: { (X : Type 0) → (es : List (Self × X)) → (ts : List (List ℕ × X)) × (ts ≡ with_texts text es) };

    ghost by_text: { (x y : Self) → Self.cmp x y ≡ slice_cmp nat_cmp (text x) (text y) };
}

/// Values by keys. Contracts see it as the finite map from the keys' texts to the values' views; with `()` as the value
/// it is a finite set.
#[derive(Drop)]
pub struct KeyMap<K: TextKey, V> {
    tree: BTreeMap<K, V>,
}

impl<K: TextKey, V> Model for KeyMap<K, V> {
    ghost use Rattle.std.specs.FinMap as map;
    ghost use Rattle.std.specs.Ordering.{nat_cmp};
    ghost use Rattle.std.specs.Cmp.Lexicographic.{slice_cmp};
    ghost use Rattle.std.specs.Coded.{coded_list, coded_ℕ};

    ghost Value = { map.FinMap (slice_cmp nat_cmp) V };

    ghost coded = { map.code (coded_list coded_ℕ) V.code };

    ghost view = { λ m. map.from_entries (K.entries V m.tree.entries).0 };
}

impl<K: TextKey, V> KeyMap<K, V> {
    /// Nothing. Takes no memory.
    pub fn new(alloc: Global) -> KeyMap<K, V>
        ensures empty { result ≡ map.empty }
    {
        KeyMap {
            tree: BTreeMap::new(alloc),
        }
    }

    /// How many values there are.
    pub fn len(&self) -> usize
        ensures len { result ≡ map.len self.now }
        ensures small { result < 2 ^ 63 }
    {
        self.tree.len()
    }

    /// Whether there are none.
    pub fn is_empty(&self) -> bool
        ensures empty { IsTrue result ↔ (map.len self.now ≡ 0) }
    {
        self.len() == 0
    }

    /// The value under a key.
    pub fn get(&self, key: &K) -> Option<&V>
        ensures found { option_copied result ≡ map.get self.now (K.text key.now) }
    {
        self.tree.get(key)
    }

    /// Whether there is a value under a key.
    pub fn contains(&self, key: &K) -> bool
        ensures has { result ≡ is_some (map.get self.now (K.text key.now)) }
    {
        self.get(key).is_some()
    }

    /// The keys with their values, ascending.
    pub fn iter(&self) -> Iter<'_, K, V>
        ensures rest { (K.entries V result).0 ≡ map.entries self.now }
        ensures runs { ShowsInOrder (deref_pair {K = K} {X = V}) }
        ensures sorted { IsStrictlySortedBy (slice_cmp nat_cmp) (map.keys self.now) }
    {
        self.tree.iter()
    }

    /// The keys, ascending.
    pub fn keys(&self) -> Keys<'_, K, V>
        ensures rest { (K.texts result).0 ≡ map.keys self.now }
        ensures runs { ShowsInOrder (deref {X = K}) }
        ensures sorted { IsStrictlySortedBy (slice_cmp nat_cmp) (map.keys self.now) }
    {
        self.tree.keys()
    }

    /// Takes out the value under the first key. Without values there is nothing to take.
    pub fn pop_first(&mut self) -> Option<(K, V)>
        ensures first { option_map (λ e. K.text e.0) result ≡ slice_get (map.keys self.old) 0 }
        ensures found { IfSome result (λ e. map.get self.old (K.text e.0) ≡ Some e.1) }
        ensures rest { IfSome result (λ e. self.new ≡ map.remove self.old (K.text e.0)) }
        ensures none { IfNone result (self.old ≡ map.empty) }
    {
        self.tree.pop_first()
    }
}

impl<K: TextKey + Drop, V: Drop> KeyMap<K, V> {
    /// Keeps a value under a key, in place of another one. Refused only where memory runs out, and the map is then as
    /// before.
    pub fn insert(&mut self, key: K, value: V) -> Result<(), AllocError>
        ensures ok { OnOk result (self.new ≡ map.insert self.old (K.text key) value) }
        ensures err { OnErr result (self.new ≡ self.old) }
    {
        self.tree.insert(key, value)?;
        Ok(())
    }

    /// Takes the value under a key out, if there is one.
    pub fn remove(&mut self, key: &K) -> Option<V>
        ensures taken { result ≡ map.get self.old (K.text key.now) }
        ensures rest { self.new ≡ map.remove self.old (K.text key.now) }
    {
        self.tree.remove(key)
    }
}

impl<'a, K: TextKey, V> IntoIterator for &'a KeyMap<K, V> {
    type Item = (&'a K, &'a V);

    type IntoIter = Iter<'a, K, V>;

    ghost into_iter_gives = { λ m r. ((K.entries V r).0 ≡ map.entries m.now) × IsStrictlySortedBy (slice_cmp nat_cmp) (map.keys m.now) };

    fn into_iter(self) -> Iter<'a, K, V> {
        self.iter()
    }
}

impl<K: TextKey + Drop, V: Drop> IntoIterator for KeyMap<K, V> {
    type Item = (K, V);

    type IntoIter = IntoIter<K, V>;

    ghost into_iter_gives = { λ m r. (K.entries V r).0 ≡ map.entries m };

    fn into_iter(self) -> IntoIter<K, V> {
        let KeyMap { tree } = self;
        tree.into_iter()
    }
}

impl<K: TextKey + Copies, V: Copies> Clone for KeyMap<K, V> {
    ghost is_clone = { λ s t. t ≡ s };

    fn clone(&self) -> Result<KeyMap<K, V>, AllocError> {
        let tree = self.tree.clone()?;
        Ok(KeyMap { tree })
    }
}

impl<K: TextKey + Copies, V: Copies> Copies for KeyMap<K, V> {
    ghost copies = { λ x y h. h };
}
