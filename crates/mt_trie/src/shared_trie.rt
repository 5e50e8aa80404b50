//! The trie.
ghost use Rattle.std.specs.Prelude.{◌≡◌, ℕ, ◌+◌, ◌↔◌, ◌<◌, ◌≤◌, IfOk, IsTrue, [], ◌∷◌, cond, option_copied, MatchOption};
ghost use Rattle.std.specs.List.Sorted.{IsStrictlySortedBy};
ghost use Rattle.std.specs.Option.{IfSome};
ghost use Rattle.std.specs.Ordering.{nat_cmp};
ghost use Rattle.std.specs.FinMap as map;
ghost use Rattle.mt_trie.specs.Tries.{entries_from};

use crate::TrieIter;
use crate::rows::{KEYS, Rows, gap_end, value, with_value};
use mt_containers::{Copies, Shared};
use std::alloc::{AllocError, Global};
use std::marker::Model;

/// Shared values by numbers below 1,048,576. Contracts see it as the finite map to the values. A change makes a new trie,
/// which shares with the old one all that is the same.
#[derive(Drop)]
pub struct SharedTrie<V> {
    root: Option<Shared<Rows<V>>>,
    count: u32,
}

impl<V> Model for SharedTrie<V> {
    ghost use Rattle.std.specs.FinMap as map;
    ghost use Rattle.std.specs.Ordering.{nat_cmp};
    ghost use Rattle.std.specs.Coded.{coded_ℕ};
    ghost use Rattle.std.specs.Prelude.{◌≡◌};
    ghost use Rattle.mt_trie.specs.Tries.{map_of};

    ghost Value = { map.FinMap nat_cmp V };

    ghost coded = { map.code coded_ℕ V.code };

    ghost view = { λ t. map_of t.root };

    ghost invariant = { λ t. t.count ≡ map.len (map_of t.root) };
}

impl<V> SharedTrie<V> {
    /// Nothing. Takes no memory.
    pub fn new() -> SharedTrie<V>
        ensures empty { result ≡ map.empty }
    {
        SharedTrie {
            root: None,
            count: 0,
        }
    }

    /// The number of the values.
    pub fn len(&self) -> u32
        ensures len { result ≡ map.len self.now }
        ensures small { result ≤ 1048576 }
    {
        self.count
    }

    /// Whether there is no value.
    pub fn is_empty(&self) -> bool
        ensures empty { IsTrue result ↔ (map.len self.now ≡ 0) }
    {
        self.count == 0
    }

    /// The value under a key; `None` from 1,048,576 on. Takes no memory.
    pub fn get(&self, key: u32) -> Option<&Shared<V>>
        ensures found { option_copied result ≡ map.get self.now key }
    {
        if key < KEYS {
            value(self.root.as_ref(), key)
        } else {
            None
        }
    }

    /// The keys with their values, ascending.
    pub fn iter(&self) -> TrieIter<'_, V>
        ensures rest { result ≡ map.entries self.now }
        ensures sorted { IsStrictlySortedBy nat_cmp (map.keys self.now) }
    {
        TrieIter::new(self)
    }

    /// How many values there are once there is one under a key.
    fn len_with(&self, key: u32) -> u32
        ensures len { result ≡ cond (map.contains_key self.now key) (map.len self.now) (map.len self.now + 1) }
    {
        if self.get(key).is_some() {
            self.count
        } else {
            self.count + 1
        }
    }

    /// The first entry from a key on.
    pub(crate) fn first_from(&self, key: u32) -> Option<(u32, &Shared<V>)>
        ensures first { MatchOption result (entries_from key self.now ≡ []) (λ e. entries_from key self.now ≡ (e.0, e.1.now) ∷ entries_from (e.0 + 1) self.now) }
        ensures key { IfSome result (λ e. e.0 < 1048576) }
    {
        let mut at = key;
        while at < KEYS {
            if let Some(value) = value(self.root.as_ref(), at) {
                return Some((at, value));
            }
            at = gap_end(self.root.as_ref(), at);
        }
        None
    }
}

impl<V: Drop> SharedTrie<V> {
    /// The trie with a value under a key, in place of another one. This trie stays as it is. Refused only where memory runs
    /// out.
    pub fn with(
        &self,
        alloc: Global,
        key: u32,
        value: Shared<V>,
    ) -> Result<SharedTrie<V>, AllocError>
        requires key { key < 1048576 }
        ensures with { IfOk result (λ trie. trie ≡ map.insert self.now key value) }
    {
        let count = self.len_with(key);
        let root = with_value(alloc, self.root.as_ref(), key, Some(value))?;
        Ok(SharedTrie { root, count })
    }

    /// The trie without the value under a key; the same trie where there is none. This trie stays as it is. Refused only
    /// where memory runs out.
    pub fn without(&self, alloc: Global, key: u32) -> Result<SharedTrie<V>, AllocError>
        ensures without { IfOk result (λ trie. trie ≡ map.remove self.now key) }
    {
        if self.get(key).is_none() {
            return self.clone();
        }
        let root = with_value(alloc, self.root.as_ref(), key, None)?;
        let count = self.count - 1;
        Ok(SharedTrie { root, count })
    }
}

/// One more owner of the same rows. Takes no memory.
impl<V: Drop> Clone for SharedTrie<V> {
    ghost is_clone = { λ s t. t ≡ s };

    fn clone(&self) -> Result<SharedTrie<V>, AllocError> {
        let root = self.root.clone()?;
        Ok(SharedTrie {
            root,
            count: self.count,
        })
    }
}

impl<V: Drop> Copies for SharedTrie<V> {
    ghost copies = { λ x y h. h };
}
