//! The entries of a trie, one after another.
ghost use Rattle.std.specs.Prelude.{◌≡◌, ℕ};
ghost use Rattle.std.specs.List.Sorted.{IsStrictlySortedBy};
ghost use Rattle.std.specs.Ordering.{nat_cmp};
ghost use Rattle.std.specs.Iterator.{YieldsFirstBy, item_count};
ghost use Rattle.std.specs.FinMap as map;
ghost use Rattle.mt_trie.specs.Tries.{shown};

use crate::SharedTrie;
use mt_containers::Shared;
use std::marker::Model;

/// The entries of a trie that are left, by ascending key. Contracts see it as the list of them.
#[derive(Drop)]
pub struct TrieIter<'a, V> {
    trie: &'a SharedTrie<V>,
    key: u32,
}

impl<'a, V> Model for TrieIter<'a, V> {
    ghost use Rattle.std.specs.Prelude.{List, ℕ};
    ghost use Rattle.std.specs.Coded.{coded_list, coded×, coded_ℕ};
    ghost use Rattle.mt_trie.specs.Tries.{entries_from};

    ghost Value = { List (ℕ × V) };

    ghost coded = { coded_list (coded× coded_ℕ V.code) };

    ghost view = { λ i. entries_from i.key i.trie.now };
}

impl<'a, V> TrieIter<'a, V> {
    /// The entries of a trie.
    pub(crate) fn new(trie: &'a SharedTrie<V>) -> TrieIter<'a, V>
        ensures all { result ≡ map.entries trie.now }
    {
        TrieIter { trie, key: 0 }
    }
}

impl<'a, V> Iterator for TrieIter<'a, V> {
    type Item = (u32, &'a Shared<V>);

    ghost next_gives = { YieldsFirstBy shown (λ entries. entries) };

    ghost remaining = { item_count (λ entries. entries) };

    fn next(&mut self) -> Option<(u32, &'a Shared<V>)> {
        let (key, value) = self.trie.first_from(self.key)?;
        self.key = key + 1;
        Some((key, value))
    }
}

impl<'a, V> IntoIterator for &'a SharedTrie<V> {
    type Item = (u32, &'a Shared<V>);

    type IntoIter = TrieIter<'a, V>;

    ghost into_iter_gives = { λ trie entries. (entries ≡ map.entries trie.now) × IsStrictlySortedBy nat_cmp (map.keys trie.now) };

    fn into_iter(self) -> TrieIter<'a, V> {
        self.iter()
    }
}
