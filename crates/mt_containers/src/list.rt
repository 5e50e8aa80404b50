//! Values in a row.
ghost use Rattle.std.specs.Prelude.{◌≡◌, ◌↔◌, [], ◌∷◌, ◌++◌, ◌-◌, ◌<◌, ◌^◌, length, IfOk, IsTrue, OnOk, OnErr, slice_get, option_copied, MatchOption};
ghost use Rattle.std.specs.Slice.Iter.{iter_rest, iter_steps};
ghost use Rattle.std.specs.Cmp.Lexicographic.{pointwise, lists_per};
ghost use Rattle.std.specs.Iterator.Runs.{EveryRun, ItemsAre, ItemsMapTo};
ghost use Rattle.std.specs.declared.alloc.Global.{Global as Heap};
ghost use Rattle.std.specs.Vec.Iter.{into_iter_items, into_iter_steps};
ghost use Rattle.std.specs.Iterator.Adapters.{IterYieldsInOrder};

use crate::Copies;
use std::alloc::{AllocError, Global};
use std::marker::Model;
use std::slice::Iter;
use std::vec::IntoIter;

/// A list of values. Contracts see it as the list of their views.
#[derive(Debug, Drop)]
pub struct List<T> {
    items: Vec<T>,
}

impl<T> Model for List<T> {
    ghost use Rattle.std.specs.Prelude.{List as Row};
    ghost use Rattle.std.specs.Coded.{coded_list};

    ghost Value = { Row T };

    ghost coded = { coded_list T.code };

    ghost view = { λ l. l.items.items };
}

impl<T> List<T> {
    /// No values. Takes no memory.
    pub fn new(alloc: Global) -> List<T>
        ensures empty { result ≡ [] }
    {
        List {
            items: Vec::new(alloc),
        }
    }

    /// The list of `items`, whose memory it keeps.
    pub fn from_vec(items: Vec<T>) -> List<T>
        ensures items { result ≡ items.items }
    {
        List { items }
    }

    /// The vector that holds the values.
    pub fn into_vec(self) -> Vec<T>
        ensures items { result.items ≡ self }
    {
        let List { items } = self;
        items
    }

    /// The number of the values.
    pub fn len(&self) -> usize
        ensures count { result ≡ length self.now }
    {
        self.items.len()
    }

    /// Whether there is no value.
    pub fn is_empty(&self) -> bool
        ensures empty { IsTrue result ↔ (self.now ≡ []) }
    {
        self.items.is_empty()
    }

    /// The value at the number `at`, counted from 0; `None` from the length on.
    pub fn get(&self, at: usize) -> Option<&T>
        ensures item { option_copied result ≡ slice_get self.now at }
    {
        self.items.get(at)
    }

    /// The last value, if there is one.
    pub fn last(&self) -> Option<&T>
        ensures last { option_copied result ≡ slice_get self.now (length self.now - 1) }
    {
        self.items.last()
    }

    /// The values as a slice.
    pub fn as_slice(&self) -> &[T]
        ensures items { result.now ≡ self.now }
    {
        self.items.as_slice()
    }

    /// The values from the first on.
    pub fn iter(&self) -> Iter<'_, T>
        ensures rest { iter_rest result ≡ self.now }
        ensures runs { IterYieldsInOrder T }
    {
        self.items.as_slice().iter()
    }

    /// The last value, taken off the list.
    pub fn pop(&mut self) -> Option<T>
        ensures last { MatchOption result ((self.old ≡ []) × (self.new ≡ [])) (λ last. self.old ≡ self.new ++ last ∷ []) }
    {
        self.items.pop()
    }

    /// Moves the other values to the end. Refused only where memory runs out.
    pub fn append(&mut self, other: List<T>) -> Result<(), AllocError>
    where
        T: Drop,
        ensures ok { OnOk result (self.new ≡ self.old ++ other) }
        ensures err { OnErr result (self.new ≡ self.old) }
    {
        let List { mut items } = other;
        self.items.append(&mut items)
    }
}

impl<T: Drop> List<T> {
    /// Adds a value at the end. Refused only where memory runs out, and the list is then as before.
    pub fn push(&mut self, item: T) -> Result<(), AllocError>
        ensures ok { OnOk result (self.new ≡ self.old ++ item ∷ []) }
        ensures err { OnErr result (self.new ≡ self.old) }
    {
        self.items.push(item)?;
        Ok(())
    }
}

impl<T: Copies> List<T> {
    /// A copy of these values. Refused only where memory runs out.
    pub fn from_slice(alloc: Global, items: &[T]) -> Result<List<T>, AllocError>
        ensures items { IfOk result (λ list. list ≡ items.now) }
    {
        let items = items.to_vec(alloc)?;
        Ok(List { items })
    }
}

impl<T: Copies> Clone for List<T> {
    ghost is_clone = { λ s t. t ≡ s };

    fn clone(&self) -> Result<List<T>, AllocError> {
        let items = self.items.clone()?;
        Ok(List { items })
    }
}

impl<T: Copies> Copies for List<T> {
    ghost copies = { λ x y h. h };
}

impl<'a, T> IntoIterator for &'a List<T> {
    type Item = &'a T;

    type IntoIter = Iter<'a, T>;

    ghost into_iter_gives = { λ l r. (iter_rest r ≡ l.now) × (length (iter_rest r) < 2 ^ 64) × EveryRun (iter_steps {A = T}) (λ p. ItemsMapTo p (λ y. y.now) (iter_rest p.from)) };

    fn into_iter(self) -> Iter<'a, T> {
        self.items.as_slice().iter()
    }
}

impl<T: Drop> IntoIterator for List<T> {
    type Item = T;

    type IntoIter = IntoIter<T>;

    ghost into_iter_gives = { λ l r. (into_iter_items r ≡ l) × (length (into_iter_items r) < 2 ^ 64) × EveryRun (into_iter_steps {X = T} {Z = Heap}) (λ p. ItemsAre p (into_iter_items p.from)) };

    fn into_iter(self) -> IntoIter<T> {
        let List { items } = self;
        items.into_iter()
    }
}

impl<T: PartialEq> PartialEq for List<T> {
    ghost eq = { pointwise T.eq };

    ghost laws = { lists_per T.laws };

    fn eq(&self, other: &List<T>) -> bool {
        self.items.as_slice() == other.items.as_slice()
    }
}
