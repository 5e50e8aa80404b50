//! Paths and their numbers.
ghost use Rattle.std.specs.Prelude.{◌≡◌, ◌≤◌, ◌<◌, ◌+◌, ◌∷◌, [], length, nat_eq, IfOk, option_copied};
ghost use Rattle.std.specs.List.{IsDistinct, slice_get};
ghost use Rattle.std.specs.Str.{bytes_eq};
ghost use Rattle.std.specs.FinMap as map;
ghost use Rattle.mt_revision.specs.Numberings.{extended, place_in, with_new};

use mt_path::{Path, PathList, PathMap};
use std::alloc::{AllocError, Global};
use std::marker::Model;

/// Paths that have numbers: the first has 0, and each next one the next number. Contracts see the list of the paths.
#[derive(Drop)]
pub struct Numbering {
    paths: PathList,
    numbers: PathMap<u32>,
}

impl Model for Numbering {
    ghost use Rattle.std.specs.Prelude.{List, ℕ, ◌<◌, length};
    ghost use Rattle.std.specs.List.{IsDistinct};
    ghost use Rattle.std.specs.Str.{bytes_eq};
    ghost use Rattle.mt_revision.specs.Numberings.{AreNumbers};

    ghost Value = { List (List ℕ) };

    ghost view = { λ n. n.paths };

    ghost invariant = { λ n. IsDistinct bytes_eq n.paths × AreNumbers n.paths n.numbers × (length n.paths < 4294967295) };
}

impl Numbering {
    /// A numbering of no paths. Takes no memory.
    pub fn new(alloc: Global) -> Numbering
        ensures empty { result ≡ [] }
    {
        Numbering {
            paths: PathList::new(alloc),
            numbers: PathMap::new(alloc),
        }
    }

    /// How many paths have a number. No path has two.
    pub fn len(&self) -> u32
        ensures len { result ≡ length self.now }
        ensures distinct { IsDistinct bytes_eq self.now }
    {
        self.paths.len() as u32
    }

    /// Whether no path has a number.
    pub fn is_empty(&self) -> bool
        ensures empty { result ≡ nat_eq (length self.now) 0 }
    {
        self.len() == 0
    }

    /// The number of a path, if it has one.
    pub fn number_of(&self, path: &Path) -> Option<u32>
        ensures number { result ≡ place_in self.now path.now }
        ensures distinct { IsDistinct bytes_eq self.now }
    {
        self.numbers.get(path).copied()
    }

    /// The path with a number, if there is one.
    pub fn path_of(&self, number: u32) -> Option<&Path>
        ensures path { option_copied result ≡ slice_get self.now number }
    {
        self.paths.get(number as usize)
    }

    /// This numbering, with a path after the others where it has no number yet.
    fn with_path(self, path: &Path) -> Result<Numbering, AllocError>
        requires few { length self < 4294967294 }
        ensures exact { IfOk result (λ numbering. numbering ≡ with_new self (path.now ∷ [])) }
    {
        if self.numbers.contains(path) {
            return Ok(self);
        }
        let Numbering {
            mut paths,
            mut numbers,
        } = self;
        numbers.insert(path.clone()?, paths.len() as u32)?;
        paths.push(path.clone()?)?;
        Ok(Numbering { paths, numbers })
    }

    /// This numbering, with those of other paths after it that have no number yet, in their order.
    fn with_paths(self, others: &[Path]) -> Result<Numbering, AllocError>
        requires few { length self + length others.now < 4294967295 }
        requires others { IsDistinct bytes_eq others.now }
        ensures exact { IfOk result (λ numbering. numbering ≡ with_new self others.now) }
        ensures few { IfOk result (λ numbering. length numbering ≤ length self + length others.now) }
    {
        let mut numbering = self;
        for path in others {
            numbering = numbering.with_path(path)?;
        }
        Ok(numbering)
    }

    /// This numbering, with those keys of a map after it that have no number yet, ascending.
    fn with_keys<V>(self, members: &PathMap<V>) -> Result<Numbering, AllocError>
        requires few { length self + map.len members.now < 4294967295 }
        ensures exact { IfOk result (λ numbering. numbering ≡ with_new self (map.keys members.now)) }
        ensures few { IfOk result (λ numbering. length numbering ≤ length self + map.len members.now) }
    {
        let mut numbering = self;
        for path in members.keys() {
            numbering = numbering.with_path(path)?;
        }
        Ok(numbering)
    }

    /// This numbering, in which each path keeps its number, with new paths after it: first the entries that have no
    /// number yet, in their order, and then the other members that have none, by path. The members are the keys of a
    /// map or a set. Refused only where memory runs out.
    pub fn extend<V>(&self, entries: &[Path], members: &PathMap<V>) -> Result<Numbering, AllocError>
        requires entries { IsDistinct bytes_eq entries.now }
        requires few { length self.now + length entries.now + map.len members.now < 4294967295 }
        ensures exact { IfOk result (λ numbering. numbering ≡ extended self.now entries.now (map.keys members.now)) }
    {
        let numbering = self.clone()?;
        let numbering = numbering.with_paths(entries)?;
        numbering.with_keys(members)
    }
}

impl Clone for Numbering {
    ghost is_clone = { λ s t. t ≡ s };

    fn clone(&self) -> Result<Numbering, AllocError> {
        Ok(Numbering {
            paths: self.paths.clone()?,
            numbers: self.numbers.clone()?,
        })
    }
}
