//! Changes of files.
ghost use Rattle.std.specs.Prelude.{◌≡◌, ◌↔◌, [], ◌∷◌, ◌++◌, length, IsTrue, OnOk, OnErr};
ghost use Rattle.std.specs.List.{All};
ghost use Rattle.mt_files.specs.Changes.{IsChange, path_of};
ghost use Rattle.mt_files.specs.Journals.{bytes_of};

use crate::file_map::Entry;
use mt_path::Path;
use std::alloc::{AllocError, Global};
use std::marker::Model;

/// A change of one file. It says nothing of any other file.
#[derive(Drop)]
pub enum Change {
    /// The file at the path is this from now on, whether it was there or not.
    Put(Path, Entry),
    /// No file is at the path from now on.
    Del(Path),
}

impl Change {
    /// The path of the file that is changed.
    pub fn path(&self) -> &Path
        ensures path { result.now ≡ path_of self.now }
    {
        match self {
            Change::Put(path, _) => path,
            Change::Del(path) => path,
        }
    }

    /// How many bytes the source has that is put: 0 where no source is put.
    pub fn source_len(&self) -> usize
        ensures bytes { result ≡ bytes_of self.now }
    {
        match self {
            Change::Put(_, Entry::Source(bytes)) => bytes.len(),
            _ => 0,
        }
    }
}

/// Changes in an order, which contracts see as a list.
#[derive(Drop)]
pub struct ChangeList {
    items: Vec<Change>,
}

impl Model for ChangeList {
    ghost use Rattle.std.specs.Prelude.{List};
    ghost use Rattle.std.specs.List.{All};
    ghost use Rattle.mt_files.specs.declared.change.Change.{Change};

    ghost Value = { List Change };

    ghost use Rattle.mt_files.specs.Changes.{IsChange};

    ghost view = { λ l. l.items.items };

    ghost invariant = { λ l. All IsChange l.items.items };
}

impl ChangeList {
    /// No changes. Takes no memory.
    pub fn new(alloc: Global) -> ChangeList
        ensures empty { result ≡ [] }
    {
        ChangeList {
            items: Vec::new(alloc),
        }
    }

    /// Adds a change at the end. Refused only where memory runs out; then the list is as it was.
    pub fn push(&mut self, change: Change) -> Result<(), AllocError>
        requires change { IsChange change }
        ensures ok { OnOk result (self.new ≡ self.old ++ change ∷ []) }
        ensures err { OnErr result (self.new ≡ self.old) }
    {
        self.items.push(change)?;
        Ok(())
    }

    /// How many changes there are.
    pub fn len(&self) -> usize
        ensures len { result ≡ length self.now }
    {
        self.items.len()
    }

    /// Whether there are no changes.
    pub fn is_empty(&self) -> bool
        ensures empty { IsTrue result ↔ (self.now ≡ []) }
    {
        self.items.is_empty()
    }

    /// The changes in their order.
    pub fn as_slice(&self) -> &[Change]
        ensures items { result.now ≡ self.now }
        ensures changes { All IsChange self.now }
    {
        self.items.as_slice()
    }

    /// The vector that holds the changes, so that they can be taken out one by one.
    pub fn into_vec(self) -> Vec<Change>
        ensures items { result.items ≡ self }
        ensures changes { All IsChange self }
    {
        let ChangeList { items } = self;
        items
    }
}
