//! A snapshot of files.
ghost use Rattle.std.specs.Prelude.{◌≡◌, ◌↔◌, OnOk, OnErr, IfOk, IfSome, IsTrue, ◌≤◌, length, option_copied};
ghost use Rattle.std.specs.FinMap as map;
ghost use Rattle.mt_tokens.specs.Sources.{max_source_bytes};
ghost use Rattle.mt_files.specs.PathSets.{with_paths};
ghost use Rattle.mt_files.specs.Snapshots.{IsEntryOf, IsSnapshot, source_at};
ghost use Rattle.mt_files.specs.Changes.{IsChange, stepped};
ghost use Rattle.mt_files.specs.Rescans.{same_entry};

use crate::change::Change;
use mt_path::{Path, PathMap, PathSet};
use mt_tokens::{Bytes, Shared};
use std::alloc::{AllocError, Global};
use std::marker::Model;

/// What a snapshot keeps of a file.
#[derive(Drop)]
pub enum Entry {
    /// The bytes of a source.
    Source(Shared<Bytes>),
    /// Nothing, of a file that is no source.
    Other,
}

impl Entry {
    /// The same entry, which shares the bytes of a source.
    pub fn share(&self) -> Result<Entry, AllocError>
        ensures same { IfOk result (λ entry. entry ≡ self.now) }
    {
        match self {
            Entry::Source(bytes) => Ok(Entry::Source(bytes.clone()?)),
            Entry::Other => Ok(Entry::Other),
        }
    }

    /// Whether both entries are the same: sources of the same bytes, or no sources.
    pub fn is_same(&self, other: &Entry) -> bool
        ensures same { result ≡ same_entry self.now other.now }
    {
        match (self, other) {
            (Entry::Source(bytes), Entry::Source(others)) => bytes == others,
            (Entry::Other, Entry::Other) => true,
            _ => false,
        }
    }
}

/// The entries of files by their paths, which contracts see as a finite map from the paths' texts.
#[derive(Drop)]
pub struct FileMap {
    files: PathMap<Entry>,
}

impl Model for FileMap {
    ghost use Rattle.std.specs.FinMap as map;
    ghost use Rattle.std.specs.Coded.{coded_list, coded_ℕ};
    ghost use Rattle.mt_files.specs.contracts.file_map.Entry as entry;
    ghost use Rattle.mt_files.specs.Snapshots.{IsSnapshot, Snapshot};

    ghost Value = { Snapshot };

    ghost coded = { map.code (coded_list coded_ℕ) entry.the_row.coded };

    ghost view = { λ f. f.files };

    ghost invariant = { λ f. IsSnapshot f.files };
}

impl FileMap {
    /// A snapshot of no files.
    pub fn new(alloc: Global) -> FileMap
        ensures empty { result ≡ map.empty }
    {
        FileMap {
            files: PathMap::new(alloc),
        }
    }

    /// How many files there are.
    pub fn len(&self) -> usize
        ensures len { result ≡ map.len self.now }
    {
        self.files.len()
    }

    /// Whether there are no files.
    pub fn is_empty(&self) -> bool
        ensures empty { IsTrue result ↔ (map.len self.now ≡ 0) }
    {
        self.len() == 0
    }

    /// What is kept of a file, if it is there. A snapshot keeps the bytes of each source, and those alone.
    pub fn get(&self, path: &Path) -> Option<&Entry>
        ensures entry { option_copied result ≡ map.get self.now path.now }
        ensures snapshot { IsSnapshot self.now }
    {
        self.files.get(path)
    }

    /// The bytes of a source, if it is there.
    pub fn source(&self, path: &Path) -> Option<&Shared<Bytes>>
        ensures source { option_copied result ≡ source_at self.now path.now }
        ensures bound { IfSome (source_at self.now path.now) (λ bytes. length bytes ≤ max_source_bytes) }
    {
        match self.get(path) {
            Some(Entry::Source(bytes)) => Some(bytes),
            _ => None,
        }
    }

    /// Puts the paths of the files into a set.
    pub(crate) fn add_paths(&self, paths: &mut PathSet) -> Result<(), AllocError>
        ensures paths { OnOk result (paths.new ≡ with_paths paths.old (map.keys self.now)) }
    {
        for path in self.files.keys() {
            paths.insert(path.clone()?, ())?;
        }
        Ok(())
    }

    /// Keeps an entry for a file. After an `Err` the snapshot is as it was.
    pub(crate) fn insert(&mut self, path: Path, entry: Entry) -> Result<(), AllocError>
        requires { IsEntryOf path entry }
        ensures ok { OnOk result (self.new ≡ map.insert self.old path entry) }
        ensures err { OnErr result (self.new ≡ self.old) }
    {
        // The invariant asks what `as_str` says of the path.
        let _text = path.as_str();
        self.files.insert(path, entry)?;
        Ok(())
    }

    /// Takes a file out, if it is there.
    fn remove(&mut self, path: &Path)
        ensures removed { self.new ≡ map.remove self.old path.now }
    {
        self.files.remove(path);
    }

    /// Changes a file. Refused only where memory runs out; then the snapshot is as it was.
    pub fn apply(&mut self, change: &Change) -> Result<(), AllocError>
        requires change { IsChange change.now }
        ensures ok { OnOk result (self.new ≡ stepped self.old change.now) }
        ensures err { OnErr result (self.new ≡ self.old) }
    {
        match change {
            Change::Put(path, entry) => self.insert(path.clone()?, entry.share()?),
            Change::Del(path) => {
                self.remove(path);
                Ok(())
            }
        }
    }
}
