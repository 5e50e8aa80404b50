//! Folders in memory.
ghost use Rattle.std.specs.Prelude.{⊤, ◌≡◌, Some, Err, IfOk, IsErrOf, OnOk, OnErr, true};
ghost use Rattle.std.specs.FinMap as map;
ghost use Rattle.mt_io.specs.Files.{IsChildrenOf, is_folder_in};
ghost use Rattle.mt_io.specs.Memory.{FollowsPlan, plan_of, seen_folder, seen_sure_folder};
ghost use Rattle.mt_io.specs.Seen.{Looks, Replaces};

use crate::fault_plan::FaultPlan;
use crate::files::{children_of, copy_in};
use crate::folder::{Folder, NamedList};
use crate::trouble::Trouble;
use mt_path::{Path, PathMap};
use mt_tokens::Bytes;
use std::alloc::Global;
use std::marker::Model;

/// A folder in memory, some of whose calls fail.
#[derive(Drop)]
pub struct MapFolder {
    files: PathMap<Bytes>,
    plan: FaultPlan,
}

impl Model for MapFolder {
    ghost use Rattle.mt_io.specs.Memory.{PlannedFolder, planned_folder_code};

    ghost Value = { PlannedFolder };

    ghost coded = { planned_folder_code };

    ghost view = { λ f. record { files = f.files; plan = f.plan } };
}

impl MapFolder {
    /// A folder with these files, whose calls `list`, `read` and `write` are counted together from 1:
    /// those whose numbers are in `failing` fail.
    pub fn new(files: PathMap<Bytes>, failing: Vec<u64>) -> MapFolder
        ensures files { result.files ≡ files }
        ensures plan { result.plan ≡ plan_of failing.items }
    {
        MapFolder {
            files,
            plan: FaultPlan::new(failing),
        }
    }

    /// The files.
    pub fn files(&self) -> &PathMap<Bytes>
        ensures files { result.now ≡ self.now.files }
    {
        &self.files
    }
}

impl Folder for MapFolder {
    ghost seen = { seen_folder };

    ghost lists = { λ _ _. ⊤ };

    ghost reads = { λ _ _. ⊤ };

    fn faults(&self) -> u64 {
        self.plan.faults()
    }

    fn list(&mut self, alloc: Global, folder: &Path) -> Result<NamedList, Trouble>
        requires there { is_folder_in self.old.files folder.now ≡ true }
        ensures listed { IfOk result (λ names. IsChildrenOf self.old.files folder.now names) }
        ensures same { self.new.files ≡ self.old.files }
        ensures looks { Looks (seen_folder self.old) (seen_folder self.new) (IsErrOf result Trouble.Failed) }
        ensures plan { FollowsPlan self.old.plan self.new.plan result }
    {
        self.plan.begin()?;
        Ok(children_of(alloc, &self.files, folder)?)
    }

    fn read(&mut self, alloc: Global, path: &Path) -> Result<Bytes, Trouble>
        requires there { map.contains_key self.old.files path.now ≡ true }
        ensures bytes { IfOk result (λ bytes. map.get self.old.files path.now ≡ Some bytes) }
        ensures same { self.new.files ≡ self.old.files }
        ensures looks { Looks (seen_folder self.old) (seen_folder self.new) (IsErrOf result Trouble.Failed) }
        ensures plan { FollowsPlan self.old.plan self.new.plan result }
    {
        self.plan.begin()?;
        Ok(self.files.get(path).unwrap().clone()?)
    }

    fn write(&mut self, alloc: Global, path: &Path, bytes: &[u8]) -> Result<(), Trouble>
        ensures replaces { Replaces (seen_folder self.old) (seen_folder self.new) path.now bytes.now result }
        ensures written { OnOk result (self.new.files ≡ map.insert self.old.files path.now bytes.now) }
        ensures same { OnErr result (self.new.files ≡ self.old.files) }
        ensures plan { FollowsPlan self.old.plan self.new.plan result }
    {
        self.plan.begin()?;
        copy_in(alloc, &mut self.files, path, bytes)?;
        Ok(())
    }
}

/// A folder in memory that never fails.
#[derive(Drop)]
pub struct SureFolder {
    table: PathMap<Bytes>,
}

impl Model for SureFolder {
    ghost use Rattle.std.specs.FinMap as map;
    ghost use Rattle.std.specs.Coded.{coded_ℕ, coded_list};
    ghost use Rattle.mt_io.specs.Files.{Files};

    ghost Value = { Files };

    ghost coded = { map.code (coded_list coded_ℕ) (coded_list coded_ℕ) };

    ghost view = { λ f. f.table };
}

impl SureFolder {
    /// A folder with these files.
    pub fn new(files: PathMap<Bytes>) -> SureFolder
        ensures files { result ≡ files }
    {
        SureFolder { table: files }
    }

    /// The files.
    pub fn files(&self) -> &PathMap<Bytes>
        ensures files { result.now ≡ self.now }
    {
        &self.table
    }
}

impl Folder for SureFolder {
    ghost seen = { seen_sure_folder };

    ghost lists = { λ _ _. ⊤ };

    ghost reads = { λ _ _. ⊤ };

    fn faults(&self) -> u64 {
        0
    }

    fn list(&mut self, alloc: Global, folder: &Path) -> Result<NamedList, Trouble>
        requires there { is_folder_in self.old folder.now ≡ true }
        ensures listed { IfOk result (λ names. IsChildrenOf self.old folder.now names) }
        ensures same { self.new ≡ self.old }
        ensures lacks { OnErr result (result ≡ Err Trouble.NoMemory) }
    {
        Ok(children_of(alloc, &self.table, folder)?)
    }

    fn read(&mut self, alloc: Global, path: &Path) -> Result<Bytes, Trouble>
        requires there { map.contains_key self.old path.now ≡ true }
        ensures bytes { IfOk result (λ bytes. map.get self.old path.now ≡ Some bytes) }
        ensures same { self.new ≡ self.old }
        ensures lacks { OnErr result (result ≡ Err Trouble.NoMemory) }
    {
        Ok(self.table.get(path).unwrap().clone()?)
    }

    fn write(&mut self, alloc: Global, path: &Path, bytes: &[u8]) -> Result<(), Trouble>
        ensures replaces { Replaces (seen_sure_folder self.old) (seen_sure_folder self.new) path.now bytes.now result }
        ensures written { OnOk result (self.new ≡ map.insert self.old path.now bytes.now) }
        ensures same { OnErr result (self.new ≡ self.old) }
        ensures lacks { OnErr result (result ≡ Err Trouble.NoMemory) }
    {
        copy_in(alloc, &mut self.table, path, bytes)?;
        Ok(())
    }
}
