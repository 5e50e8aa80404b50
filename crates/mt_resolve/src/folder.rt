//! What a folder may mean.
ghost use Rattle.std.specs.Prelude.{◌≡◌, ◌∷◌, [], if◌then◌else◌, map as mapped, IfOk};
ghost use Rattle.std.specs.Option.{option_map_or};
ghost use Rattle.std.specs.FinMap as map;
ghost use Rattle.std.specs.Str.{bytes_eq};
ghost use Rattle.mt_path.specs.Join.{joined};
ghost use Rattle.mt_files.specs.Resolve.{entry_for, files_for, folder_for, main_for, package_at};
ghost use Rattle.mt_files.specs.Resolve.Candidate.{Package, Source};
ghost use Rattle.mt_resolve.specs.Searches.{AreRead, Ends, package_for};

use crate::packages::{PackageAnswer, PackageMap};
use crate::place::Place;
use crate::probes::{Log, RunList};
use mt_files::Target;
use mt_path::Path;
use std::alloc::{AllocError, Global};

/// What a search keeps: what package files say, and its log.
#[derive(Drop)]
pub(crate) struct Notes {
    pub(crate) packages: PackageMap,
    pub(crate) log: Log,
}

impl Notes {
    /// No notes yet; `keep` says whether the log is to keep its runs.
    pub(crate) fn new(alloc: Global, keep: bool) -> Notes
        ensures packages { result.packages ≡ map.empty }
        ensures keep { result.log.keep ≡ keep }
        ensures runs { result.log.runs ≡ [] }
    {
        Notes {
            packages: PackageMap::new(alloc),
            log: Log {
                keep,
                runs: RunList::new(alloc),
            },
        }
    }
}

impl Place<'_> {
    /// The first source among the files that a path may mean that isn't this folder.
    fn first_beside(
        &self,
        alloc: Global,
        log: &mut Log,
        folder: &Path,
        path: &Path,
    ) -> Result<Option<Target>, AllocError>
        ensures exact { IfOk result (λ found. Ends self.now.endings self.now.files.now log.old log.new found
            (mapped Source (if bytes_eq path.now folder.now then [] else files_for self.now.options.now path.now))) }
    {
        if path == folder {
            return Ok(None);
        }
        self.first_file(alloc, log, path)
    }

    /// The first source among the files that the entry of a package may mean.
    fn first_entry(
        &self,
        alloc: Global,
        log: &mut Log,
        folder: &Path,
        entry: &str,
    ) -> Result<Option<Target>, AllocError>
        ensures exact { IfOk result (λ found. Ends self.now.endings self.now.files.now log.old log.new found
            (mapped Source (option_map_or (entry_for self.now.options.now folder.now) (joined folder.now entry.now) []))) }
    {
        let Some(path) = Path::join(alloc, folder, entry)? else {
            return Ok(None);
        };
        if let Some(target) = self.first_beside(alloc, log, folder, &path)? {
            return Ok(Some(target));
        }
        self.first_index(alloc, log, &path)
    }

    /// What ends the search among this package file of a folder and the files that its entry may mean.
    fn first_main(
        &self,
        alloc: Global,
        notes: &mut Notes,
        folder: &Path,
        file: Path,
    ) -> Result<Option<Target>, AllocError>
        requires read { AreRead self.now.options.now self.now.files.now notes.old.packages }
        ensures exact { IfOk result (λ found. Ends self.now.endings self.now.files.now notes.old.log notes.new.log found
            (Package file ∷ mapped Source (main_for self.now.options.now folder.now (package_at self.now.files.now file)))) }
        ensures read { AreRead self.now.options.now self.now.files.now notes.new.packages }
    {
        notes.log.add_package(&file)?;
        self.read(alloc, &mut notes.packages, &file)?;
        match notes.packages.get(&file) {
            Some(PackageAnswer::Bad) => Ok(Some(Target::BadPackage(file))),
            Some(PackageAnswer::Main(Some(entry))) => {
                self.first_entry(alloc, &mut notes.log, folder, entry.as_str())
            }
            _ => Ok(None),
        }
    }

    /// What ends the search among the package file of a folder and the files that its entry may mean.
    fn first_package(
        &self,
        alloc: Global,
        notes: &mut Notes,
        folder: &Path,
    ) -> Result<Option<Target>, AllocError>
        requires read { AreRead self.now.options.now self.now.files.now notes.old.packages }
        ensures exact { IfOk result (λ found. Ends self.now.endings self.now.files.now notes.old.log notes.new.log found (package_for self.now.options.now self.now.files.now folder.now)) }
        ensures read { AreRead self.now.options.now self.now.files.now notes.new.packages }
    {
        match folder.child(alloc, "package.json")? {
            Some(file) => self.first_main(alloc, notes, folder, file),
            None => Ok(None),
        }
    }

    /// What ends the search among all that a folder may mean.
    pub(crate) fn first_in_folder(
        &self,
        alloc: Global,
        notes: &mut Notes,
        folder: &Path,
    ) -> Result<Option<Target>, AllocError>
        requires read { AreRead self.now.options.now self.now.files.now notes.old.packages }
        ensures exact { IfOk result (λ found. Ends self.now.endings self.now.files.now notes.old.log notes.new.log found (folder_for self.now.options.now self.now.files.now folder.now)) }
        ensures read { AreRead self.now.options.now self.now.files.now notes.new.packages }
    {
        if let Some(target) = self.first_package(alloc, notes, folder)? {
            return Ok(Some(target));
        }
        self.first_index(alloc, &mut notes.log, folder)
    }
}
