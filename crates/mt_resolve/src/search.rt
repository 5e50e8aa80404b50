//! The search for what a name leads to.
ghost use Rattle.std.specs.Prelude.{◌≡◌, ◌||◌, [], true, false, if◌then◌else◌, codes, is_some, map as mapped, IfOk, OnOk};
ghost use Rattle.std.specs.FinMap as map;
ghost use Rattle.std.specs.List.{AllByRecursion};
ghost use Rattle.std.specs.Option.{option_map_or};
ghost use Rattle.std.specs.Str.{bytes_eq};
ghost use Rattle.mt_path.specs.Join.{joined};
ghost use Rattle.mt_path.specs.Names.{is_root, name_of};
ghost use Rattle.mt_files.specs.Resolve.{candidates, files_for, is_relative, last_part, names_something, path_for};
ghost use Rattle.mt_files.specs.Resolve.Candidate.{Source};
ghost use Rattle.mt_resolve.specs.Known.{AreKnown, LeadsTo};
ghost use Rattle.mt_resolve.specs.Searches.{AreRead, Ends, IsLogged, held_by, is_bare};

use crate::answers::{AnswerMap, known_answer};
use crate::folder::Notes;
use crate::place::Place;
use crate::probes::Log;
use mt_containers::{Shared, Text};
use mt_files::Target;
use mt_path::{Path, PathList};
use std::alloc::{AllocError, Global};

/// The last of a name's parts between `/`.
fn last_part_of(name: &str) -> &str
    ensures part { result.now ≡ last_part name.now }
{
    match name.rsplit_once('/') {
        Some((_, last)) => last,
        None => name,
    }
}

/// Whether a part of a name is neither empty nor `.` nor `..`.
fn is_something(part: &[u8]) -> bool
    ensures exact { result ≡ names_something part.now }
{
    !part.is_empty() && part != b".".as_slice() && part != b"..".as_slice()
}

/// Whether a name is `.` or `..`, or begins with `./` or `../`.
fn is_relative_name(name: &str) -> bool
    ensures exact { result ≡ is_relative name.now }
{
    name == "." || name == ".." || name.starts_with("./") || name.starts_with("../")
}

/// Whether a name is kept beside modules: it is neither empty nor relative, and doesn't begin with `/`.
fn is_bare_name(name: &str) -> bool
    ensures exact { result ≡ is_bare name.now }
{
    !name.is_empty() && !name.starts_with('/') && !is_relative_name(name)
}

/// Whether a search upwards ends at a folder.
fn is_end(found: &Option<Target>, folder: &Path) -> bool
    ensures exact { result ≡ (is_some found.now || is_root folder.now) }
{
    found.is_some() || folder.is_root()
}

/// Where a name leads, and from which folders that was not known.
#[derive(Drop)]
pub(crate) struct Answer {
    pub(crate) target: Shared<Target>,
    pub(crate) passed: PathList,
}

/// Whether a folder is named `node_modules`.
fn is_modules(folder: &Path) -> bool
    ensures exact { result ≡ bytes_eq (name_of folder.now) (codes "node_modules") }
{
    matches!(folder.name(), Some("node_modules"))
}

impl Place<'_> {
    /// The first source among the files that a path may mean, where the name that leads to it names something.
    fn first_named(
        &self,
        alloc: Global,
        log: &mut Log,
        name: &str,
        path: &Path,
    ) -> Result<Option<Target>, AllocError>
        ensures exact { IfOk result (λ found. Ends self.now.endings self.now.files.now log.old log.new found
            (if names_something (last_part name.now) then mapped Source (files_for self.now.options.now path.now) else [])) }
    {
        if !is_something(last_part_of(name).as_bytes()) {
            return Ok(None);
        }
        self.first_file(alloc, log, path)
    }

    /// What ends the search among all that a path may mean that a name leads to.
    fn first_at_path(
        &self,
        alloc: Global,
        notes: &mut Notes,
        name: &str,
        path: &Path,
    ) -> Result<Option<Target>, AllocError>
        requires read { AreRead self.now.options.now self.now.files.now notes.old.packages }
        ensures exact { IfOk result (λ found. Ends self.now.endings self.now.files.now notes.old.log notes.new.log found (path_for self.now.options.now self.now.files.now name.now path.now)) }
        ensures read { AreRead self.now.options.now self.now.files.now notes.new.packages }
    {
        if let Some(target) = self.first_named(alloc, &mut notes.log, name, path)? {
            return Ok(Some(target));
        }
        self.first_in_folder(alloc, notes, path)
    }

    /// What ends the search among all that a name may mean from a folder, where it is joined to it.
    fn first_joined(
        &self,
        alloc: Global,
        notes: &mut Notes,
        name: &str,
        folder: &Path,
    ) -> Result<Option<Target>, AllocError>
        requires read { AreRead self.now.options.now self.now.files.now notes.old.packages }
        ensures exact { IfOk result (λ found. Ends self.now.endings self.now.files.now notes.old.log notes.new.log found
            (option_map_or (path_for self.now.options.now self.now.files.now name.now) (joined folder.now name.now) [])) }
        ensures read { AreRead self.now.options.now self.now.files.now notes.new.packages }
    {
        match Path::join(alloc, folder, name)? {
            Some(path) => self.first_at_path(alloc, notes, name, &path),
            None => Ok(None),
        }
    }

    /// What ends the search among all that a name may mean that is kept beside the modules of a folder.
    fn first_held(
        &self,
        alloc: Global,
        notes: &mut Notes,
        name: &str,
        folder: &Path,
    ) -> Result<Option<Target>, AllocError>
        requires read { AreRead self.now.options.now self.now.files.now notes.old.packages }
        ensures exact { IfOk result (λ found. Ends self.now.endings self.now.files.now notes.old.log notes.new.log found (held_by self.now.options.now self.now.files.now name.now folder.now)) }
        ensures read { AreRead self.now.options.now self.now.files.now notes.new.packages }
    {
        if is_modules(folder) {
            return Ok(None);
        }
        match folder.child(alloc, "node_modules")? {
            Some(modules) => self.first_joined(alloc, notes, name, &modules),
            None => Ok(None),
        }
    }

    /// What ends the search among all that a name may lead to from a folder, where it isn't kept beside modules.
    fn first_direct(
        &self,
        alloc: Global,
        notes: &mut Notes,
        name: &str,
        folder: &Path,
    ) -> Result<Option<Target>, AllocError>
        requires read { AreRead self.now.options.now self.now.files.now notes.old.packages }
        requires direct { is_bare name.now ≡ false }
        ensures exact { IfOk result (λ found. Ends self.now.endings self.now.files.now notes.old.log notes.new.log found (candidates self.now.options.now self.now.files.now folder.now name.now)) }
        ensures read { AreRead self.now.options.now self.now.files.now notes.new.packages }
    {
        if name.is_empty() {
            return Ok(None);
        }
        if name.starts_with('/') {
            let root = Path::root(alloc)?;
            return self.first_joined(alloc, notes, name, &root);
        }
        self.first_joined(alloc, notes, name, folder)
    }

    /// Where a name leads from a folder, if it is kept beside modules: what is known of it from a folder above ends the search.
    fn bare_answer(
        &self,
        alloc: Global,
        notes: &mut Notes,
        answers: &AnswerMap,
        name: &Text,
        folder: &Path,
    ) -> Result<Answer, AllocError>
        requires read { AreRead self.now.options.now self.now.files.now notes.old.packages }
        requires known { AreKnown self.now.options.now self.now.files.now answers.now }
        requires bare { is_bare name.now ≡ true }
        ensures target { IfOk result (λ answer. LeadsTo self.now.options.now self.now.files.now name.now answer.target folder.now) }
        ensures passed { IfOk result (λ answer. AllByRecursion (LeadsTo self.now.options.now self.now.files.now name.now answer.target) answer.passed) }
        ensures probes { answers.now ≡ map.empty
            → OnOk result (IsLogged self.now.endings self.now.files.now notes.old.log notes.new.log (candidates self.now.options.now self.now.files.now folder.now name.now)) }
        ensures read { AreRead self.now.options.now self.now.files.now notes.new.packages }
    {
        let mut at = folder.clone()?;
        let mut passed = PathList::new(alloc);
        'up: loop {
            if let Some(target) = known_answer(answers, &at, name) {
                let target = target.clone()?;
                return Ok(Answer { target, passed });
            }
            let found = self.first_held(alloc, notes, name.as_str(), &at)?;
            passed.push(at.clone()?)?;
            if is_end(&found, &at) {
                let target = Shared::new(alloc, found.unwrap_or(Target::None))?;
                return Ok(Answer { target, passed });
            }
            at = at.parent(alloc)?;
        }
    }

    /// Where a name leads from a folder, of which nothing is known.
    pub(crate) fn answer(
        &self,
        alloc: Global,
        notes: &mut Notes,
        answers: &AnswerMap,
        name: &Text,
        folder: &Path,
    ) -> Result<Answer, AllocError>
        requires read { AreRead self.now.options.now self.now.files.now notes.old.packages }
        requires known { AreKnown self.now.options.now self.now.files.now answers.now }
        ensures target { IfOk result (λ answer. LeadsTo self.now.options.now self.now.files.now name.now answer.target folder.now) }
        ensures passed { IfOk result (λ answer. AllByRecursion (LeadsTo self.now.options.now self.now.files.now name.now answer.target) answer.passed) }
        ensures probes { answers.now ≡ map.empty
            → OnOk result (IsLogged self.now.endings self.now.files.now notes.old.log notes.new.log (candidates self.now.options.now self.now.files.now folder.now name.now)) }
        ensures read { AreRead self.now.options.now self.now.files.now notes.new.packages }
    {
        if is_bare_name(name.as_str()) {
            return self.bare_answer(alloc, notes, answers, name, folder);
        }
        let found = self.first_direct(alloc, notes, name.as_str(), folder)?;
        let target = Shared::new(alloc, found.unwrap_or(Target::None))?;
        let mut passed = PathList::new(alloc);
        passed.push(folder.clone()?)?;
        Ok(Answer { target, passed })
    }
}
