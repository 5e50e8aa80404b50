//! Where a replay is, and what changes and builds make of it.
ghost use Rattle.std.specs.Prelude.{◌≡◌, ◌≤◌, ◌⊎◌, None, Ok, Err, IfOk, IfErr, IsErrOf, length, option_copied};
ghost use Rattle.std.specs.FinMap as map;
ghost use Rattle.mt_io.specs.Files.{Files};
ghost use Rattle.mt_io.specs.Seen.{Looks, Tells};
ghost use Rattle.mt_files.specs.Changes.{IsChange};
ghost use Rattle.mt_files.specs.Crawl.{entry_of, max_files};
ghost use Rattle.mt_files.specs.Rescans.{rescanned};
ghost use Rattle.mt_files.specs.declared.change.Change.TheVariants as change;
ghost use Rattle.mt_tokens.specs.Sources.{max_source_bytes};
ghost use Rattle.mt_fresh.specs.JudgedGraphs.{IsGraphOf};
ghost use Rattle.mt_graph.specs.Graphs.{fresh_graph};
ghost use Rattle.metro_program.specs.Builds.{IsNext, fresh_build, next_build, same_number, with_build, with_refusal};
ghost use Rattle.metro_program.specs.Commands.{changed, changed_by, outcome_of, rescanned_by};
ghost use Rattle.metro_program.specs.States.{opened};
ghost use Rattle.metro_program.specs.Moves.{IsLimited, IsMove};

use crate::graph::build_graph;
use mt_files::{BuildFault, Change, ChangeList, Entry, FileMap, Journal, rescan};
use mt_fresh::{Explorer, revision_of_graph};
use mt_graph::Graph;
use mt_io::Folder;
use mt_path::Path;
use mt_report::Outcome;
use mt_request::BuildAsk;
use mt_revision::{Numbering, Revision};
use mt_tokens::{Bytes, Shared};
use std::alloc::{AllocError, Global};
use std::marker::Model;

/// What a build gives: the numbered paths, and its revision.
#[derive(Drop)]
pub struct NextBuild {
    pub numbering: Numbering,
    pub revision: Revision,
}

/// Where a replay is.
#[derive(Drop)]
pub struct ReplayState {
    /// What its builds are asked for.
    ask: BuildAsk,
    /// The files, once the accepted changes were made.
    files: FileMap,
    /// The accepted changes.
    journal: Journal,
    /// The paths that have numbers.
    numbering: Numbering,
    /// The latest revision, if a build was accepted.
    latest: Option<Revision>,
    /// Why the last build was refused, if it was.
    refusal: Option<BuildFault>,
}

impl Model for ReplayState {
    ghost use Rattle.metro_program.specs.StateCodes.{state_code};
    ghost use Rattle.metro_program.specs.States.{IsBounded, State};

    ghost Value = { State };

    ghost coded = { state_code };

    ghost view = { λ s. record { ask = s.ask; files = s.files; journal = s.journal; numbering = s.numbering; latest = s.latest; refusal = s.refusal } };

    ghost invariant = { λ s. IsBounded (record { ask = s.ask; files = s.files; journal = s.journal; numbering = s.numbering; latest = s.latest; refusal = s.refusal }) };
}

impl ReplayState {
    /// The state before the first build.
    pub fn new(alloc: Global, ask: BuildAsk, files: FileMap) -> ReplayState
        requires few { map.len files ≤ max_files }
        ensures opened { result ≡ opened ask files }
    {
        ReplayState {
            ask,
            files,
            journal: Journal::new(alloc),
            numbering: Numbering::new(alloc),
            latest: None,
            refusal: None,
        }
    }

    /// How many changes were accepted.
    pub fn changes(&self) -> usize
        ensures changes { result ≡ length self.now.journal }
    {
        self.journal.len()
    }

    /// How many paths have numbers.
    pub fn numbered(&self) -> u32
        ensures numbered { result ≡ length self.now.numbering }
    {
        self.numbering.len()
    }

    /// The latest revision, if a build was accepted.
    pub fn latest(&self) -> Option<&Revision>
        ensures latest { option_copied result ≡ self.now.latest }
    {
        self.latest.as_ref()
    }

    // ---- changes

    /// Accepts a change, if the journal has room.
    pub fn change(&mut self, change: Change) -> Result<(), Outcome>
        requires change { IsChange change }
        ensures exact { (result ≡ Err Outcome.NoMemory) ⊎ IsMove (changed self.old change) self.new result }
        ensures limited { IfErr result IsLimited }
    {
        self.journal.push(change)?;
        if let Some(change) = self.journal.as_slice().last() {
            self.files.apply(change)?;
        }
        Ok(())
    }

    /// Accepts changes one after another, as long as the journal has room.
    fn change_all(&mut self, changes: ChangeList) -> Result<(), Outcome>
        ensures exact { (result ≡ Err Outcome.NoMemory) ⊎ IsMove (changed_by self.old changes) self.new result }
        ensures limited { IfErr result IsLimited }
    {
        for change in changes.into_vec() {
            if let Err(outcome) = self.change(change) {
                return Err(outcome);
            }
        }
        Ok(())
    }

    /// Puts a file.
    pub fn put(&mut self, alloc: Global, path: Path, bytes: Bytes) -> Result<(), Outcome>
        requires size { length bytes ≤ max_source_bytes }
        ensures exact { (result ≡ Err Outcome.NoMemory) ⊎ IsMove (changed self.old (change.Put path (entry_of path bytes))) self.new result }
        ensures limited { IfErr result IsLimited }
    {
        match put_entry(alloc, &path, bytes) {
            Ok(entry) => self.change(Change::Put(path, entry)),
            Err(_) => Err(Outcome::NoMemory),
        }
    }

    /// Changes the files to what the folder has.
    pub fn rescan<F: Folder>(&mut self, alloc: Global, folder: &mut F) -> Result<(), Outcome>
        ensures exact { (tree : Files) → Tells (F.seen folder.old) tree
            → (result ≡ Err Outcome.NoMemory) ⊎ (result ≡ Err Outcome.ReadFailed)
            ⊎ IsMove (rescanned_by self.old (rescanned self.old.files tree)) self.new result }
        ensures limited { IfErr result (λ outcome. (outcome ≡ Outcome.ReadFailed) ⊎ IsLimited outcome) }
        ensures looks { Looks (F.seen folder.old) (F.seen folder.new) (IsErrOf result Outcome.ReadFailed) }
    {
        match rescan(alloc, folder, &self.files) {
            Ok(changes) => self.change_all(changes),
            Err(fault) => Err(Outcome::from(fault)),
        }
    }

    // ---- builds

    /// The number of the latest revision, if it counts all accepted changes.
    pub fn same_number(&self) -> Option<u32>
        ensures number { result ≡ same_number self.now }
    {
        match &self.latest {
            Some(latest) => {
                if latest.changes() as usize == self.journal.len() {
                    Some(latest.number())
                } else {
                    None
                }
            }
            None => None,
        }
    }

    /// The build of a graph of the files: numbers its paths, and makes the next revision of it.
    fn build_of(&self, alloc: Global, graph: Graph) -> Result<NextBuild, AllocError>
        requires graph { IsGraphOf self.now.ask self.now.files graph }
        requires new { same_number self.now ≡ None }
        ensures next { IfOk result (IsNext self.now) }
        ensures exact { fresh_graph self.now.ask self.now.files ≡ Ok graph → IfOk result (λ build. build ≡ next_build self.now) }
    {
        let changes = self.journal.len() as u32;
        let numbering = self.numbering.extend(self.ask.entries(), &graph)?;
        let revision = revision_of_graph(
            alloc,
            self.latest.as_ref(),
            self.ask.options(),
            changes,
            &numbering,
            self.ask.entries(),
            graph,
        )?;
        Ok(NextBuild {
            numbering,
            revision,
        })
    }

    /// The build of what an explorer finds of the files, or the first fault: of the files, where the explorer is sure.
    pub fn build<X: Explorer>(
        &self,
        alloc: Global,
        explorer: &mut X,
    ) -> Result<NextBuild, BuildFault>
        requires new { same_number self.now ≡ None }
        ensures exact { X.sure explorer.old → (result ≡ Err BuildFault.NoMemory) ⊎ (result ≡ fresh_build self.now) }
        ensures next { IfOk result (IsNext self.now) }
        ensures kept { X.sure explorer.old → X.sure explorer.new }
    {
        match build_graph(alloc, explorer, &self.ask, &self.files) {
            Ok(graph) => Ok(self.build_of(alloc, graph)?),
            Err(fault) => Err(fault),
        }
    }

    /// Keeps what a build gave.
    pub fn accept(&mut self, build: NextBuild)
        requires next { IsNext self.old build }
        requires new { same_number self.old ≡ None }
        ensures exact { self.new ≡ with_build self.old build }
    {
        let NextBuild {
            numbering,
            revision,
        } = build;
        self.numbering = numbering;
        self.latest = Some(revision);
        self.refusal = None;
    }

    /// Keeps why the last build was refused, if it was.
    pub fn refuse(&mut self, refusal: Option<BuildFault>)
        ensures exact { self.new ≡ with_refusal self.old refusal }
    {
        self.refusal = refusal;
    }

    /// How the run ends with `end`: as its last build did. Forgets why that was refused.
    pub fn end(&mut self) -> Outcome
        ensures exact { result ≡ outcome_of self.old }
    {
        match self.refusal.take() {
            Some(fault) => Outcome::Refused(fault),
            None => Outcome::Done,
        }
    }
}

/// The first build of what an explorer finds of a snapshot, or the first fault: of the snapshot, where the explorer is sure.
pub fn first_build<X: Explorer>(
    alloc: Global,
    explorer: &mut X,
    ask: BuildAsk,
    files: FileMap,
) -> Result<NextBuild, BuildFault>
    requires few { map.len files ≤ max_files }
    ensures exact { X.sure explorer.old → (result ≡ Err BuildFault.NoMemory) ⊎ (result ≡ fresh_build (opened ask files)) }
    ensures next { IfOk result (IsNext (opened ask files)) }
    ensures kept { X.sure explorer.old → X.sure explorer.new }
{
    let state = ReplayState::new(alloc, ask, files);
    state.build(alloc, explorer)
}

/// What is kept of a file of this path and these bytes.
fn put_entry(alloc: Global, path: &Path, bytes: Bytes) -> Result<Entry, AllocError>
    ensures entry { IfOk result (λ entry. entry ≡ entry_of path.now bytes) }
{
    if path.is_source() {
        Ok(Entry::Source(Shared::new(alloc, bytes)?))
    } else {
        Ok(Entry::Other)
    }
}
