//! The run of `bundle`.
ghost use Rattle.std.specs.Prelude.{◌≤◌, false, Ok};
ghost use Rattle.std.specs.FinMap as map;
ghost use Rattle.mt_io.specs.Seen.{Seen};
ghost use Rattle.mt_io.specs.Told.{Reading};
ghost use Rattle.mt_files.specs.Crawl.{max_files};
ghost use Rattle.mt_revision.specs.Revisions.{bundle_of};
ghost use Rattle.metro_program.specs.Bundle.{bundle_plan};
ghost use Rattle.metro_program.specs.First.{built_plan, snapshot_plan};
ghost use Rattle.metro_program.specs.Lent.{lent};
ghost use Rattle.metro_program.specs.Owes.{HasCauses, Owes};
ghost use Rattle.metro_program.specs.Progress.{Fulfils, IsOwn, Keeps, OnlyWrites};

use crate::state::{NextBuild, first_build};
use mt_files::{FileMap, crawl};
use mt_fresh::Explorer;
use mt_io::{Folder, Sink};
use mt_report::Outcome;
use mt_request::BuildAsk;
use mt_revision::write_bundle;
use std::alloc::Global;

/// Writes the bundle of a build.
fn bundle_build<O: Sink>(build: &NextBuild, out: &mut O) -> Outcome
    ensures fulfils { Fulfils (built_plan bundle_of (Ok build.now)) result (O.seen out.old) (O.seen out.new) }
{
    match write_bundle(&build.revision, out) {
        Ok(()) => Outcome::Done,
        Err(_) => Outcome::WriteFailed,
    }
}

/// Writes the bundle of the first build of what an explorer finds of a snapshot.
fn bundle_files<X: Explorer, O: Sink>(
    alloc: Global,
    explorer: &mut X,
    ask: BuildAsk,
    files: FileMap,
    out: &mut O,
) -> Outcome
    requires few { map.len files ≤ max_files }
    ensures keeps { X.sure explorer.old → Keeps (snapshot_plan bundle_of ask files) result (O.seen out.old) (O.seen out.new) }
    ensures only { OnlyWrites result (O.seen out.old) (O.seen out.new) }
    ensures kept { X.sure explorer.old → X.sure explorer.new }
{
    match first_build(alloc, explorer, ask, files) {
        Ok(build) => bundle_build(&build, out),
        Err(fault) => Outcome::from(fault),
    }
}

/// Runs `bundle`: writes the bundle of what an explorer finds in the folder.
pub fn run_bundle<X: Explorer, F: Folder, O: Sink>(
    alloc: Global,
    explorer: &mut X,
    ask: BuildAsk,
    folder: &mut F,
    out: &mut O,
) -> Outcome
    ensures owes { X.sure explorer.old → (script : Seen Reading) → Owes (λ tree bytes. bundle_plan ask tree) false
        (lent (F.seen folder.old) script (O.seen out.old)) (lent (F.seen folder.new) script (O.seen out.new)) result }
    ensures causes { (script : Seen Reading) → HasCauses false
        (lent (F.seen folder.old) script (O.seen out.old)) (lent (F.seen folder.new) script (O.seen out.new)) result }
    ensures own { IsOwn result }
    ensures kept { X.sure explorer.old → X.sure explorer.new }
{
    match crawl(alloc, folder) {
        Ok(files) => bundle_files(alloc, explorer, ask, files, out),
        Err(fault) => Outcome::from(fault),
    }
}
