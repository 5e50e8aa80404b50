//! The run of `deps`.
ghost use Rattle.std.specs.Prelude.{◌≤◌, false, Ok};
ghost use Rattle.std.specs.FinMap as map;
ghost use Rattle.mt_io.specs.Seen.{Seen};
ghost use Rattle.mt_io.specs.Told.{Reading};
ghost use Rattle.mt_files.specs.Crawl.{max_files};
ghost use Rattle.mt_report.specs.Listings.{graph_lines};
ghost use Rattle.metro_program.specs.Deps.{deps_plan};
ghost use Rattle.metro_program.specs.First.{built_plan, snapshot_plan};
ghost use Rattle.metro_program.specs.Lent.{lent};
ghost use Rattle.metro_program.specs.Owes.{HasCauses, Owes};
ghost use Rattle.metro_program.specs.Progress.{Fulfils, IsOwn, Keeps, OnlyWrites};

use crate::ending::sent;
use crate::state::{NextBuild, first_build};
use mt_files::{FileMap, crawl};
use mt_fresh::Explorer;
use mt_io::{Folder, Sink};
use mt_report::{Outcome, write_graph};
use mt_request::BuildAsk;
use std::alloc::Global;

/// Writes the lines of the modules of a build.
fn list_build<O: Sink>(alloc: Global, build: &NextBuild, out: &mut O) -> Outcome
    ensures fulfils { Fulfils (built_plan graph_lines (Ok build.now)) result (O.seen out.old) (O.seen out.new) }
{
    sent(write_graph(alloc, &build.revision, out), Outcome::Done)
}

/// Writes the lines of the modules of the first build of what an explorer finds of a snapshot.
fn list_files<X: Explorer, O: Sink>(
    alloc: Global,
    explorer: &mut X,
    ask: BuildAsk,
    files: FileMap,
    out: &mut O,
) -> Outcome
    requires few { map.len files ≤ max_files }
    ensures keeps { X.sure explorer.old → Keeps (snapshot_plan graph_lines ask files) result (O.seen out.old) (O.seen out.new) }
    ensures only { OnlyWrites result (O.seen out.old) (O.seen out.new) }
    ensures kept { X.sure explorer.old → X.sure explorer.new }
{
    match first_build(alloc, explorer, ask, files) {
        Ok(build) => list_build(alloc, &build, out),
        Err(fault) => Outcome::from(fault),
    }
}

/// Runs `deps`: writes a line for each module that an explorer finds in the folder.
pub fn run_deps<X: Explorer, F: Folder, O: Sink>(
    alloc: Global,
    explorer: &mut X,
    ask: BuildAsk,
    folder: &mut F,
    out: &mut O,
) -> Outcome
    ensures owes { X.sure explorer.old → (script : Seen Reading) → Owes (λ tree bytes. deps_plan ask tree) false
        (lent (F.seen folder.old) script (O.seen out.old)) (lent (F.seen folder.new) script (O.seen out.new)) result }
    ensures causes { (script : Seen Reading) → HasCauses false
        (lent (F.seen folder.old) script (O.seen out.old)) (lent (F.seen folder.new) script (O.seen out.new)) result }
    ensures own { IsOwn result }
    ensures kept { X.sure explorer.old → X.sure explorer.new }
{
    match crawl(alloc, folder) {
        Ok(files) => list_files(alloc, explorer, ask, files, out),
        Err(fault) => Outcome::from(fault),
    }
}
