//! The builds of a replay, the lines that tell of them, and the bundles of a full replay.
ghost use Rattle.std.specs.Prelude.{◌≡◌, ◌++◌, ℕ, List, None, Some, Ok, Err, OnOk, OnErr, [], ◌∷◌, length, option_copied};
ghost use Rattle.mt_io.specs.Seen.{Writes, WritesOrLacks};
ghost use Rattle.mt_revision.specs.Held.{touched_between};
ghost use Rattle.mt_revision.specs.Logs.{Accepted};
ghost use Rattle.mt_revision.specs.Revisions.{held_before, held_of};
ghost use Rattle.metro_program.specs.Builds.{Built, IsNext, asked_step, build_step, same_number, with_refusal};
ghost use Rattle.metro_program.specs.Replay.{line_after, lines_after, whole_after};
ghost use Rattle.mt_report.specs.Reports.{refused_line, same_line};

use crate::state::{NextBuild, ReplayState};
use mt_files::BuildFault;
use mt_fresh::Explorer;
use mt_io::{Failed, Sink, Trouble, send_all};
use mt_report::{refused_line, revision_line, same_line};
use mt_revision::{Revision, write_bundle};
use std::alloc::Global;

/// Writes the bundle of a revision, where the replay is full.
#[tactic(auto, using(mt_io::proofs::Seen::wrote_none))]
fn write_whole<O: Sink>(full: bool, revision: &Revision, out: &mut O) -> Result<(), Failed>
    ensures writes { Writes (O.seen out.old) (O.seen out.new) (whole_after full revision.now) result }
{
    if full {
        write_bundle(revision, out)
    } else {
        Ok(())
    }
}

/// Writes the line of a revision and, where the replay is full, its bundle.
#[tactic(auto, using(mt_io::proofs::Seen::stopped_none, mt_io::proofs::Seen::wrote_then, mt_io::proofs::Seen::stopped_more, mt_io::proofs::Seen::stopped_then))]
fn write_revision<O: Sink>(
    alloc: Global,
    full: bool,
    before: Option<&Revision>,
    revision: &Revision,
    out: &mut O,
) -> Result<(), Trouble>
    requires touched { revision.now.touched ≡ touched_between (held_before (option_copied before)) (held_of revision.now) }
    ensures writes { WritesOrLacks (O.seen out.old) (O.seen out.new) (line_after full (option_copied before.entry) (Built (Accepted revision.now))) result }
{
    let line = revision_line(alloc, before, revision)?;
    send_all(out, line.as_bytes())?;
    write_whole(full, revision, out)?;
    Ok(())
}

/// Writes the line of a build and, where the replay is full, its bundle, and keeps what it gave.
fn accept<O: Sink>(
    alloc: Global,
    full: bool,
    state: &mut ReplayState,
    build: NextBuild,
    out: &mut O,
) -> Result<(), Trouble>
    requires next { IsNext state.old build }
    requires new { same_number state.old ≡ None }
    ensures state { OnOk result (state.new ≡ (build_step state.old (Ok build)).state) }
    ensures writes { WritesOrLacks (O.seen out.old) (O.seen out.new) (lines_after full state.old.latest (build_step state.old (Ok build)).answers) result }
{
    write_revision(alloc, full, state.latest(), &build.revision, out)?;
    state.accept(build);
    Ok(())
}

/// Writes the line of a refused build, and keeps the fault.
#[tactic(auto, using(mt_io::proofs::Seen::stopped_none))]
fn refuse<O: Sink>(
    alloc: Global,
    state: &mut ReplayState,
    fault: BuildFault,
    out: &mut O,
) -> Result<(), Trouble>
    ensures state { OnOk result (state.new ≡ (build_step state.old (Err fault)).state) }
    ensures writes { WritesOrLacks (O.seen out.old) (O.seen out.new) (refused_line (length state.old.journal) fault ++ []) result }
{
    let line = refused_line(alloc, state.changes(), &fault)?;
    send_all(out, line.as_bytes())?;
    state.refuse(Some(fault));
    Ok(())
}

/// Writes the line of a refused build, and keeps the fault. Where memory ran out, nothing is written or kept.
#[tactic(auto, using(mt_io::proofs::Seen::stopped_none))]
fn refuse_or_stop<O: Sink>(
    alloc: Global,
    state: &mut ReplayState,
    fault: BuildFault,
    out: &mut O,
) -> Result<(), Trouble>
    ensures stops { fault ≡ BuildFault.NoMemory → (result ≡ Err Trouble.NoMemory) × (O.seen out.new ≡ O.seen out.old) }
    ensures state { OnOk result (state.new ≡ (build_step state.old (Err fault)).state) }
    ensures writes { WritesOrLacks (O.seen out.old) (O.seen out.new) (refused_line (length state.old.journal) fault ++ []) result }
{
    match fault {
        BuildFault::NoMemory => Err(Trouble::NoMemory),
        fault => refuse(alloc, state, fault, out),
    }
}

/// Writes the line of a build that has nothing to build, since the latest revision, which has this number, counts all
/// accepted changes.
#[tactic(auto, using(mt_io::proofs::Seen::stopped_none))]
fn pass<O: Sink>(
    alloc: Global,
    state: &mut ReplayState,
    number: u32,
    out: &mut O,
) -> Result<(), Trouble>
    ensures state { OnOk result (state.new ≡ with_refusal state.old None) }
    ensures writes { WritesOrLacks (O.seen out.old) (O.seen out.new) (same_line number ++ []) result }
{
    let line = same_line(alloc, number)?;
    send_all(out, line.as_bytes())?;
    state.refuse(None);
    Ok(())
}

/// Builds what an explorer finds, and writes the line of the build and, where the replay is full, the bundle of its revision.
/// Refused only where memory runs out or the output fails: then a prefix of these bytes was written, or nothing.
#[tactic(auto, using(mt_io::proofs::Seen::stopped_none))]
pub fn build<X: Explorer, O: Sink>(
    alloc: Global,
    explorer: &mut X,
    full: bool,
    state: &mut ReplayState,
    out: &mut O,
) -> Result<(), Trouble>
    ensures state { X.sure explorer.old → OnOk result (state.new ≡ (asked_step state.old).state) }
    ensures writes { X.sure explorer.old → WritesOrLacks (O.seen out.old) (O.seen out.new) (lines_after full state.old.latest (asked_step state.old).answers) result }
    ensures line { (line : List ℕ) × WritesOrLacks (O.seen out.old) (O.seen out.new) line result }
    ensures kept { X.sure explorer.old → X.sure explorer.new }
{
    if let Some(number) = state.same_number() {
        return pass(alloc, state, number, out);
    }
    match state.build(alloc, explorer) {
        Ok(build) => accept(alloc, full, state, build, out),
        Err(fault) => refuse_or_stop(alloc, state, fault, out),
    }
}
