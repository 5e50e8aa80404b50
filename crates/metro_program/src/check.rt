//! The run of `check`.
ghost use Rattle.std.specs.Prelude.{false};
ghost use Rattle.mt_io.specs.Seen.{Seen};
ghost use Rattle.mt_io.specs.Told.{Reading};
ghost use Rattle.metro_program.specs.Check.{check_plan, checked_plan, found_plan};
ghost use Rattle.metro_program.specs.Lent.{lent};
ghost use Rattle.metro_program.specs.Owes.{HasCauses, Owes};
ghost use Rattle.metro_program.specs.Progress.{Fulfils, IsOwn};

use crate::ending::sent;
use crate::graph::find_faults;
use mt_files::{FileMap, crawl};
use mt_fresh::AllFaults;
use mt_io::{Folder, Sink};
use mt_report::{Outcome, write_faults, write_ok};
use mt_request::BuildAsk;
use std::alloc::Global;

/// Writes the lines of the faults that were found; where there are none, the line of files without a fault.
fn list_faults<O: Sink>(alloc: Global, found: &AllFaults, out: &mut O) -> Outcome
    ensures fulfils { Fulfils (found_plan found.now) result (O.seen out.old) (O.seen out.new) }
{
    if found.list.is_empty() {
        return sent(
            write_ok(alloc, found.modules, found.calls, out),
            Outcome::Done,
        );
    }
    sent(
        write_faults(alloc, found.list.as_slice(), out),
        Outcome::Faulty,
    )
}

/// Writes the lines of all faults of a snapshot.
fn check_files<O: Sink>(alloc: Global, ask: &BuildAsk, files: &FileMap, out: &mut O) -> Outcome
    ensures fulfils { Fulfils (checked_plan ask.now files.now) result (O.seen out.old) (O.seen out.new) }
{
    match find_faults(alloc, ask, files) {
        Ok(found) => list_faults(alloc, &found, out),
        Err(_) => Outcome::NoMemory,
    }
}

/// Runs `check`: writes a line for each fault of what the folder has.
pub fn run_check<F: Folder, O: Sink>(
    alloc: Global,
    ask: BuildAsk,
    folder: &mut F,
    out: &mut O,
) -> Outcome
    ensures owes { (script : Seen Reading) → Owes (λ tree bytes. check_plan ask tree) false
        (lent (F.seen folder.old) script (O.seen out.old)) (lent (F.seen folder.new) script (O.seen out.new)) result }
    ensures causes { (script : Seen Reading) → HasCauses false
        (lent (F.seen folder.old) script (O.seen out.old)) (lent (F.seen folder.new) script (O.seen out.new)) result }
    ensures own { IsOwn result }
{
    match crawl(alloc, folder) {
        Ok(files) => check_files(alloc, &ask, &files, out),
        Err(fault) => Outcome::from(fault),
    }
}
