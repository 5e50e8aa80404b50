//! The run of `replay`.
ghost use Rattle.std.specs.Prelude.{◌≡◌, ◌≤◌, ◌⊎◌, ◌+◌, true, None, OnOk, IfErr};
ghost use Rattle.std.specs.FinMap as map;
ghost use Rattle.mt_io.specs.Causes.{Rose};
ghost use Rattle.mt_io.specs.Files.{Files};
ghost use Rattle.mt_io.specs.Seen.{Looks, Tells};
ghost use Rattle.mt_io.specs.Told.{Reading};
ghost use Rattle.mt_files.specs.Crawl.{max_files};
ghost use Rattle.mt_report.specs.Outcomes.{IsBadWord};
ghost use Rattle.mt_script.specs.Commands.{GoesOn, IsCommand};
ghost use Rattle.metro_program.specs.Commands.{moved};
ghost use Rattle.metro_program.specs.Lent.{lent};
ghost use Rattle.metro_program.specs.Owes.{HasCauses, Owes};
ghost use Rattle.metro_program.specs.Progress.{Ends, Halted, HasDone, HasRead, HasReason, IsBegun, IsOwn, IsStart, ReadsScript, Start, Went};
ghost use Rattle.metro_program.specs.Replay.{replay_plan};

use crate::build::build;
use crate::state::ReplayState;
use mt_files::{Change, FileMap, crawl};
use mt_fresh::Explorer;
use mt_io::{Folder, Sink, Source};
use mt_report::Outcome;
use mt_request::BuildAsk;
use mt_script::{Command, MAX_COMMANDS, ScriptReader};
use std::alloc::Global;

/// Carries out a command. An `Err` says how the run ends.
fn carry_out<X: Explorer, F: Folder, O: Sink>(
    alloc: Global,
    explorer: &mut X,
    full: bool,
    state: &mut ReplayState,
    folder: &mut F,
    command: Command,
    out: &mut O,
) -> Result<(), Outcome>
    requires command { IsCommand command }
    ensures went { X.sure explorer.old → (tree : Files) → Tells (F.seen folder.old) tree
        → OnOk result (Went full (moved tree state.old command) state.old state.new (O.seen out.old) (O.seen out.new)) }
    ensures halted { X.sure explorer.old → (tree : Files) → Tells (F.seen folder.old) tree
        → IfErr result (λ outcome. Halted full (moved tree state.old command) state.old outcome (O.seen out.old) (O.seen out.new)) }
    ensures read { IfErr result (λ outcome. outcome ≡ Outcome.ReadFailed
        → (command ≡ Command.Rescan) × Rose (F.seen folder.old).faults (F.seen folder.new).faults × (O.seen out.new ≡ O.seen out.old)) }
    ensures write { IfErr result (λ outcome. outcome ≡ Outcome.WriteFailed → Rose (O.seen out.old).faults (O.seen out.new).faults) }
    ensures goes { OnOk result (GoesOn command) }
    ensures own { IfErr result IsOwn }
    ensures folder { Looks (F.seen folder.old) (F.seen folder.new) ⊥ }
    ensures out_later { (O.seen out.old).faults ≤ (O.seen out.new).faults }
    ensures out_apart { (O.seen out.new).beside ≡ (O.seen out.old).beside }
    ensures kept { X.sure explorer.old → X.sure explorer.new }
{
    match command {
        Command::Put(path, bytes) => state.put(alloc, path, bytes),
        Command::Del(path) => state.change(Change::Del(path)),
        Command::Rescan => state.rescan(alloc, folder),
        Command::Build => build(alloc, explorer, full, state, out).map_err(Outcome::from),
        Command::End => Err(state.end()),
    }
}

/// Reads the next command and carries it out. An `Err` says how the run ends.
#[allow(clippy::too_many_arguments)]
fn turn<X: Explorer, F: Folder, I: Source, O: Sink>(
    alloc: Global,
    explorer: &mut X,
    full: bool,
    state: &mut ReplayState,
    reader: &mut ScriptReader,
    folder: &mut F,
    script: &mut I,
    out: &mut O,
) -> Result<(), Outcome>
    requires going { reader.old.fault ≡ None }
    ensures on { X.sure explorer.old → (start : Start) → start.full ≡ full → (F.seen folder.old).told ≡ start.lent.folder.told
        → HasDone start state.old reader.old (I.seen script.old).told (O.seen out.old)
        → OnOk result (HasDone start state.new reader.new (I.seen script.new).told (O.seen out.new)) }
    ensures ends { X.sure explorer.old → (start : Start) → start.full ≡ full → (F.seen folder.old).told ≡ start.lent.folder.told
        → start.lent.folder.faults ≤ (F.seen folder.old).faults
        → HasDone start state.old reader.old (I.seen script.old).told (O.seen out.old)
        → IfErr result (λ outcome. Ends start outcome (lent (F.seen folder.new) (I.seen script.new) (O.seen out.new))) }
    ensures has { (reading : Reading) → HasRead reading reader.old (I.seen script.old).told
        → OnOk result (HasRead reading reader.new (I.seen script.new).told) }
    ensures reason { (reading : Reading) → HasRead reading reader.old (I.seen script.old).told → IfErr result (HasReason reading) }
    ensures going { OnOk result (reader.new.fault ≡ None) }
    ensures counted { OnOk result (reader.new.count ≡ reader.old.count + 1) }
    ensures read { IfErr result (λ outcome. outcome ≡ Outcome.ReadFailed
        → Rose (F.seen folder.old).faults (F.seen folder.new).faults ⊎ Rose (I.seen script.old).faults (I.seen script.new).faults) }
    ensures write { IfErr result (λ outcome. outcome ≡ Outcome.WriteFailed → Rose (O.seen out.old).faults (O.seen out.new).faults) }
    ensures word { IfErr result (λ outcome. IsBadWord outcome → ⊥) }
    ensures folder { Looks (F.seen folder.old) (F.seen folder.new) ⊥ }
    ensures script_later { (I.seen script.old).faults ≤ (I.seen script.new).faults }
    ensures script_apart { (I.seen script.new).beside ≡ (I.seen script.old).beside }
    ensures out_later { (O.seen out.old).faults ≤ (O.seen out.new).faults }
    ensures out_apart { (O.seen out.new).beside ≡ (O.seen out.old).beside }
    ensures kept { X.sure explorer.old → X.sure explorer.new }
{
    match reader.next(script) {
        Ok(command) => carry_out(alloc, explorer, full, state, folder, command, out),
        Err(fault) => Err(Outcome::from(fault)),
    }
}

/// Carries out the commands of a script.
fn run_script<X: Explorer, F: Folder, I: Source, O: Sink>(
    alloc: Global,
    explorer: &mut X,
    full: bool,
    state: ReplayState,
    folder: &mut F,
    script: &mut I,
    out: &mut O,
) -> Outcome
    ensures ends { X.sure explorer.old → (start : Start) → IsBegun start full state (lent (F.seen folder.old) (I.seen script.old) (O.seen out.old))
        → Ends start result (lent (F.seen folder.new) (I.seen script.new) (O.seen out.new)) }
    ensures reason { (reading : Reading) → Tells (I.seen script.old) reading → HasReason reading result }
    ensures read { result ≡ Outcome.ReadFailed → Rose (F.seen folder.old).faults (F.seen folder.new).faults
        ⊎ Rose (I.seen script.old).faults (I.seen script.new).faults }
    ensures write { result ≡ Outcome.WriteFailed → Rose (O.seen out.old).faults (O.seen out.new).faults }
    ensures word { IsBadWord result → ⊥ }
    ensures folder { Looks (F.seen folder.old) (F.seen folder.new) ⊥ }
    ensures script_apart { (I.seen script.new).beside ≡ (I.seen script.old).beside }
    ensures out_later { (O.seen out.old).faults ≤ (O.seen out.new).faults }
    ensures out_apart { (O.seen out.new).beside ≡ (O.seen out.old).beside }
    ensures kept { X.sure explorer.old → X.sure explorer.new }
{
    let mut state = state;
    let Ok(mut reader) = ScriptReader::new(alloc) else {
        return Outcome::NoMemory;
    };
    for _turn in 0..=MAX_COMMANDS {
        if let Err(outcome) = turn(
            alloc,
            explorer,
            full,
            &mut state,
            &mut reader,
            folder,
            script,
            out,
        ) {
            return outcome;
        }
    }
    // No run gets here: a script has at most this many commands.
    Outcome::NoMemory
}

/// Replays a script over a snapshot: it begins with a build.
#[allow(clippy::too_many_arguments)]
fn replay_files<X: Explorer, F: Folder, I: Source, O: Sink>(
    alloc: Global,
    explorer: &mut X,
    ask: BuildAsk,
    full: bool,
    files: FileMap,
    folder: &mut F,
    script: &mut I,
    out: &mut O,
) -> Outcome
    requires few { map.len files ≤ max_files }
    ensures ends { X.sure explorer.old → (start : Start) → IsStart start full ask files (lent (F.seen folder.old) (I.seen script.old) (O.seen out.old))
        → Ends start result (lent (F.seen folder.new) (I.seen script.new) (O.seen out.new)) }
    ensures reason { (reading : Reading) → Tells (I.seen script.old) reading → HasReason reading result }
    ensures read { result ≡ Outcome.ReadFailed → Rose (F.seen folder.old).faults (F.seen folder.new).faults
        ⊎ Rose (I.seen script.old).faults (I.seen script.new).faults }
    ensures write { result ≡ Outcome.WriteFailed → Rose (O.seen out.old).faults (O.seen out.new).faults }
    ensures word { IsBadWord result → ⊥ }
    ensures folder { Looks (F.seen folder.old) (F.seen folder.new) ⊥ }
    ensures script_apart { (I.seen script.new).beside ≡ (I.seen script.old).beside }
    ensures out_apart { (O.seen out.new).beside ≡ (O.seen out.old).beside }
    ensures kept { X.sure explorer.old → X.sure explorer.new }
{
    let mut state = ReplayState::new(alloc, ask, files);
    match build(alloc, explorer, full, &mut state, out) {
        Ok(()) => run_script(alloc, explorer, full, state, folder, script, out),
        Err(trouble) => Outcome::from(trouble),
    }
}

/// Runs `replay`: builds what the folder has, and then carries out the commands of the script, up to `end`. In a full replay
/// the bundle of each revision follows its line.
pub fn run_replay<X: Explorer, F: Folder, I: Source, O: Sink>(
    alloc: Global,
    explorer: &mut X,
    ask: BuildAsk,
    full: bool,
    folder: &mut F,
    script: &mut I,
    out: &mut O,
) -> Outcome
    ensures owes { X.sure explorer.old → Owes (replay_plan full ask) true
        (lent (F.seen folder.old) (I.seen script.old) (O.seen out.old))
        (lent (F.seen folder.new) (I.seen script.new) (O.seen out.new)) result }
    ensures script { X.sure explorer.old → ReadsScript full ask
        (lent (F.seen folder.old) (I.seen script.old) (O.seen out.old))
        (lent (F.seen folder.new) (I.seen script.new) (O.seen out.new)) result }
    ensures causes { HasCauses true (lent (F.seen folder.old) (I.seen script.old) (O.seen out.old))
        (lent (F.seen folder.new) (I.seen script.new) (O.seen out.new)) result }
    ensures reason { (reading : Reading) → Tells (I.seen script.old) reading → HasReason reading result }
    ensures word { IsBadWord result → ⊥ }
    ensures kept { X.sure explorer.old → X.sure explorer.new }
{
    match crawl(alloc, folder) {
        Ok(files) => replay_files(alloc, explorer, ask, full, files, folder, script, out),
        Err(fault) => Outcome::from(fault),
    }
}
