//! The run of `grow`.
ghost use Rattle.std.specs.Prelude.{◌≡◌, ◌≤◌, ◌⊎◌, Ok, Err, IfErr, OnErr};
ghost use Rattle.std.specs.FinMap as map;
ghost use Rattle.std.specs.List.{All};
ghost use Rattle.mt_files.specs.Crawl.{max_files};
ghost use Rattle.mt_generator.specs.Growths.{grown};
ghost use Rattle.mt_io.specs.Seen.{WritesOrLacks};
ghost use Rattle.mt_request.specs.Growths.{IsGrowth};
ghost use Rattle.mt_script.specs.Commands.{IsCommand};
ghost use Rattle.metro_program.specs.Builds.{asked_step};
ghost use Rattle.metro_program.specs.Grow.{edited_plan, end_plan, grow_plan, grown_text, state_after, state_moved};
ghost use Rattle.metro_program.specs.Moves.{IsLimited, IsMove};
ghost use Rattle.metro_program.specs.Progress.{Fulfils, Keeps, OnlyWrites};

use crate::build::build;
use crate::ending::sent;
use crate::state::ReplayState;
use mt_containers::List;
use mt_files::{Change, FileMap, crawl};
use mt_fresh::Explorer;
use mt_generator::grow;
use mt_io::{Sink, SureFolder, SureSink, Trouble, send_all};
use mt_report::{Outcome, grown_line};
use mt_request::{BuildAsk, Growth};
use mt_script::Command;
use std::alloc::Global;

/// Builds what an explorer finds, and writes nothing. Refused only where memory runs out.
fn rebuild<X: Explorer>(
    alloc: Global,
    explorer: &mut X,
    state: &mut ReplayState,
) -> Result<(), Outcome>
    ensures exact { X.sure explorer.old → (result ≡ Err Outcome.NoMemory) ⊎ IsMove (Ok (asked_step state.old).state) state.new result }
    ensures lacks { OnErr result (result ≡ Err Outcome.NoMemory) }
    ensures kept { X.sure explorer.old → X.sure explorer.new }
{
    match build(alloc, explorer, false, state, &mut SureSink::new()) {
        Ok(()) => Ok(()),
        Err(_) => Err(Outcome::NoMemory),
    }
}

/// Carries out a command of a script that was grown. An `Err` says how the run ends.
fn carry_out<X: Explorer>(
    alloc: Global,
    explorer: &mut X,
    state: &mut ReplayState,
    command: Command,
) -> Result<(), Outcome>
    requires command { IsCommand command }
    ensures exact { X.sure explorer.old → (result ≡ Err Outcome.NoMemory) ⊎ IsMove (state_moved state.old command) state.new result }
    ensures limited { IfErr result IsLimited }
    ensures kept { X.sure explorer.old → X.sure explorer.new }
{
    match command {
        Command::Put(path, bytes) => state.put(alloc, path, bytes),
        Command::Del(path) => state.change(Change::Del(path)),
        Command::Rescan => Ok(()),
        Command::Build => rebuild(alloc, explorer, state),
        Command::End => Ok(()),
    }
}

/// Carries out the commands of a script that was grown. An `Err` says how the run ends.
fn carry_out_all<X: Explorer>(
    alloc: Global,
    explorer: &mut X,
    state: &mut ReplayState,
    commands: List<Command>,
) -> Result<(), Outcome>
    requires commands { All IsCommand commands }
    ensures exact { X.sure explorer.old → (result ≡ Err Outcome.NoMemory) ⊎ IsMove (state_after state.old commands) state.new result }
    ensures limited { IfErr result IsLimited }
    ensures kept { X.sure explorer.old → X.sure explorer.new }
{
    for command in commands.into_vec() {
        if let Err(outcome) = carry_out(alloc, explorer, state, command) {
            return Err(outcome);
        }
    }
    Ok(())
}

/// Writes the line of where a grown run ended, if a build was accepted.
#[tactic(auto, using(mt_io::proofs::Seen::stopped_none, mt_io::proofs::Seen::wrote_none))]
fn write_line<O: Sink>(
    alloc: Global,
    growth: Growth,
    state: &ReplayState,
    out: &mut O,
) -> Result<(), Trouble>
    ensures writes { WritesOrLacks (O.seen out.old) (O.seen out.new) (grown_text growth state.now) result }
{
    let Some(revision) = state.latest() else {
        return Ok(());
    };
    let line = grown_line(
        alloc,
        growth.modules,
        growth.edits,
        state.numbered(),
        revision,
    )?;
    send_all(out, line.as_bytes())?;
    Ok(())
}

/// Ends a grown run: it writes its line, and ends as the last build did.
fn end_grown<O: Sink>(alloc: Global, growth: Growth, state: ReplayState, out: &mut O) -> Outcome
    ensures fulfils { Fulfils (end_plan growth (Ok state)) result (O.seen out.old) (O.seen out.new) }
{
    let mut state = state;
    let written = write_line(alloc, growth, &state, out);
    sent(written, state.end())
}

/// Builds a snapshot of what was grown, and carries out the commands.
fn edit_files<X: Explorer, O: Sink>(
    alloc: Global,
    explorer: &mut X,
    ask: BuildAsk,
    growth: Growth,
    files: FileMap,
    commands: List<Command>,
    out: &mut O,
) -> Outcome
    requires few { map.len files ≤ max_files }
    requires commands { All IsCommand commands }
    requires grown { commands ≡ (grown growth.seed growth.modules growth.edits).commands }
    ensures keeps { X.sure explorer.old → Keeps (edited_plan ask growth files) result (O.seen out.old) (O.seen out.new) }
    ensures only { OnlyWrites result (O.seen out.old) (O.seen out.new) }
    ensures kept { X.sure explorer.old → X.sure explorer.new }
{
    let mut state = ReplayState::new(alloc, ask, files);
    if let Err(outcome) = rebuild(alloc, explorer, &mut state) {
        return outcome;
    }
    match carry_out_all(alloc, explorer, &mut state, commands) {
        Ok(()) => end_grown(alloc, growth, state, out),
        Err(outcome) => outcome,
    }
}

/// Runs `grow`: builds a folder that is made from a seed, edits it and builds it again, and writes one line.
pub fn run_grow<X: Explorer, O: Sink>(
    alloc: Global,
    explorer: &mut X,
    ask: BuildAsk,
    growth: Growth,
    out: &mut O,
) -> Outcome
    requires growth { IsGrowth growth }
    ensures keeps { X.sure explorer.old → Keeps (grow_plan ask growth) result (O.seen out.old) (O.seen out.new) }
    ensures only { OnlyWrites result (O.seen out.old) (O.seen out.new) }
    ensures kept { X.sure explorer.old → X.sure explorer.new }
{
    let Ok(grown) = grow(alloc, growth.seed, growth.modules, growth.edits) else {
        return Outcome::NoMemory;
    };
    let mt_generator::Growth { files, commands } = grown;
    match crawl(alloc, &mut SureFolder::new(files)) {
        Ok(files) => edit_files(alloc, explorer, ask, growth, files, commands, out),
        Err(fault) => Outcome::from(fault),
    }
}
