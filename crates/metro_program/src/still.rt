//! The commands that run over objects that are handed in.
ghost use Rattle.std.specs.Prelude.{◌≡◌, ◌⊎◌, ℕ, List, false, IsErr, Ok};
ghost use Rattle.mt_io.specs.Files.{Files};
ghost use Rattle.mt_request.specs.Growths.{IsBounded};
ghost use Rattle.mt_request.specs.Requests.{request_of};
ghost use Rattle.mt_request.specs.declared.request.Request.{Request};
ghost use Rattle.mt_script.specs.Scripts.{script_of};
ghost use Rattle.metro_program.specs.Bundle.{Bundles};
ghost use Rattle.metro_program.specs.Check.{Checks};
ghost use Rattle.metro_program.specs.Deps.{PrintsGraph};
ghost use Rattle.metro_program.specs.Owes.{Comes, HasCauses, Owes, Runs};
ghost use Rattle.metro_program.specs.Progress.{HasReason, ReadsScript};
ghost use Rattle.metro_program.specs.Replays.{Replays};
ghost use Rattle.metro_program.specs.Still.{word_outcome, words_plan, words_read};
ghost use Rattle.mt_report.specs.Outcomes.{IsBadWord, line_of};
ghost use Rattle.mt_io.specs.Seen.{Tells, Wrote};
ghost use Rattle.mt_io.specs.Told.{Reading};
ghost use Rattle.metro_program.specs.Lent.{Stood, lent};

use crate::bundle::run_bundle;
use crate::check::run_check;
use crate::deps::run_deps;
use crate::grow::run_grow;
use crate::replay::run_replay;
use mt_fresh::{Explorer, Traversal};
use mt_io::{Folder, Gate, Sink, Source, Store, send_all};
use mt_report::Outcome;
use mt_request::{Action, Request, WordFault, read_request};
use mt_tokens::Text;
use std::alloc::Global;
use std::thread::Threads;

/// Runs what is asked for.
fn run<X: Explorer, F: Folder, I: Source, O: Sink>(
    alloc: Global,
    explorer: &mut X,
    request: Request,
    folder: &mut F,
    script: &mut I,
    out: &mut O,
) -> Outcome
    requires bounded { IsBounded request.action }
    ensures owes { X.sure explorer.old → Owes (words_plan (Ok request)) (words_read (Ok request))
        (lent (F.seen folder.old) (I.seen script.old) (O.seen out.old))
        (lent (F.seen folder.new) (I.seen script.new) (O.seen out.new)) result }
    ensures script { X.sure explorer.old → request.action ≡ Action.Replay → ReadsScript request.full request.ask
        (lent (F.seen folder.old) (I.seen script.old) (O.seen out.old))
        (lent (F.seen folder.new) (I.seen script.new) (O.seen out.new)) result }
    ensures causes { HasCauses (words_read (Ok request))
        (lent (F.seen folder.old) (I.seen script.old) (O.seen out.old))
        (lent (F.seen folder.new) (I.seen script.new) (O.seen out.new)) result }
    ensures reason { request.action ≡ Action.Replay → (reading : Reading) → Tells (I.seen script.old) reading → HasReason reading result }
    ensures unasked { words_read (Ok request) ≡ false → script.new ≡ script.old }
    ensures word { IsBadWord result → ⊥ }
    ensures kept { X.sure explorer.old → X.sure explorer.new }
{
    let Request {
        action,
        ask,
        full,
        ..
    } = request;
    match action {
        Action::Bundle => run_bundle(alloc, explorer, ask, folder, out),
        Action::Deps => run_deps(alloc, explorer, ask, folder, out),
        Action::Check => run_check(alloc, ask, folder, out),
        Action::Replay => run_replay(alloc, explorer, ask, full, folder, script, out),
        Action::Grow(growth) => run_grow(alloc, explorer, ask, growth, out),
    }
}

/// How a run ends where the words ask for nothing.
fn word_outcome(fault: WordFault) -> Outcome
    ensures outcome { result ≡ word_outcome fault }
{
    match fault {
        WordFault::BadWord(at) => Outcome::BadWord(at),
        WordFault::NoMemory => Outcome::NoMemory,
    }
}

/// Runs what the words ask for.
fn run_words<X: Explorer, F: Folder, I: Source, O: Sink>(
    alloc: Global,
    explorer: &mut X,
    words: &[Text],
    folder: &mut F,
    script: &mut I,
    out: &mut O,
) -> Outcome
    ensures comes { Comes (X.sure explorer.old) (request_of words.now)
        (lent (F.seen folder.old) (I.seen script.old) (O.seen out.old))
        (lent (F.seen folder.new) (I.seen script.new) (O.seen out.new)) result }
    ensures unread { IsErr (request_of words.now) → (folder.new ≡ folder.old) × (out.new ≡ out.old) }
    ensures unasked { words_read (request_of words.now) ≡ false → script.new ≡ script.old }
    ensures kept { X.sure explorer.old → X.sure explorer.new }
{
    match read_request(alloc, words) {
        Ok(request) => run(alloc, explorer, request, folder, script, out),
        Err(fault) => word_outcome(fault),
    }
}

/// Writes the line of an outcome to the log, and answers the outcome: out of memory, where there is none for the line. A
/// fault of the log changes no outcome.
fn tell<E: Sink>(alloc: Global, outcome: Outcome, log: &mut E) -> Outcome
    ensures outcome { (result ≡ outcome) ⊎ (result ≡ Outcome.NoMemory) }
    ensures line { Stood (E.seen log.old) (E.seen log.new) → Wrote (E.seen log.old) (E.seen log.new) (line_of result) }
    ensures apart { (E.seen log.new).beside ≡ (E.seen log.old).beside }
{
    match outcome.line(alloc) {
        Ok(line) => {
            let _ = send_all(log, line.as_bytes());
            outcome
        }
        Err(_) => {
            let _ = send_all(log, b"metro: out of memory\n");
            Outcome::NoMemory
        }
    }
}

/// Runs a command over the objects that are handed in, and answers its status.
///
/// Each command has one entry, and reads the folder. `bundle` writes the bundle of the entry to `out`, `deps` a line for each
/// of its modules, and `check` a line for each of their faults. `replay` then reads the script, whose commands change the
/// files that were read; it builds at first and at each `build`, and writes a line for each build to `out`. Neither the store
/// nor the gate is called.
#[allow(clippy::too_many_arguments)]
pub fn metro_still<
    R: Threads + Sync,
    F: Folder,
    C: Store,
    I: Source,
    O: Sink,
    E: Sink,
    G: Gate + Sync,
>(
    _rt: &R,
    alloc: Global,
    words: &[Text],
    folder: &mut F,
    _store: C,
    script: &mut I,
    out: &mut O,
    log: &mut E,
    _gate: &G,
) -> u8
    // What is asked for is done, and each answer has its reason. The explorer is sure.
    ensures run { Runs (Unit {0}) (request_of words.now) (lent (F.seen folder.old) (I.seen script.old) (O.seen out.old))
        (lent (F.seen folder.new) (I.seen script.new) (O.seen out.new)) (E.seen log.old) (E.seen log.new) result }

    // What the plans of the commands say.
    ensures bundle { (request : Request) (tree : Files) (bytes : List ℕ)
        → request_of words.now ≡ Ok request → request.action ≡ Action.Bundle
        → Bundles request.ask tree (words_plan (request_of words.now) tree bytes) }
    ensures deps { (request : Request) (tree : Files) (bytes : List ℕ)
        → request_of words.now ≡ Ok request → request.action ≡ Action.Deps
        → PrintsGraph request.ask tree (words_plan (request_of words.now) tree bytes) }
    ensures check { (request : Request) (tree : Files) (bytes : List ℕ)
        → request_of words.now ≡ Ok request → request.action ≡ Action.Check
        → Checks request.ask tree (words_plan (request_of words.now) tree bytes) }
    ensures replay { (request : Request) (tree : Files) (bytes : List ℕ)
        → request_of words.now ≡ Ok request → request.action ≡ Action.Replay
        → Replays request.full request.ask tree (script_of bytes) (words_plan (request_of words.now) tree bytes) }

    // Where the words ask for nothing, nothing is read and nothing is written to the output. A script that they don't ask
    // for isn't read.
    ensures unread { IsErr (request_of words.now) → (folder.new ≡ folder.old) × (out.new ≡ out.old) }
    ensures unasked { words_read (request_of words.now) ≡ false → script.new ≡ script.old }
{
    let outcome = run_words(alloc, &mut Traversal, words, folder, script, out);
    tell(alloc, outcome, log).status()
}
