//! What a command line asks for.
ghost use Rattle.std.specs.Prelude.{◌≡◌, ◌≤◌, ◌⊎◌, Err, IfOk};
ghost use Rattle.mt_request.specs.Asks.{AreEntries};
ghost use Rattle.mt_request.specs.Growths.{IsBounded};
ghost use Rattle.mt_request.specs.Requests.{AreSaid, ask_of, request_in, request_of};

use crate::ask::BuildAsk;
use crate::fault::WordFault;
use crate::growth::{Action, read_action};
use crate::values::{is_given, read_value, read_workers};
use mt_tokens::Text;
use mt_words::{CommandSet, Words, read_words};
use std::alloc::{AllocError, Global};

/// What a command line asks for.
#[derive(Drop)]
pub struct Request {
    /// What is to be done.
    pub action: Action,
    /// What the builds are asked for.
    pub ask: BuildAsk,
    /// Whether each revision of a replay is to be written whole.
    pub full: bool,
    /// The number of workers: 1 to 64.
    pub workers: u32,
    /// The folder whose files are built; the one in which the program runs where there is none.
    pub root: Option<Text>,
    /// The folder of the cache, if one is used.
    pub cache: Option<Text>,
}

/// What the builds are asked for by the words of a line.
fn read_ask(alloc: Global, words: &Words) -> Result<BuildAsk, AllocError>
    requires said { AreSaid words.now }
    ensures ask { IfOk result (λ ask. ask ≡ ask_of words.now) }
{
    if words.command.as_str() == "grow" {
        return BuildAsk::grown(alloc);
    }
    BuildAsk::read(
        alloc,
        words.positionals.as_slice(),
        words.options.as_slice(),
    )
}

/// What the words of a line ask for.
#[tactic(auto, using(crate::proofs::Bounds::action_bounded, crate::proofs::Workers::workers_most, crate::proofs::Workers::workers_as), unfolding(crate::specs::Requests::request_in))]
fn read_said(alloc: Global, words: &Words) -> Result<Request, AllocError>
    requires said { AreSaid words.now }
    ensures request { IfOk result (λ request. request ≡ request_in words.now) }
    ensures workers { IfOk result (λ request. (1 ≤ request.workers) × (request.workers ≤ 64)) }
    ensures growth { IfOk result (λ request. IsBounded request.action) }
{
    let options = words.options.as_slice();
    Ok(Request {
        action: read_action(words.command.as_str(), words.positionals.as_slice()),
        ask: read_ask(alloc, words)?,
        full: is_given(options, "full"),
        workers: read_workers(options),
        root: read_value(options, "root")?,
        cache: read_value(options, "cache")?,
    })
}

/// Reads what a command line asks for. The words don't have the program's name. A line that `read_words` of `mt_words`
/// reads is refused only where memory runs out, and any other has the number of its first bad word.
pub fn read_request(alloc: Global, words: &[Text]) -> Result<Request, WordFault>
    ensures request { (result ≡ Err WordFault.NoMemory) ⊎ (result ≡ request_of words.now) }
    ensures workers { IfOk result (λ request. (1 ≤ request.workers) × (request.workers ≤ 64)) }
    ensures entries { IfOk result (λ request. AreEntries request.ask.entries) }
    ensures growth { IfOk result (λ request. IsBounded request.action) }
{
    let words = read_words(alloc, words, CommandSet::Still)?;
    let request = read_said(alloc, &words)?;
    Ok(request)
}
