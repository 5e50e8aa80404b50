//! The bundle of a revision.
ghost use Rattle.std.specs.List.{flat_map};
ghost use Rattle.std.specs.FinMap.{entries};
ghost use Rattle.mt_io.specs.Seen.{Writes};
ghost use Rattle.mt_write.specs.Modules.{start_of};
ghost use Rattle.mt_revision.specs.Texts.{text_in};
ghost use Rattle.mt_revision.specs.Revisions.{bundle_of};

use crate::modules::{Module, ModuleMap};
use crate::revision::Revision;
use mt_io::{Failed, Sink};
use mt_write::{write_head, write_module, write_start};

/// Writes a module under a number.
fn write_one<S: Sink>(number: u32, one: &Module, dev: bool, sink: &mut S) -> Result<(), Failed>
    ensures { Writes (S.seen sink.old) (S.seen sink.new) (text_in dev number one.now) result }
{
    let body = one.output.body();
    write_module(number, &one.path, body, one.slots.as_slice(), dev, sink)
}

/// Writes modules by ascending number.
fn write_modules<S: Sink>(modules: &ModuleMap, dev: bool, sink: &mut S) -> Result<(), Failed>
    ensures { Writes (S.seen sink.old) (S.seen sink.new) (flat_map (λ e. text_in dev e.0 e.1) (entries modules.now)) result }
{
    for (number, one) in &modules.by_number {
        write_one(*number, one, dev, sink)?;
    }
    Ok(())
}

/// Writes the lines that start modules.
fn write_starts<S: Sink>(entries: &[u32], sink: &mut S) -> Result<(), Failed>
    ensures { Writes (S.seen sink.old) (S.seen sink.new) (flat_map start_of entries.now) result }
{
    for entry in entries {
        write_start(*entry, sink)?;
    }
    Ok(())
}

/// Writes the bundle of a revision: what comes before the modules, the modules by ascending number, and the lines that
/// start the entries, in their order.
///
/// It takes no memory. After an `Err` the sink has taken a prefix of the bundle.
#[tactic(auto, using(mt_io::proofs::Seen::wrote_then, mt_io::proofs::Seen::stopped_more, mt_io::proofs::Seen::stopped_then))]
pub fn write_bundle<S: Sink>(revision: &Revision, sink: &mut S) -> Result<(), Failed>
    ensures { Writes (S.seen sink.old) (S.seen sink.new) (bundle_of revision.now) result }
{
    write_head(revision.dev, sink)?;
    write_modules(&revision.modules, revision.dev, sink)?;
    write_starts(revision.entries.as_slice(), sink)?;
    Ok(())
}
