//! The lines that tell of a graph, and of the faults in its place.
ghost use Rattle.std.specs.Prelude.{◌≡◌, ◌++◌, IfOk, OnOk};
ghost use Rattle.std.specs.FinMap.{entries};
ghost use Rattle.std.specs.List.{flat_map};
ghost use Rattle.mt_io.specs.Seen.{WritesOrLacks};
ghost use Rattle.mt_report.specs.Listings.{fault_line, fault_lines, graph_lines, module_line, ok_line, target_text};

use itoa::Buffer;
use mt_files::{BuildFault, fault_text};
use mt_io::{Sink, Trouble, send_all};
use mt_revision::{Module, Revision};
use mt_tokens::Text;
use mt_write::Slot;
use std::alloc::{AllocError, Global};

/// Adds where a name leads, after a blank.
fn push_target(text: &mut Text, slot: Slot) -> Result<(), AllocError>
    ensures ok { OnOk result (text.new ≡ text.old ++ target_text slot) }
{
    text.push_str(" ")?;
    match slot {
        Slot::Module(number) => text.push_str(Buffer::new().format(number)),
        Slot::Empty => text.push_str("null"),
    }
}

/// Where names lead, a blank before each.
fn targets_text(alloc: Global, slots: &[Slot]) -> Result<Text, AllocError>
    ensures text { IfOk result (λ text. text ≡ flat_map target_text slots.now) }
{
    let mut text = Text::new(alloc);
    for slot in slots {
        push_target(&mut text, *slot)?;
    }
    Ok(text)
}

/// The line of a module under a number: how many of its calls name what only a run can tell, how many names it has, where
/// each of them leads, and its path.
fn module_line(alloc: Global, number: u32, one: &Module) -> Result<Text, AllocError>
    ensures line { IfOk result (λ line. line ≡ module_line number one.now) }
{
    let dynamic = one.output.dynamic();
    let count = one.slots.len();
    let targets = targets_text(alloc, one.slots.as_slice())?;
    let targets = targets.as_str();
    let path = one.path.as_str();
    let line = format!(in alloc; "{number} {dynamic} {count}{targets} {path}\n")?;
    Ok(Text::from_string(line))
}

/// Writes the line of a module under a number.
#[tactic(auto, using(mt_io::proofs::Seen::stopped_none))]
fn write_module_line<S: Sink>(
    alloc: Global,
    number: u32,
    one: &Module,
    sink: &mut S,
) -> Result<(), Trouble>
    ensures { WritesOrLacks (S.seen sink.old) (S.seen sink.new) (module_line number one.now) result }
{
    let line = module_line(alloc, number, one)?;
    send_all(sink, line.as_bytes())?;
    Ok(())
}

/// Writes the lines of a revision's modules, by ascending number. After an `Err` the sink has taken a prefix of them.
pub fn write_graph<S: Sink>(alloc: Global, revision: &Revision, sink: &mut S) -> Result<(), Trouble>
    ensures { WritesOrLacks (S.seen sink.old) (S.seen sink.new) (graph_lines revision.now) result }
{
    for (number, one) in revision.modules.by_number() {
        write_module_line(alloc, *number, one, sink)?;
    }
    Ok(())
}

/// Writes the line of a fault.
#[tactic(auto, using(mt_io::proofs::Seen::stopped_none))]
fn write_fault<S: Sink>(alloc: Global, fault: &BuildFault, sink: &mut S) -> Result<(), Trouble>
    ensures { WritesOrLacks (S.seen sink.old) (S.seen sink.new) (fault_line fault.now) result }
{
    let text = fault_text(alloc, fault)?;
    let text = text.as_str();
    let line = Text::from_string(format!(in alloc; "{text}\n")?);
    send_all(sink, line.as_bytes())?;
    Ok(())
}

/// Writes the lines of faults, in their order. After an `Err` the sink has taken a prefix of them.
pub fn write_faults<S: Sink>(
    alloc: Global,
    faults: &[BuildFault],
    sink: &mut S,
) -> Result<(), Trouble>
    ensures { WritesOrLacks (S.seen sink.old) (S.seen sink.new) (fault_lines faults.now) result }
{
    for fault in faults {
        write_fault(alloc, fault, sink)?;
    }
    Ok(())
}

/// Writes the line of a graph without a fault: how many modules it has, and how many of their calls name what only a run can
/// tell. After an `Err` the sink has taken a prefix of it.
#[tactic(auto, using(mt_io::proofs::Seen::stopped_none))]
pub fn write_ok<S: Sink>(
    alloc: Global,
    modules: usize,
    calls: u64,
    sink: &mut S,
) -> Result<(), Trouble>
    ensures { WritesOrLacks (S.seen sink.old) (S.seen sink.new) (ok_line modules calls) result }
{
    let line = Text::from_string(format!(in alloc; "ok {modules} {calls}\n")?);
    send_all(sink, line.as_bytes())?;
    Ok(())
}
