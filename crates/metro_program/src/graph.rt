//! The one place where the program builds a graph, or finds the faults in its place.
ghost use Rattle.std.specs.Prelude.{◌≡◌, ◌⊎◌, Err, IfOk};
ghost use Rattle.mt_graph.specs.Graphs.{fresh_graph};
ghost use Rattle.mt_fresh.specs.JudgedGraphs.{IsGraphOf};
ghost use Rattle.metro_program.specs.Check.{AreFaults};
ghost use Rattle.mt_request.specs.Asks.{AreEntries};

use mt_files::{BuildFault, FileMap};
use mt_fresh::{AllFaults, Explorer, faults, traverse_by};
use mt_graph::Graph;
use mt_request::BuildAsk;
use std::alloc::{AllocError, Global};

/// The graph of what an explorer finds of files, or the first fault: of the files, where the explorer is sure.
pub fn build_graph<X: Explorer>(
    alloc: Global,
    explorer: &mut X,
    ask: &BuildAsk,
    files: &FileMap,
) -> Result<Graph, BuildFault>
    ensures exact { X.sure explorer.old → (result ≡ Err BuildFault.NoMemory) ⊎ (result ≡ fresh_graph ask.now files.now) }
    ensures graph { IfOk result (IsGraphOf ask.now files.now) }
    ensures entries { AreEntries ask.now.entries }
    ensures kept { X.sure explorer.old → X.sure explorer.new }
{
    traverse_by(alloc, explorer, files, ask.options(), ask.entries())
}

/// All faults of files, with the number of their modules and of the dynamic calls in these.
pub fn find_faults(alloc: Global, ask: &BuildAsk, files: &FileMap) -> Result<AllFaults, AllocError>
    ensures exact { IfOk result (AreFaults ask.now files.now) }
{
    faults(alloc, files, ask.options(), ask.entries())
}
