//! The fresh graph of a snapshot, or its faults.
ghost use Rattle.std.specs.Prelude.{◌≡◌, ◌≤◌, ◌⊎◌, filter, length, IfOk};
ghost use Rattle.std.specs.List.{IsDistinct};
ghost use Rattle.std.specs.List.Sorted.{IsStrictlySortedBy};
ghost use Rattle.std.specs.Ordering.{nat_cmp};
ghost use Rattle.std.specs.Cmp.Lexicographic.{slice_cmp};
ghost use Rattle.std.specs.FinMap as map;
ghost use Rattle.std.specs.Str.{bytes_eq};
ghost use Rattle.mt_files.specs.Snapshots.{has_source};
ghost use Rattle.mt_files.specs.Fresh.{all_faults, max_modules};
ghost use Rattle.mt_files.specs.Reach.{reach};
ghost use Rattle.mt_graph.specs.Explored.{IsExploration, explored};
ghost use Rattle.mt_graph.specs.Founds.{paths_of};
ghost use Rattle.mt_graph.specs.Graphs.{fresh_graph};
ghost use Rattle.mt_fresh.specs.JudgedGraphs.{IsGraphOf};
ghost use Rattle.mt_fresh.specs.Calls.{calls_in, calls_made, dynamic_calls};

use crate::traversal::Traversal;
use mt_files::{BuildFault, FileMap};
use mt_graph::{Explorer, FaultList, Found, FoundList, Graph, MAX_MODULES, faults_found, judge};
use mt_package::Options;
use mt_path::{Path, PathList, PathSet};
use mt_tokens::{Shared, SourceFault};
use mt_transform::Output;
use std::alloc::{AllocError, Global};

/// The entries that are sources.
fn sources_among(alloc: Global, files: &FileMap, entries: &[Path]) -> Result<PathList, AllocError>
    ensures exact { IfOk result (λ sources. sources ≡ filter (has_source files.now) entries.now) }
{
    let mut sources = PathList::new(alloc);
    for entry in entries {
        if files.source(entry).is_some() {
            sources.push(entry.clone()?)?;
        }
    }
    Ok(sources)
}

/// What an explorer finds from the entries that are sources.
fn explore_entries<X: Explorer>(
    alloc: Global,
    explorer: &mut X,
    files: &FileMap,
    options: &Options,
    entries: &[Path],
) -> Result<FoundList, AllocError>
    ensures exact { X.sure explorer.old → IfOk result (λ founds. founds ≡ explored options.now files.now (filter (has_source files.now) entries.now) map.empty) }
    ensures whole { IfOk result (IsExploration options.now files.now (filter (has_source files.now) entries.now) map.empty) }
    ensures kept { X.sure explorer.old → X.sure explorer.new }
{
    let sources = sources_among(alloc, files, entries)?;
    explorer.explore(
        alloc,
        files,
        options,
        sources.as_slice(),
        &PathSet::new(alloc),
    )
}

/// The graph of a snapshot from its entries, or its first fault, by what an explorer finds: too many modules, or else the
/// fault with the least path and place among the missing entries and the faults of the modules reached. Where the explorer
/// is sure it is the fresh graph. Else its modules are still sources, and the entries are among them.
pub fn traverse_by<X: Explorer>(
    alloc: Global,
    explorer: &mut X,
    files: &FileMap,
    options: &Options,
    entries: &[Path],
) -> Result<Graph, BuildFault>
    requires some { 1 ≤ length entries.now }
    requires most { length entries.now ≤ 16 }
    requires distinct { IsDistinct bytes_eq entries.now }
    ensures exact { X.sure explorer.old → (result ≡ Err BuildFault.NoMemory) ⊎ (result ≡ fresh_graph (record { options = options.now; entries = entries.now }) files.now) }
    ensures graph { IfOk result (IsGraphOf (record { options = options.now; entries = entries.now }) files.now) }
    ensures kept { X.sure explorer.old → X.sure explorer.new }
{
    let founds = explore_entries(alloc, explorer, files, options, entries)?;
    judge(alloc, entries, founds)
}

/// The fresh graph of a snapshot from its entries, or its first fault: too many modules, or else the fault with the
/// least path and place among the missing entries and the faults of the modules reached.
pub fn traverse(
    alloc: Global,
    files: &FileMap,
    options: &Options,
    entries: &[Path],
) -> Result<Graph, BuildFault>
    requires some { 1 ≤ length entries.now }
    requires most { length entries.now ≤ 16 }
    requires distinct { IsDistinct bytes_eq entries.now }
    ensures exact { (result ≡ Err BuildFault.NoMemory) ⊎ (result ≡ fresh_graph (record { options = options.now; entries = entries.now }) files.now) }
{
    traverse_by(alloc, &mut Traversal, files, options, entries)
}

/// How many calls of what a source became name what only a run can tell: none after a refusal.
fn calls_made(made: &Result<Shared<Output>, SourceFault>) -> u32
    ensures exact { result ≡ calls_made made.now }
{
    match made {
        Ok(output) => output.dynamic(),
        Err(_) => 0,
    }
}

/// How many calls in the modules found name what only a run can tell.
fn calls_in(founds: &[Found]) -> u64
    requires few { length founds.now ≤ max_modules }
    ensures exact { result ≡ calls_in founds.now }
{
    let mut calls = 0;
    for found in founds {
        calls += calls_made(&found.made) as u64;
    }
    calls
}

/// How many calls in the modules found name what only a run can tell. None is counted where there are too many modules.
fn calls_of(founds: &FoundList) -> u64
    ensures exact { length founds.now ≤ max_modules → result ≡ calls_in founds.now }
{
    if founds.len() > MAX_MODULES {
        return 0;
    }
    calls_in(founds.as_slice())
}

/// All faults of a snapshot from its entries, and how many modules and dynamic calls it has.
#[derive(Drop)]
pub struct AllFaults {
    /// All faults, by ascending path and place; too many modules alone.
    pub list: FaultList,
    /// How many modules the entries reach.
    pub modules: usize,
    /// How many calls in these modules name what only a run can tell. None is counted where there are too many modules.
    pub calls: u64,
}

/// All faults of a snapshot from its entries, by ascending path and place, or too many modules alone; and how many modules
/// the entries reach, and how many of the calls in these name what only a run can tell. Refused only where memory runs out.
pub fn faults(
    alloc: Global,
    files: &FileMap,
    options: &Options,
    entries: &[Path],
) -> Result<AllFaults, AllocError>
    requires some { 1 ≤ length entries.now }
    requires most { length entries.now ≤ 16 }
    requires distinct { IsDistinct bytes_eq entries.now }
    ensures exact { IfOk result (λ faults. faults.list ≡ all_faults (record { options = options.now; entries = entries.now }) files.now) }
    ensures modules { IfOk result (λ faults. faults.modules ≡ length (reach (record { options = options.now; entries = entries.now }) files.now)) }
    ensures calls { IfOk result (λ faults. faults.modules ≤ max_modules → faults.calls ≡ dynamic_calls (record { options = options.now; entries = entries.now }) files.now) }
{
    let founds = explore_entries(alloc, &mut Traversal, files, options, entries)?;
    let modules = founds.len();
    let calls = calls_of(&founds);
    let list = faults_found(alloc, entries, founds)?;
    Ok(AllFaults {
        list,
        modules,
        calls,
    })
}
