//! A graph with some lists changed.
ghost use Rattle.std.specs.Prelude.{◌≡◌, ℕ, ◌+◌, ◌^◌, ◌<◌, ◌≤◌, length, nat_eq, OnOk, IfOk};
ghost use Rattle.std.specs.List.{All, list_any};
ghost use Rattle.std.specs.List.Sorted.{IsStrictlySortedBy};
ghost use Rattle.std.specs.Ordering.{nat_cmp};
ghost use Rattle.std.specs.FinMap as map;
ghost use Rattle.mt_refs.specs.Lists.{times};
ghost use Rattle.mt_refs.specs.Graphs.{IsClosed, IsLive, count, edge_total, edges_from};
ghost use Rattle.mt_refs.specs.Patches.{filled, nodes_of, overlaid, sum_now, sum_then};
ghost use Rattle.mt_refs.specs.Overlays.{count_in};

use crate::changes::{count_down, count_of, count_up};
use crate::patch::{EdgeList, Patch};
use crate::search::is_among;
use crate::steps::Steps;
use crate::table::Table;
use mt_containers::{List, NumberMap};
use std::alloc::{AllocError, Global};
use std::marker::Model;
use std::sync::ledger::Ledger;

/// A graph with some of its lists changed, and with other pins. The graph below is only read.
#[derive(Drop)]
pub struct Overlay<'g> {
    table: &'g Table,
    lists: NumberMap<EdgeList>,
    counts: NumberMap<u32>,
    pins: List<u32>,
}

impl<'g> Model for Overlay<'g> {
    ghost use Rattle.mt_refs.specs.Graphs.{Graph, coded_graph};
    ghost use Rattle.mt_refs.specs.Overlays.{IsLaid, laid};

    ghost Value = { Graph };

    ghost coded = { coded_graph };

    ghost view = { λ o. laid o.table.now o.lists o.pins };

    ghost invariant = { λ o. IsLaid o.table.now o.lists o.counts o.pins };
}

impl<'g> Overlay<'g> {
    /// Whether a node is live.
    pub fn is_live(&self, node: u32) -> bool
        ensures live { result ≡ map.contains_key self.now.edges node }
    {
        self.lists.contains(node) || self.table.is_live(node)
    }

    /// Whether a node is pinned.
    pub fn is_pinned(&self, node: u32) -> bool
        ensures pinned { result ≡ list_any (nat_eq node) self.now.pins }
    {
        is_among(self.pins.as_slice(), node)
    }

    /// The edges of a live node, in their order. It ticks once, and once for each edge.
    pub fn edges<L: Ledger>(&self, node: u32, steps: &mut Steps<L>) -> &[u32]
        requires live { IsLive self.now node }
        ensures edges { result.now ≡ edges_from self.now node }
        ensures closed { All (IsLive self.now) result.now }
        ensures cost { steps.new ≡ steps.old + 1 + length result.now }
    {
        match self.lists.get(node) {
            Some(list) => steps.read(list.as_slice()),
            None => self.table.edges(node, steps),
        }
    }

    /// How many edges lead to a live node, and one more where it is pinned. It ticks once.
    pub fn count<L: Ledger>(&self, node: u32, steps: &mut Steps<L>) -> u32
        requires live { IsLive self.now node }
        ensures count { result ≡ count self.now node }
        ensures cost { steps.new ≡ steps.old + 1 }
    {
        steps.tick();
        count_of(&self.counts, self.table, node)
    }
}

/// The counts of the graph without the edges from the nodes that are set.
fn counts_without<L: Ledger>(
    alloc: Global,
    table: &Table,
    set: &[(u32, EdgeList)],
    steps: &mut Steps<L>,
) -> Result<NumberMap<u32>, AllocError>
    requires ascending { IsStrictlySortedBy nat_cmp (nodes_of set.now) }
    ensures counts { IfOk result (λ counts. (n : ℕ) → count_in counts table.now n + sum_now (times n) table.now.edges set.now ≡ count table.now n) }
    ensures cost { steps.new ≤ steps.old + length set.now + sum_now (λ targets. length targets) table.now.edges set.now }
{
    let mut counts = NumberMap::new(alloc);
    for one in set {
        count_down(&mut counts, table, table.edges(one.0, steps))?;
    }
    Ok(counts)
}

/// Counts the edges of the lists that are set.
fn count_lists(
    counts: &mut NumberMap<u32>,
    table: &Table,
    set: &[(u32, EdgeList)],
) -> Result<(), AllocError>
    requires room { (n : ℕ) → count_in counts.old table.now n + sum_then (times n) set.now < 2 ^ 32 }
    ensures up { OnOk result ((n : ℕ) → count_in counts.new table.now n ≡ count_in counts.old table.now n + sum_then (times n) set.now) }
{
    for one in set {
        count_up(counts, table, one.1.as_slice())?;
    }
    Ok(())
}

/// Counts other targets in place of those before.
fn recount(
    counts: &mut NumberMap<u32>,
    table: &Table,
    before: &[u32],
    after: &[u32],
) -> Result<(), AllocError>
    requires counted { (n : ℕ) → times n before.now ≤ count_in counts.old table.now n }
    requires room { (n : ℕ) → count_in counts.old table.now n + times n after.now < 2 ^ 32 + times n before.now }
    ensures moved { OnOk result ((n : ℕ) → count_in counts.new table.now n + times n before.now ≡ count_in counts.old table.now n + times n after.now) }
{
    count_down(counts, table, before)?;
    count_up(counts, table, after)
}

/// The lists that are set, by their nodes.
fn by_node(alloc: Global, set: List<(u32, EdgeList)>) -> Result<NumberMap<EdgeList>, AllocError>
    ensures lists { IfOk result (λ lists. lists ≡ filled set map.empty) }
{
    let mut set = set;
    let mut lists = NumberMap::new(alloc);
    while let Some((node, targets)) = set.pop() {
        lists.insert(node, targets)?;
    }
    Ok(lists)
}

/// Lays a patch over a graph. It ticks for the edges from the nodes that are set.
pub fn lay<'g, L: Ledger>(
    alloc: Global,
    table: &'g Table,
    patch: Patch,
    steps: &mut Steps<L>,
) -> Result<Overlay<'g>, AllocError>
    requires ascending { IsStrictlySortedBy nat_cmp (nodes_of patch.set) }
    requires pins { IsStrictlySortedBy nat_cmp patch.pins }
    requires closed { IsClosed (overlaid table.now patch.set patch.pins) }
    requires few { edge_total (overlaid table.now patch.set patch.pins).edges + 1 < 2 ^ 32 }
    ensures graph { IfOk result (λ overlay. overlay ≡ overlaid table.now patch.set patch.pins) }
    ensures cost { steps.new ≤ steps.old + length patch.set + sum_now (λ targets. length targets) table.now.edges patch.set }
{
    let Patch { set, pins } = patch;
    let before = table.pins();
    let mut counts = counts_without(alloc, table, set.as_slice(), steps)?;
    count_lists(&mut counts, table, set.as_slice())?;
    recount(&mut counts, table, before, pins.as_slice())?;
    let lists = by_node(alloc, set)?;
    Ok(Overlay {
        table,
        lists,
        counts,
        pins,
    })
}
