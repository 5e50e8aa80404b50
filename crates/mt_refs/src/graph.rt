//! The graph.
ghost use Rattle.std.specs.Prelude.{◌≡◌, ℕ, ◌+◌, ◌^◌, ◌<◌, ◌≤◌, length, [], nat_eq, OnOk, OnErr, IfOk};
ghost use Rattle.std.specs.List.{All, list_any, sum_by};
ghost use Rattle.std.specs.List.Sorted.{IsStrictlySortedBy};
ghost use Rattle.std.specs.Ordering.{nat_cmp};
ghost use Rattle.std.specs.FinMap as map;
ghost use Rattle.mt_refs.specs.Graphs.{IsClosed, IsLive, count, edge_total, edges_from};
ghost use Rattle.mt_refs.specs.Patches.{committed, nodes_of, overlaid, sum_now};

use crate::overlay::{Overlay, lay};
use crate::patch::{Patch, Settled};
use crate::search::is_among;
use crate::steps::Steps;
use crate::table::Table;
use std::alloc::{AllocError, Global};
use std::marker::Model;
use std::sync::ledger::Ledger;

/// Live nodes with the lists of their edges, and pinned nodes. Each edge leads to a live node, and each pin is live.
#[derive(Drop)]
pub struct RefGraph {
    table: Table,
}

impl Model for RefGraph {
    ghost use Rattle.mt_refs.specs.Graphs.{Graph, IsSound, coded_graph};

    ghost Value = { Graph };

    ghost coded = { coded_graph };

    ghost view = { λ g. g.table };

    ghost invariant = { λ g. IsSound g.table };
}

impl RefGraph {
    /// No node.
    pub fn new(alloc: Global) -> RefGraph
        ensures empty { result ≡ record { edges = map.empty; pins = []; spare = 0 } }
    {
        RefGraph {
            table: Table::new(alloc),
        }
    }

    /// Whether a node is live.
    pub fn is_live(&self, node: u32) -> bool
        ensures live { result ≡ map.contains_key self.now.edges node }
    {
        self.table.is_live(node)
    }

    /// Whether a node is pinned.
    pub fn is_pinned(&self, node: u32) -> bool
        ensures pinned { result ≡ list_any (nat_eq node) self.now.pins }
    {
        is_among(self.table.pins(), node)
    }

    /// The edges of a live node, in their order. It ticks once, and once for each edge.
    pub fn edges<L: Ledger>(&self, node: u32, steps: &mut Steps<L>) -> &[u32]
        requires live { IsLive self.now node }
        ensures edges { result.now ≡ edges_from self.now node }
        ensures closed { All (IsLive self.now) result.now }
        ensures cost { steps.new ≡ steps.old + 1 + length result.now }
    {
        self.table.edges(node, steps)
    }

    /// How many edges lead to a live node, and one more where it is pinned. It ticks once.
    pub fn count<L: Ledger>(&self, node: u32, steps: &mut Steps<L>) -> u32
        requires live { IsLive self.now node }
        ensures count { result ≡ count self.now node }
        ensures cost { steps.new ≡ steps.old + 1 }
    {
        steps.tick();
        self.table.count(node)
    }

    /// The graph with other lists and pins. The graph stays as it is. It ticks once for each node that is set, and once for
    /// each edge from such a node in the graph.
    pub fn overlay<'g, L: Ledger>(
        &'g self,
        alloc: Global,
        patch: Patch,
        steps: &mut Steps<L>,
    ) -> Result<Overlay<'g>, AllocError>
        requires ascending { IsStrictlySortedBy nat_cmp (nodes_of patch.set) }
        requires pins { IsStrictlySortedBy nat_cmp patch.pins }
        requires closed { IsClosed (overlaid self.now patch.set patch.pins) }
        requires few { edge_total (overlaid self.now patch.set patch.pins).edges + 1 < 2 ^ 32 }
        ensures graph { IfOk result (λ overlay. overlay ≡ overlaid self.now patch.set patch.pins) }
        ensures cost { steps.new ≤ steps.old + length patch.set + sum_now (λ targets. length targets) self.now.edges patch.set }
    {
        lay(alloc, &self.table, patch, steps)
    }

    /// Makes room for each node that is set. After an `Err` the graph is as it was.
    pub fn reserve(&mut self, settled: &Settled) -> Result<(), AllocError>
        ensures edges { self.new.edges ≡ self.old.edges }
        ensures pins { self.new.pins ≡ self.old.pins }
        ensures room { self.old.spare ≤ self.new.spare }
        ensures ok { OnOk result (All (λ s. s.0 < self.new.spare) settled.now.set) }
        ensures err { OnErr result (self.new ≡ self.old) }
    {
        self.table.reserve(settled.rows())
    }

    /// Sets lists, pins nodes in place of those before, and removes the dead nodes. It takes no memory.
    pub fn commit(&mut self, settled: Settled)
        requires nodes { All (λ s. s.0 < self.old.spare) settled.set }
        requires ascending { IsStrictlySortedBy nat_cmp (nodes_of settled.set) }
        requires pins { IsStrictlySortedBy nat_cmp settled.pins }
        requires dead { All (IsLive self.old) settled.dead }
        requires closed { IsClosed (committed self.old settled.set settled.pins settled.dead) }
        requires few { edge_total (committed self.old settled.set settled.pins settled.dead).edges + 1 < 2 ^ 32 }
        ensures graph { self.new ≡ committed self.old settled.set settled.pins settled.dead }
    {
        self.table.commit(settled);
    }
}
