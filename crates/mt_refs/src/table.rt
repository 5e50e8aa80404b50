//! The graph by rows.
ghost use Rattle.std.specs.Prelude.{◌≡◌, ℕ, ◌+◌, ◌^◌, ◌<◌, ◌≤◌, length, Option, IsTrue, [], IfSome, nat_eq, OnOk, OnErr};
ghost use Rattle.std.specs.List.{All, list_any};
ghost use Rattle.std.specs.List.Sorted.{IsStrictlySortedBy};
ghost use Rattle.std.specs.Ordering.{nat_cmp};
ghost use Rattle.std.specs.FinMap as map;
ghost use Rattle.mt_refs.specs.Lists.{targets_in};
ghost use Rattle.mt_refs.specs.Graphs.{count, edge_total, edges_from};
ghost use Rattle.mt_refs.specs.Patches.{committed, filled, nodes_of, removed, size_of, with_list};

use crate::counts::{grow, recount, set_list, targets_of};
use crate::patch::{EdgeList, Settled};
use crate::steps::Steps;
use mt_containers::List;
use std::alloc::{AllocError, Global};
use std::marker::Model;
use std::sync::ledger::Ledger;

/// A row for each number: the list of the node, if it is live, and the count of the edges that lead to it. The rows from
/// `spare` on are empty.
#[derive(Drop)]
pub struct Table {
    lists: Vec<Option<EdgeList>>,
    counts: Vec<u32>,
    pins: List<u32>,
    spare: usize,
}

impl Model for Table {
    ghost use Rattle.mt_refs.specs.Graphs.{Graph, coded_graph};
    ghost use Rattle.mt_refs.specs.Tables.{IsKept, graph_of};

    ghost Value = { Graph };

    ghost coded = { coded_graph };

    ghost view = { λ t. graph_of t.lists.items t.pins t.spare };

    ghost invariant = { λ t. IsKept t.lists.items t.counts.items t.pins t.spare };
}

impl Table {
    /// No node.
    pub fn new(alloc: Global) -> Table
        ensures empty { result ≡ record { edges = map.empty; pins = []; spare = 0 } }
    {
        Table {
            lists: Vec::new(alloc),
            counts: Vec::new(alloc),
            pins: List::new(alloc),
            spare: 0,
        }
    }

    /// Whether a node is live.
    pub fn is_live(&self, node: u32) -> bool
        ensures live { result ≡ map.contains_key self.now.edges node }
    {
        let node = node as usize;
        node < self.lists.len() && self.lists[node].is_some()
    }

    /// The pins, ascending.
    pub fn pins(&self) -> &[u32]
        ensures pins { result.now ≡ self.now.pins }
        ensures ascending { IsStrictlySortedBy nat_cmp self.now.pins }
    {
        self.pins.as_slice()
    }

    /// The edges from a node, none where it isn't live.
    fn targets(&self, node: usize) -> &[u32]
        ensures targets { result.now ≡ edges_from self.now node }
    {
        if node < self.lists.len() {
            targets_of(&self.lists[node])
        } else {
            &[]
        }
    }

    /// The edges from a node, none where it isn't live. It ticks once, and once for each edge.
    pub fn edges<L: Ledger>(&self, node: u32, steps: &mut Steps<L>) -> &[u32]
        ensures edges { result.now ≡ edges_from self.now node }
        ensures cost { steps.new ≡ steps.old + 1 + length result.now }
    {
        steps.read(self.targets(node as usize))
    }

    /// How many edges lead to a node, and one more where it is pinned.
    pub fn count(&self, node: u32) -> u32
        ensures count { result ≡ count self.now node }
    {
        let node = node as usize;
        if node < self.counts.len() {
            self.counts[node]
        } else {
            0
        }
    }

    /// Makes room for this many rows. After an `Err` the graph is as it was.
    pub fn reserve(&mut self, rows: usize) -> Result<(), AllocError>
        ensures edges { self.new.edges ≡ self.old.edges }
        ensures pins { self.new.pins ≡ self.old.pins }
        ensures room { self.old.spare ≤ self.new.spare }
        ensures ok { OnOk result (rows ≤ self.new.spare) }
        ensures err { OnErr result (self.new ≡ self.old) }
    {
        grow(&mut self.lists, &mut self.counts, rows)?;
        self.spare = self.spare.max(rows);
        Ok(())
    }

    /// Gives a node another list, or none.
    fn set_edges(&mut self, node: u32, list: Option<EdgeList>)
        requires node { node < self.old.spare }
        requires targets { All (λ t. t < self.old.spare) (targets_in list) }
        requires few { IfSome list (λ targets. edge_total self.old.edges + length targets + 1 < 2 ^ 32) }
        ensures edges { self.new ≡ record { edges = with_list self.old.edges node list; pins = self.old.pins; spare = self.old.spare } }
        ensures total { edge_total self.new.edges + length (edges_from self.old node) ≡ edge_total self.old.edges + length (targets_in list) }
    {
        set_list(
            self.lists.as_mut_slice(),
            self.counts.as_mut_slice(),
            node as usize,
            list,
        );
    }

    /// Removes nodes.
    fn remove_all(&mut self, nodes: &[u32])
        requires nodes { All (λ n. n < self.old.spare) nodes.now }
        ensures graph { self.new ≡ record { edges = removed nodes.now self.old.edges; pins = self.old.pins; spare = self.old.spare } }
    {
        for node in nodes {
            self.set_edges(*node, None);
        }
    }

    /// Removes the nodes that get other lists.
    fn empty_set(&mut self, set: &[(u32, EdgeList)])
        requires nodes { All (λ s. s.0 < self.old.spare) set.now }
        ensures graph { self.new ≡ record { edges = removed (nodes_of set.now) self.old.edges; pins = self.old.pins; spare = self.old.spare } }
    {
        for one in set {
            self.set_edges(one.0, None);
        }
    }

    /// Sets lists.
    fn fill(&mut self, set: List<(u32, EdgeList)>)
        requires nodes { All (λ s. s.0 < self.old.spare) set }
        requires targets { All (λ s. All (λ t. t < self.old.spare) s.1) set }
        requires few { edge_total self.old.edges + size_of set + 1 < 2 ^ 32 }
        ensures graph { self.new ≡ record { edges = filled set self.old.edges; pins = self.old.pins; spare = self.old.spare } }
    {
        let mut set = set;
        while let Some((node, targets)) = set.pop() {
            self.set_edges(node, Some(targets));
        }
    }

    /// Pins these nodes in place of those before.
    fn set_pins(&mut self, pins: List<u32>)
        requires pins { All (λ n. n < self.old.spare) pins }
        requires ascending { IsStrictlySortedBy nat_cmp pins }
        ensures graph { self.new ≡ record { edges = self.old.edges; pins = pins; spare = self.old.spare } }
    {
        recount(
            self.counts.as_mut_slice(),
            self.pins.as_slice(),
            pins.as_slice(),
        );
        self.pins = pins;
    }

    /// Sets lists, pins nodes in place of those before, and removes the dead nodes. It takes no memory.
    pub fn commit(&mut self, settled: Settled)
        requires nodes { All (λ s. s.0 < self.old.spare) settled.set }
        requires ascending { IsStrictlySortedBy nat_cmp (nodes_of settled.set) }
        requires targets { All (λ s. All (λ t. t < self.old.spare) s.1) settled.set }
        requires pins { All (λ n. n < self.old.spare) settled.pins }
        requires pins_ascending { IsStrictlySortedBy nat_cmp settled.pins }
        requires dead { All (λ n. n < self.old.spare) settled.dead }
        requires few { edge_total (committed self.old settled.set settled.pins settled.dead).edges + 1 < 2 ^ 32 }
        ensures graph { self.new ≡ committed self.old settled.set settled.pins settled.dead }
    {
        let Settled { set, pins, dead } = settled;
        self.empty_set(set.as_slice());
        self.remove_all(dead.as_slice());
        self.fill(set);
        self.set_pins(pins);
    }
}
