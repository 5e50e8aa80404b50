//! What the tests of graphs share: shapes, checked at run time for what the calls ask for.
ghost use Rattle.std.specs.Prelude.{◌≡◌, ℕ, ◌+◌, ◌^◌, ◌<◌, ◌||◌, IfOk, IsTrue};
ghost use Rattle.std.specs.List.{All};
ghost use Rattle.std.specs.FinMap as map;
ghost use Rattle.mt_refs.specs.Graphs.{IsClosed, edge_total};
ghost use Rattle.checks_live.specs.Shapes.{AreInside, IsMerged, shown};

use mt_containers::{List, NumberMap, NumberSet};
use mt_refs::{EdgeList, Overlay, Patch, RefGraph, Settled, Steps};
use std::alloc::{AllocError, Global};
use std::sync::ledger::Ledger;
use std::test::Fail;

/// The lists of the live nodes, and the pinned nodes.
#[derive(Drop)]
pub(crate) struct Shape {
    pub(crate) edges: NumberMap<EdgeList>,
    pub(crate) pins: NumberSet,
}

/// These numbers as a list.
pub(crate) fn list(alloc: Global, numbers: &[u32]) -> Result<List<u32>, Fail>
    ensures same { IfOk result (λ list. list ≡ numbers.now) }
{
    Ok(List::from_slice(alloc, numbers)?)
}

/// These nodes with their lists.
pub(crate) fn lists(alloc: Global, rows: &[(u32, &[u32])]) -> Result<NumberMap<EdgeList>, Fail> {
    let mut edges = NumberMap::new(alloc);
    for (node, targets) in rows {
        edges.insert(*node, List::from_slice(alloc, targets)?)?;
    }
    Ok(edges)
}

/// These numbers as a set.
pub(crate) fn set(alloc: Global, numbers: &[u32]) -> Result<NumberSet, Fail> {
    let mut set = NumberSet::new(alloc);
    for number in numbers {
        set.insert(*number, ())?;
    }
    Ok(set)
}

/// These lists and pins.
pub(crate) fn shape_of(alloc: Global, rows: &[(u32, &[u32])], pins: &[u32]) -> Result<Shape, Fail> {
    Ok(Shape {
        edges: lists(alloc, rows)?,
        pins: set(alloc, pins)?,
    })
}

/// The numbers of a set, ascending.
pub(crate) fn numbers(alloc: Global, set: &NumberSet) -> Result<List<u32>, AllocError>
    ensures numbers { IfOk result (λ list. list ≡ map.keys set.now) }
{
    let mut list = List::new(alloc);
    for number in set.keys() {
        list.push(*number)?;
    }
    Ok(list)
}

/// The nodes with their lists, ascending.
pub(crate) fn rows(
    alloc: Global,
    edges: &NumberMap<EdgeList>,
) -> Result<List<(u32, EdgeList)>, AllocError>
    ensures rows { IfOk result (λ rows. rows ≡ map.entries edges.now) }
{
    let mut rows = List::new(alloc);
    for (node, targets) in edges {
        rows.push((*node, targets.clone()?))?;
    }
    Ok(rows)
}

/// Whether each of some nodes is live.
pub(crate) fn are_inside(edges: &NumberMap<EdgeList>, nodes: &[u32]) -> bool
    ensures inside { IsTrue result → AreInside edges.now nodes.now }
{
    for node in nodes {
        if !edges.contains(*node) {
            return false;
        }
    }
    true
}

/// Whether each pin is live.
fn are_pins_inside(edges: &NumberMap<EdgeList>, pins: &NumberSet) -> bool
    ensures inside { IsTrue result → AreInside edges.now (map.keys pins.now) }
{
    for pin in pins.keys() {
        if !edges.contains(*pin) {
            return false;
        }
    }
    true
}

/// Whether each edge leads to a live node.
fn are_lists_inside(edges: &NumberMap<EdgeList>) -> bool
    ensures inside { IsTrue result → All (λ row. AreInside edges.now row.1) (map.entries edges.now) }
{
    for (_node, targets) in edges {
        if !are_inside(edges, targets.as_slice()) {
            return false;
        }
    }
    true
}

/// Whether no edge and no pin leads out.
pub(crate) fn is_closed(shape: &Shape) -> bool
    ensures closed { IsTrue result → (spare : ℕ) → IsClosed (shown shape.now.edges (map.keys shape.now.pins) spare) }
{
    if !are_lists_inside(&shape.edges) {
        return false;
    }
    are_pins_inside(&shape.edges, &shape.pins)
}

/// Whether there are few edges.
pub(crate) fn is_few(edges: &NumberMap<EdgeList>) -> bool
    ensures few { IsTrue result → edge_total edges.now + 1 < 2 ^ 32 }
{
    let mut total = 0usize;
    for (_node, targets) in edges {
        let len = targets.len();
        if len > 1_000_000_000 - total {
            return false;
        }
        total += len;
    }
    true
}

/// The graph of a shape.
pub(crate) fn graph_of(alloc: Global, shape: &Shape) -> Result<RefGraph, Fail>
    ensures edges { IfOk result (λ graph. graph.edges ≡ shape.now.edges) }
{
    if !is_closed(shape) {
        return Err(Fail::new("an edge or a pin leads out"));
    }
    if !is_few(&shape.edges) {
        return Err(Fail::new("there are too many edges"));
    }
    let mut graph = RefGraph::new(alloc);
    let settled = Settled {
        set: rows(alloc, &shape.edges)?,
        pins: numbers(alloc, &shape.pins)?,
        dead: List::new(alloc),
    };
    graph.reserve(&settled)?;
    graph.commit(settled);
    Ok(graph)
}

/// The lists that are changed, and the others as they are.
pub(crate) fn merged(
    alloc: Global,
    edges: &NumberMap<EdgeList>,
    change: &NumberMap<EdgeList>,
) -> Result<NumberMap<EdgeList>, AllocError>
    ensures merged { IfOk result (λ merged. IsMerged merged change.now edges.now) }
{
    let mut merged = change.clone()?;
    for (node, targets) in edges {
        if !merged.contains(*node) {
            merged.insert(*node, targets.clone()?)?;
        }
    }
    Ok(merged)
}

/// The overlay of a graph by the lists that are changed, which then has a shape.
pub(crate) fn overlay_of<'g, L: Ledger>(
    alloc: Global,
    graph: &'g RefGraph,
    change: &NumberMap<EdgeList>,
    shape: &Shape,
    steps: &mut Steps<L>,
) -> Result<Overlay<'g>, Fail>
    requires merged { IsMerged shape.now.edges change.now graph.now.edges }
    ensures edges { IfOk result (λ overlay. overlay.edges ≡ shape.now.edges) }
    ensures pins { IfOk result (λ overlay. overlay.pins ≡ map.keys shape.now.pins) }
{
    if !is_closed(shape) {
        return Err(Fail::new("an edge or a pin leads out"));
    }
    if !is_few(&shape.edges) {
        return Err(Fail::new("there are too many edges"));
    }
    let patch = Patch {
        set: rows(alloc, change)?,
        pins: numbers(alloc, &shape.pins)?,
    };
    Ok(graph.overlay(alloc, patch, steps)?)
}
