//! Trial deletion.
ghost use Rattle.std.specs.Prelude.{◌≡◌, ℕ, ◌++◌, ◌<◌, ◌||◌, IfOk, OnOk, IsTrue};
ghost use Rattle.std.specs.FinMap as map;
ghost use Rattle.mt_containers.specs.Walks.{IsReached};
ghost use Rattle.checks_live.specs.Shapes.{IsCovered, IsMerged, targets_by};

use crate::common::{
    Shape, are_inside, graph_of, list, lists, merged, numbers, overlay_of, set, shape_of,
};
use mt_containers::{List, NumberMap, NumberSet};
use mt_refs::{EdgeList, Overlay, RefGraph, Steps};
use mt_trial::dead;
use std::alloc::{AllocError, Global};
use std::marker::Brand;
use std::sync::ledger::{Blank, Ledger};
use std::test::Fail;

/// Adds numbers at the end.
fn push_all(stack: &mut List<u32>, numbers: &[u32]) -> Result<(), AllocError>
    ensures ok { OnOk result (stack.new ≡ stack.old ++ numbers.now) }
{
    for number in numbers {
        stack.push(*number)?;
    }
    Ok(())
}

/// The targets of a node's edges, none where it isn't live.
fn targets_of(edges: &NumberMap<EdgeList>, node: u32) -> &[u32]
    ensures targets { result.now ≡ targets_by edges.now node }
{
    match edges.get(node) {
        Some(targets) => targets.as_slice(),
        None => &[],
    }
}

/// Nodes that walks from some nodes reach: all of them, unless there are too many.
fn reach(
    alloc: Global,
    edges: &NumberMap<EdgeList>,
    starts: &[u32],
) -> Result<NumberSet, AllocError>
    ensures reached { IfOk result (λ reached. (n : ℕ) → IsTrue (map.contains_key reached n) → IsReached (targets_by edges.now) starts.now n) }
{
    let mut reached = NumberSet::new(alloc);
    let mut stack = List::from_slice(alloc, starts)?;
    for _turn in 0..u32::MAX {
        let Some(node) = stack.pop() else {
            return Ok(reached);
        };
        if reached.contains(node) {
            continue;
        }
        reached.insert(node, ())?;
        push_all(&mut stack, targets_of(edges, node))?;
    }
    Ok(reached)
}

/// Whether a node is in one of two sets.
fn is_in_either(first: &NumberSet, second: &NumberSet, node: u32) -> bool
    ensures either { result ≡ (map.contains_key first.now node || map.contains_key second.now node) }
{
    first.contains(node) || second.contains(node)
}

/// Whether each live node is in one of two sets.
fn are_in_either(edges: &NumberMap<EdgeList>, first: &NumberSet, second: &NumberSet) -> bool
    ensures each { IsTrue result → (n : ℕ) → IsTrue (map.contains_key edges.now n) → IsTrue (map.contains_key first.now n || map.contains_key second.now n) }
{
    for node in edges.keys() {
        if !is_in_either(first, second, *node) {
            return false;
        }
    }
    true
}

/// Whether each node that no pin reaches is reached from a candidate.
fn is_covered(alloc: Global, shape: &Shape, candidates: &[u32]) -> Result<bool, AllocError>
    ensures covered { IfOk result (λ covered. IsTrue covered → IsCovered shape.now.edges (map.keys shape.now.pins) candidates.now) }
{
    let pins = numbers(alloc, &shape.pins)?;
    let held = reach(alloc, &shape.edges, pins.as_slice())?;
    let found = reach(alloc, &shape.edges, candidates)?;
    Ok(are_in_either(&shape.edges, &found, &held))
}

/// The dead of an overlay that has a shape.
fn dead_in<L: Ledger>(
    alloc: Global,
    overlay: &Overlay<'_>,
    shape: &Shape,
    candidates: &[u32],
    steps: &mut Steps<L>,
) -> Result<List<u32>, Fail>
    requires edges { overlay.now.edges ≡ shape.now.edges }
    requires pins { overlay.now.pins ≡ map.keys shape.now.pins }
{
    if !are_inside(&shape.edges, candidates) {
        return Err(Fail::new("a candidate is not live"));
    }
    let covered = is_covered(alloc, shape, candidates)?;
    if !covered {
        return Err(Fail::new("the candidates are not enough"));
    }
    Ok(dead(alloc, overlay, candidates, steps)?)
}

/// The dead of a graph by a change that gives it a shape.
fn dead_by<L: Ledger>(
    alloc: Global,
    blank: Blank,
    graph: &RefGraph,
    change: &NumberMap<EdgeList>,
    after: &Shape,
    candidates: &[u32],
) -> Result<List<u32>, Fail>
    requires name { blank.name ≡ L.name }
    requires parts { blank.parts ≡ L.parts }
    requires some { 0 < blank.parts }
    requires merged { IsMerged after.now.edges change.now graph.now.edges }
{
    let mut steps = Steps::<L>::new(blank);
    let overlay = overlay_of(alloc, graph, change, after, &mut steps)?;
    dead_in(alloc, &overlay, after, candidates, &mut steps)
}

/// The dead of a graph once some lists are changed.
fn dead_after(
    alloc: Global,
    before: &Shape,
    change: &NumberMap<EdgeList>,
    pins: NumberSet,
    candidates: &[u32],
) -> Result<List<u32>, Fail> {
    let graph = graph_of(alloc, before)?;
    let after = Shape {
        edges: merged(alloc, &before.edges, change)?,
        pins,
    };
    dead_by::<Brand>(alloc, Blank::new(1), &graph, change, &after, candidates)
}

/// The dead of these lists and pins, laid over no node.
fn dead_of(
    alloc: Global,
    rows: &[(u32, &[u32])],
    pins: &[u32],
    candidates: &[u32],
) -> Result<List<u32>, Fail> {
    let none = shape_of(alloc, &[], &[])?;
    let change = lists(alloc, rows)?;
    dead_after(alloc, &none, &change, set(alloc, pins)?, candidates)
}

/// The dead of a ring that a pinned node leads to, once that node has other edges.
fn dead_of_ring(alloc: Global, targets: &[u32]) -> Result<List<u32>, Fail> {
    let before = shape_of(alloc, &[(0, &[1]), (1, &[2]), (2, &[1])], &[0])?;
    let change = lists(alloc, &[(0, targets)])?;
    dead_after(alloc, &before, &change, set(alloc, &[0])?, &[1])
}

#[test]
fn a_ring_dies_with_its_last_edge(rt: HostRuntime) -> Result<(), Fail> {
    assert!(rt; dead_of_ring(rt.alloc(), &[])? == list(rt.alloc(), &[1, 2])?);
    assert!(rt; dead_of_ring(rt.alloc(), &[2])?.is_empty());
    Ok(())
}

#[test]
fn pins_hold(rt: HostRuntime) -> Result<(), Fail> {
    let alloc = rt.alloc();
    assert!(rt; dead_of(alloc, &[(3, &[4]), (4, &[3])], &[4], &[3])?.is_empty());
    assert!(rt; dead_of(alloc, &[(3, &[3])], &[], &[3])? == list(alloc, &[3])?);
    assert!(rt; dead_of(alloc, &[(3, &[3, 3])], &[3], &[3])?.is_empty());
    Ok(())
}

#[test]
fn live_rings_hold(rt: HostRuntime) -> Result<(), Fail> {
    let alloc = rt.alloc();
    let rings: &[(u32, &[u32])] = &[(0, &[1, 3]), (1, &[0]), (2, &[3]), (3, &[2, 2])];
    assert!(rt; dead_of(alloc, rings, &[0], &[2, 3])?.is_empty());
    let apart: &[(u32, &[u32])] = &[(0, &[1]), (1, &[0]), (2, &[3, 0]), (3, &[2, 2])];
    assert!(rt; dead_of(alloc, apart, &[0], &[3])? == list(alloc, &[2, 3])?);
    Ok(())
}

/// Whether a bit of a number is set.
fn has(bits: u32, bit: u32) -> bool {
    bits >> (bit % 32) & 1 == 1
}

/// The nodes that pinned nodes reach, by rounds: an edge from a to b is the bit 4 a + b of the edges.
fn reached(edges: u32, pins: u32) -> u32 {
    let mut nodes = pins;
    for _round in 0..4 {
        for bit in 0..16 {
            if has(edges, bit) && has(nodes, bit / 4) {
                nodes |= 1 << (bit % 4);
            }
        }
    }
    nodes
}

/// The numbers of the set bits below 4, counted from the bit `from`.
fn bits(alloc: Global, number: u32, from: u32) -> Result<List<u32>, Fail> {
    let mut numbers = List::new(alloc);
    for bit in 0..4 {
        if has(number, from % 28 + bit) {
            numbers.push(bit)?;
        }
    }
    Ok(numbers)
}

/// The lists of four nodes.
fn four(alloc: Global, edges: u32) -> Result<NumberMap<EdgeList>, Fail> {
    let mut map = NumberMap::new(alloc);
    for node in 0..4 {
        map.insert(node, bits(alloc, edges, 4 * node)?)?;
    }
    Ok(map)
}

/// The dead of four nodes with these pins, laid over a graph.
fn dead_of_four(
    alloc: Global,
    before: &Shape,
    edges: u32,
    pins: u32,
    candidates: &[u32],
) -> Result<List<u32>, Fail> {
    let change = four(alloc, edges)?;
    let pins = bits(alloc, pins, 0)?;
    dead_after(
        alloc,
        before,
        &change,
        set(alloc, pins.as_slice())?,
        candidates,
    )
}

/// Whether four nodes have the right dead ones, where these are the candidates.
fn dies_right(alloc: Global, before: &Shape, edges: u32, pins: u32) -> Result<bool, Fail> {
    let rest = bits(alloc, 15 & !reached(edges, pins), 0)?;
    Ok(dead_of_four(alloc, before, edges, pins, rest.as_slice())? == rest)
}

/// Whether four nodes have the right dead ones, where all nodes are candidates.
fn dies_right_by_all(alloc: Global, before: &Shape, edges: u32, pins: u32) -> Result<bool, Fail> {
    let rest = bits(alloc, 15 & !reached(edges, pins), 0)?;
    Ok(dead_of_four(alloc, before, edges, pins, &[3, 2, 1, 0])? == rest)
}

/// A graph of four nodes to lay the others over.
fn four_before(alloc: Global) -> Result<Shape, Fail> {
    let rows: &[(u32, &[u32])] = &[(0, &[1, 1, 2]), (1, &[0]), (2, &[3, 2]), (3, &[])];
    shape_of(alloc, rows, &[1, 2])
}

#[test]
fn all_graphs_of_three_nodes(rt: HostRuntime) -> Result<(), Fail> {
    let before = four_before(rt.alloc())?;
    for number in 0..512u32 {
        let edges = number & 7 | (number >> 3 & 7) << 4 | (number >> 6 & 7) << 8;
        for pins in 0..8 {
            assert!(rt; dies_right(rt.alloc(), &before, edges, pins)?);
            assert!(rt; dies_right_by_all(rt.alloc(), &before, edges, pins)?);
        }
    }
    Ok(())
}

/// All edges of four nodes, and as many pins as there may be: with other numbers, all graphs of four nodes are among these.
#[test]
fn all_graphs_of_four_nodes(rt: HostRuntime) -> Result<(), Fail> {
    let before = four_before(rt.alloc())?;
    for edges in 0..65_536u32 {
        for pinned in 0..5u32 {
            let pins = (1 << pinned) - 1;
            assert!(rt; dies_right(rt.alloc(), &before, edges, pins)?);
        }
    }
    Ok(())
}

/// A chain of nodes, each with an edge to the next, and the last with one to a node.
fn chain(alloc: Global, nodes: u32, last: u32) -> Result<NumberMap<EdgeList>, Fail> {
    let mut edges = NumberMap::new(alloc);
    for node in 1..nodes {
        edges.insert(node - 1, list(alloc, &[node])?)?;
    }
    edges.insert(nodes.saturating_sub(1), list(alloc, &[last])?)?;
    Ok(edges)
}

/// The dead of a chain that closes at a node, without a pin.
fn dead_of_chain(alloc: Global, nodes: u32, last: u32, candidate: u32) -> Result<List<u32>, Fail> {
    let none = shape_of(alloc, &[], &[])?;
    let change = chain(alloc, nodes, last)?;
    dead_after(alloc, &none, &change, NumberSet::new(alloc), &[candidate])
}

#[test]
fn large_rings_die(rt: HostRuntime) -> Result<(), Fail> {
    for nodes in [1_000, 100_000] {
        let dead = dead_of_chain(rt.alloc(), nodes, 0, 500)?;
        assert!(rt; dead.len() == nodes as usize);
    }
    Ok(())
}

#[test]
fn a_long_chain_dies(rt: HostRuntime) -> Result<(), Fail> {
    assert!(rt; dead_of_chain(rt.alloc(), 1_000_000, 999_999, 0)?.len() == 1_000_000);
    Ok(())
}
