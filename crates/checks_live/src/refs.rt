//! The graph with exact counts.
ghost use Rattle.std.specs.Prelude.{◌≡◌, ◌<◌, IfOk, OnOk};
ghost use Rattle.std.specs.List.{All};
ghost use Rattle.mt_refs.specs.Graphs.{IsLive};
ghost use Rattle.mt_refs.specs.Patches.{removed};
ghost use Rattle.checks_live.specs.Shapes.{IsMerged};

use crate::common::{
    Shape, are_inside, graph_of, is_closed, is_few, list, lists, merged, numbers, overlay_of, rows,
    set, shape_of,
};
use mt_containers::NumberMap;
use mt_refs::{EdgeList, Overlay, RefGraph, Settled, Steps};
use std::alloc::{AllocError, Global};
use std::marker::Brand;
use std::sync::ledger::{Blank, Ledger};
use std::test::Fail;

/// Whether a live node of a graph has this count, is pinned or not, and has these edges.
fn is_row<L: Ledger>(
    graph: &RefGraph,
    row: &(u32, u32, bool, &[u32]),
    steps: &mut Steps<L>,
) -> bool {
    let (node, count, pinned, targets) = *row;
    graph.is_live(node)
        && graph.count(node, steps) == count
        && graph.is_pinned(node) == pinned
        && graph.edges(node, steps) == targets
}

/// Whether a graph has these rows.
fn are_rows<L: Ledger>(
    graph: &RefGraph,
    rows: &[(u32, u32, bool, &[u32])],
    steps: &mut Steps<L>,
) -> bool {
    for row in rows {
        if !is_row(graph, row, steps) {
            return false;
        }
    }
    true
}

/// Whether a live node of an overlay has this count, is pinned or not, and has these edges.
fn is_laid_row<L: Ledger>(
    overlay: &Overlay<'_>,
    row: &(u32, u32, bool, &[u32]),
    steps: &mut Steps<L>,
) -> bool {
    let (node, count, pinned, targets) = *row;
    overlay.is_live(node)
        && overlay.count(node, steps) == count
        && overlay.is_pinned(node) == pinned
        && overlay.edges(node, steps) == targets
}

/// Whether an overlay has these rows.
fn are_laid_rows<L: Ledger>(
    overlay: &Overlay<'_>,
    rows: &[(u32, u32, bool, &[u32])],
    steps: &mut Steps<L>,
) -> bool {
    for row in rows {
        if !is_laid_row(overlay, row, steps) {
            return false;
        }
    }
    true
}

/// Whether a graph has these rows, by a new counter of steps.
fn has_by<L: Ledger>(blank: Blank, graph: &RefGraph, rows: &[(u32, u32, bool, &[u32])]) -> bool
    requires name { blank.name ≡ L.name }
    requires parts { blank.parts ≡ L.parts }
    requires some { 0 < blank.parts }
{
    let mut steps = Steps::<L>::new(blank);
    are_rows(graph, rows, &mut steps)
}

/// Whether a graph has these rows.
fn has(graph: &RefGraph, rows: &[(u32, u32, bool, &[u32])]) -> bool {
    has_by::<Brand>(Blank::new(1), graph, rows)
}

/// Whether an overlay by a change that gives a graph a shape has these rows.
fn lays_by<L: Ledger>(
    alloc: Global,
    blank: Blank,
    graph: &RefGraph,
    change: &NumberMap<EdgeList>,
    after: &Shape,
    rows: &[(u32, u32, bool, &[u32])],
) -> Result<bool, Fail>
    requires name { blank.name ≡ L.name }
    requires parts { blank.parts ≡ L.parts }
    requires some { 0 < blank.parts }
    requires merged { IsMerged after.now.edges change.now graph.now.edges }
{
    let mut steps = Steps::<L>::new(blank);
    let overlay = overlay_of(alloc, graph, change, after, &mut steps)?;
    Ok(are_laid_rows(&overlay, rows, &mut steps))
}

/// The shape of a graph once lists and pins are changed.
fn changed(
    alloc: Global,
    before: &Shape,
    change: &NumberMap<EdgeList>,
    pins: &[u32],
) -> Result<Shape, Fail>
    ensures merged { IfOk result (λ after. IsMerged after.edges change.now before.now.edges) }
{
    Ok(Shape {
        edges: merged(alloc, &before.edges, change)?,
        pins: set(alloc, pins)?,
    })
}

/// Whether a graph with some lists and pins changed has these rows, and the graph is as it was.
fn lays(
    alloc: Global,
    before: &Shape,
    change: &NumberMap<EdgeList>,
    pins: &[u32],
    rows: &[(u32, u32, bool, &[u32])],
    rows_before: &[(u32, u32, bool, &[u32])],
) -> Result<bool, Fail> {
    let graph = graph_of(alloc, before)?;
    let after = changed(alloc, before, change, pins)?;
    let laid = lays_by::<Brand>(alloc, Blank::new(1), &graph, change, &after, rows)?;
    Ok(laid && has(&graph, rows_before))
}

/// The lists without those of some nodes.
fn without(edges: &NumberMap<EdgeList>, dead: &[u32]) -> Result<NumberMap<EdgeList>, AllocError>
    ensures removed { IfOk result (λ rest. rest ≡ removed dead.now edges.now) }
{
    let mut rest = edges.clone()?;
    for node in dead {
        rest.remove(*node);
    }
    Ok(rest)
}

/// Commits a change that gives a graph a shape.
fn commit(
    alloc: Global,
    graph: &mut RefGraph,
    change: &NumberMap<EdgeList>,
    dead: &[u32],
    after: &Shape,
) -> Result<(), Fail>
    requires live { All (IsLive graph.old) dead.now }
    requires merged { IsMerged after.now.edges change.now (removed dead.now graph.old.edges) }
{
    if !is_closed(after) {
        return Err(Fail::new("an edge or a pin leads out"));
    }
    if !is_few(&after.edges) {
        return Err(Fail::new("there are too many edges"));
    }
    let settled = Settled {
        set: rows(alloc, change)?,
        pins: numbers(alloc, &after.pins)?,
        dead: list(alloc, dead)?,
    };
    graph.reserve(&settled)?;
    graph.commit(settled);
    Ok(())
}

/// The graph of a shape, once a change is committed.
fn committed(
    alloc: Global,
    before: &Shape,
    change: &NumberMap<EdgeList>,
    pins: &[u32],
    dead: &[u32],
) -> Result<RefGraph, Fail> {
    let mut graph = graph_of(alloc, before)?;
    if !are_inside(&before.edges, dead) {
        return Err(Fail::new("a dead node is not live"));
    }
    let rest = Shape {
        edges: without(&before.edges, dead)?,
        pins: set(alloc, &[])?,
    };
    let after = changed(alloc, &rest, change, pins)?;
    commit(alloc, &mut graph, change, dead, &after)?;
    Ok(graph)
}

#[test]
fn a_new_graph_has_no_node(rt: HostRuntime) -> Result<(), Fail> {
    let graph = RefGraph::new(rt.alloc());
    assert!(rt; !graph.is_live(0) && !graph.is_pinned(0));
    Ok(())
}

#[test]
fn an_edge_that_stands_twice_counts_twice(rt: HostRuntime) -> Result<(), Fail> {
    let twice: &[(u32, &[u32])] = &[(0, &[1, 1]), (1, &[1])];
    let graph = graph_of(rt.alloc(), &shape_of(rt.alloc(), twice, &[1])?)?;
    let rows: &[(u32, u32, bool, &[u32])] = &[(0, 0, false, &[1, 1]), (1, 4, true, &[1])];
    assert!(rt; has(&graph, rows));
    Ok(())
}

#[test]
fn an_overlay_leaves_the_graph(rt: HostRuntime) -> Result<(), Fail> {
    let ring: &[(u32, &[u32])] = &[(0, &[1]), (1, &[2]), (2, &[1])];
    let before = shape_of(rt.alloc(), ring, &[0])?;
    let change = lists(rt.alloc(), &[(0, &[2, 7]), (7, &[])])?;
    let rows: &[(u32, u32, bool, &[u32])] = &[
        (0, 1, true, &[2, 7]),
        (1, 1, false, &[2]),
        (2, 2, false, &[1]),
        (7, 2, true, &[]),
    ];
    let rows_before: &[(u32, u32, bool, &[u32])] = &[(0, 1, true, &[1]), (1, 2, false, &[2])];
    assert!(rt; lays(rt.alloc(), &before, &change, &[0, 7], rows, rows_before)?);
    Ok(())
}

#[test]
fn the_greatest_number_is_a_node_in_an_overlay(rt: HostRuntime) -> Result<(), Fail> {
    let before = shape_of(rt.alloc(), &[(0, &[])], &[0])?;
    let change = lists(rt.alloc(), &[(0, &[u32::MAX]), (u32::MAX, &[0])])?;
    let rows: &[(u32, u32, bool, &[u32])] = &[
        (0, 2, true, &[u32::MAX]),
        (u32::MAX, 1, false, &[0]),
    ];
    assert!(rt;
        lays(
            rt.alloc(),
            &before,
            &change,
            &[0],
            rows,
            &[(0, 1, true, &[])]
        )?
    );
    Ok(())
}

#[test]
fn a_commit_removes_the_dead(rt: HostRuntime) -> Result<(), Fail> {
    let ring: &[(u32, &[u32])] = &[(0, &[1]), (1, &[2]), (2, &[1])];
    let before = shape_of(rt.alloc(), ring, &[0])?;
    let change = lists(rt.alloc(), &[(0, &[])])?;
    let graph = committed(rt.alloc(), &before, &change, &[0], &[1, 2])?;
    assert!(rt; has(&graph, &[(0, 1, true, &[])]));
    assert!(rt; !graph.is_live(1) && !graph.is_live(2));
    Ok(())
}

#[test]
fn pins_take_the_place_of_those_before(rt: HostRuntime) -> Result<(), Fail> {
    let both: &[(u32, &[u32])] = &[(0, &[0]), (5, &[0])];
    let before = shape_of(rt.alloc(), both, &[0, 5])?;
    let change = lists(rt.alloc(), &[])?;
    let graph = committed(rt.alloc(), &before, &change, &[5], &[])?;
    assert!(rt; has(&graph, &[(0, 2, false, &[0]), (5, 1, true, &[0])]));
    Ok(())
}
