//! Counts of the edges that come from outside some nodes.
ghost use Rattle.std.specs.Prelude.{◌≡◌, ℕ, ◌+◌, ◌*◌, ◌≤◌, length, nat_eq, nat_lt, OnOk, IfOk, cond, filter};
ghost use Rattle.std.specs.List.{All, Contains, list_any};
ghost use Rattle.std.specs.List.Sorted.{IsStrictlySortedBy};
ghost use Rattle.std.specs.Ordering.{nat_cmp};
ghost use Rattle.mt_refs.specs.Lists.{times};
ghost use Rattle.mt_refs.specs.Graphs.{IsLive, count, edges_from};
ghost use Rattle.mt_trial.specs.Deaths.{inner, left_at, reads_of};

use mt_containers::{List, NumberMap};
use mt_refs::{Overlay, Steps};
use std::alloc::{AllocError, Global};
use std::sync::ledger::Ledger;

/// The count that is kept of a node, 0 where there is none.
fn left(counts: &NumberMap<u32>, node: u32) -> u32
    ensures left { result ≡ left_at counts.now node }
{
    counts.get(node).copied().unwrap_or(0)
}

/// The counts of some nodes.
fn counts_of<L: Ledger>(
    alloc: Global,
    overlay: &Overlay<'_>,
    nodes: &[u32],
    steps: &mut Steps<L>,
) -> Result<NumberMap<u32>, AllocError>
    requires live { All (IsLive overlay.now) nodes.now }
    ensures counts { IfOk result (λ counts. (n : ℕ) → left_at counts n ≡ cond (list_any (nat_eq n) nodes.now) (count overlay.now n) 0) }
    ensures cost { steps.new ≤ steps.old + length nodes.now }
{
    let mut counts = NumberMap::new(alloc);
    for node in nodes {
        let count = overlay.count(*node, steps);
        counts.insert(*node, count)?;
    }
    Ok(counts)
}

/// Counts each target once less.
fn count_down(counts: &mut NumberMap<u32>, targets: &[u32]) -> Result<(), AllocError>
    requires counted { (n : ℕ) → times n targets.now ≤ left_at counts.old n }
    ensures down { OnOk result ((n : ℕ) → left_at counts.new n + times n targets.now ≡ left_at counts.old n) }
{
    for t in targets {
        let count = left(counts, *t);
        counts.insert(*t, count - 1)?;
    }
    Ok(())
}

/// How many edges lead to each of some nodes from outside them, and one more where it is pinned.
pub fn outer_counts<L: Ledger>(
    alloc: Global,
    overlay: &Overlay<'_>,
    nodes: &[u32],
    steps: &mut Steps<L>,
) -> Result<NumberMap<u32>, AllocError>
    requires live { All (IsLive overlay.now) nodes.now }
    requires ascending { IsStrictlySortedBy nat_cmp nodes.now }
    requires closed { (n t : ℕ) → Contains nodes.now n → Contains (edges_from overlay.now n) t → Contains nodes.now t }
    ensures counts { IfOk result (λ counts. (n : ℕ) → left_at counts n + inner overlay.now n nodes.now ≡ cond (list_any (nat_eq n) nodes.now) (count overlay.now n) 0) }
    ensures cost { steps.new ≤ steps.old + 2 * reads_of overlay.now nodes.now }
{
    let mut counts = counts_of(alloc, overlay, nodes, steps)?;
    for node in nodes {
        count_down(&mut counts, overlay.edges(*node, steps))?;
    }
    Ok(counts)
}

/// Those of some nodes that have a count left.
pub fn held(alloc: Global, nodes: &[u32], counts: &NumberMap<u32>) -> Result<List<u32>, AllocError>
    ensures held { IfOk result (λ held. held ≡ filter (λ n. nat_lt 0 (left_at counts.now n)) nodes.now) }
{
    let mut held = List::new(alloc);
    for node in nodes {
        if left(counts, *node) > 0 {
            held.push(*node)?;
        }
    }
    Ok(held)
}
