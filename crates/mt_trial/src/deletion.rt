//! The dead nodes of an overlay.
ghost use Rattle.std.specs.Prelude.{◌≡◌, ℕ, ◌+◌, ◌*◌, ◌≤◌, List, ◌↔◌, IfOk, filter, not};
ghost use Rattle.std.specs.List.{All, Contains};
ghost use Rattle.std.specs.List.Sorted.{IsStrictlySortedBy};
ghost use Rattle.std.specs.Ordering.{nat_cmp};
ghost use Rattle.std.specs.FinMap as map;
ghost use Rattle.mt_containers.specs.Walks.{IsReached};
ghost use Rattle.mt_refs.specs.Graphs.{IsLive, edges_from};
ghost use Rattle.mt_trial.specs.Deaths.{IsDead, IsRest, reads_of};

use crate::counts::{held, outer_counts};
use crate::walk::{listed, walk};
use mt_containers::{List, NumberSet};
use mt_refs::{Overlay, Steps};
use std::alloc::{AllocError, Global};
use std::sync::ledger::Ledger;

/// Those of some nodes that a set lacks.
fn without(alloc: Global, nodes: &[u32], kept: &NumberSet) -> Result<List<u32>, AllocError>
    ensures rest { IfOk result (λ rest. rest ≡ filter (λ n. not (map.contains_key kept.now n)) nodes.now) }
{
    let mut rest = List::new(alloc);
    for node in nodes {
        if !kept.contains(*node) {
            rest.push(*node)?;
        }
    }
    Ok(rest)
}

/// Those of some nodes that the holding nodes don't reach.
fn unreached<L: Ledger>(
    alloc: Global,
    overlay: &Overlay<'_>,
    nodes: &[u32],
    holding: List<u32>,
    steps: &mut Steps<L>,
) -> Result<List<u32>, AllocError>
    requires live { All (IsLive overlay.now) holding }
    ensures rest { IfOk result (λ rest. IsRest overlay.now holding nodes.now rest) }
    ensures cost { (most : List ℕ) → IsStrictlySortedBy nat_cmp most → ((n : ℕ) → IsReached (edges_from overlay.now) holding n → Contains most n)
        → steps.new ≤ steps.old + reads_of overlay.now most }
{
    let kept = walk(alloc, overlay, holding, steps)?;
    without(alloc, nodes, &kept)
}

/// The live nodes that no pinned node reaches, ascending. Each of them has to be reached from a candidate.
///
/// What the candidates reach is walked once, and its inner edges are taken off its counts. What has a count left is held
/// from outside, and holds what it reaches. The rest is dead.
pub fn dead<L: Ledger>(
    alloc: Global,
    overlay: &Overlay<'_>,
    candidates: &[u32],
    steps: &mut Steps<L>,
) -> Result<List<u32>, AllocError>
    requires live { All (IsLive overlay.now) candidates.now }
    requires cover { (n : ℕ) → IsDead overlay.now n → IsReached (edges_from overlay.now) candidates.now n }
    ensures ascending { IfOk result (λ dead. IsStrictlySortedBy nat_cmp dead) }
    ensures dead { IfOk result (λ dead. (n : ℕ) → Contains dead n ↔ IsDead overlay.now n) }
    ensures cost { (reached : List ℕ) → IsStrictlySortedBy nat_cmp reached → ((n : ℕ) → Contains reached n ↔ IsReached (edges_from overlay.now) candidates.now n)
        → steps.new ≤ steps.old + 6 * reads_of overlay.now reached }
{
    let starts = List::from_slice(alloc, candidates)?;
    let reached = listed(alloc, &walk(alloc, overlay, starts, steps)?)?;
    let counts = outer_counts(alloc, overlay, reached.as_slice(), steps)?;
    let holding = held(alloc, reached.as_slice(), &counts)?;
    unreached(alloc, overlay, reached.as_slice(), holding, steps)
}
