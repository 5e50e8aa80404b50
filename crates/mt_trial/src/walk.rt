//! Walks over an overlay.
ghost use Rattle.std.specs.Prelude.{◌≡◌, ℕ, ◌+◌, ◌≤◌, List, ◌++◌, length, IsTrue, ◌↔◌, OnOk, IfOk};
ghost use Rattle.std.specs.List.{All, Contains};
ghost use Rattle.std.specs.List.Sorted.{IsStrictlySortedBy};
ghost use Rattle.std.specs.Ordering.{nat_cmp};
ghost use Rattle.std.specs.FinMap as map;
ghost use Rattle.mt_containers.specs.Walks.{IsReached};
ghost use Rattle.mt_refs.specs.Graphs.{IsLive, edges_from};
ghost use Rattle.mt_trial.specs.Deaths.{reads_of};

use mt_containers::{List, NumberSet};
use mt_refs::{Overlay, Steps};
use std::alloc::{AllocError, Global};
use std::sync::ledger::Ledger;

/// Adds numbers at the end. After an `Err` some of them may be there.
fn push_all(stack: &mut List<u32>, numbers: &[u32]) -> Result<(), AllocError>
    ensures ok { OnOk result (stack.new ≡ stack.old ++ numbers.now) }
{
    for number in numbers {
        stack.push(*number)?;
    }
    Ok(())
}

/// The nodes that walks from these nodes reach. Each of them is read once.
pub fn walk<L: Ledger>(
    alloc: Global,
    overlay: &Overlay<'_>,
    starts: List<u32>,
    steps: &mut Steps<L>,
) -> Result<NumberSet, AllocError>
    requires live { All (IsLive overlay.now) starts }
    ensures reached { IfOk result (λ reached. (n : ℕ) → IsTrue (map.contains_key reached n) ↔ IsReached (edges_from overlay.now) starts n) }
    ensures live { IfOk result (λ reached. (n : ℕ) → IsTrue (map.contains_key reached n) → IsLive overlay.now n) }
    ensures cost { (nodes : List ℕ) → IsStrictlySortedBy nat_cmp nodes → ((n : ℕ) → IsReached (edges_from overlay.now) starts n → Contains nodes n)
        → steps.new ≤ steps.old + reads_of overlay.now nodes }
{
    let mut reached = NumberSet::new(alloc);
    let mut stack = starts;
    while let Some(node) = stack.pop() {
        if !reached.contains(node) {
            reached.insert(node, ())?;
            push_all(&mut stack, overlay.edges(node, steps))?;
        }
    }
    Ok(reached)
}

/// The numbers of a set, ascending.
pub fn listed(alloc: Global, set: &NumberSet) -> Result<List<u32>, AllocError>
    ensures numbers { IfOk result (λ list. list ≡ map.keys set.now) }
{
    let mut list = List::new(alloc);
    for number in set.keys() {
        list.push(*number)?;
    }
    Ok(list)
}
