//! Counts of edges by row, one list of edges at a time.
ghost use Rattle.std.specs.Prelude.{◌≡◌, ℕ, ◌+◌, ◌^◌, ◌<◌, ◌≤◌, length, slice_index, slice_set, OnOk};
ghost use Rattle.std.specs.List.{All};
ghost use Rattle.std.specs.Option.{unwrap_or};
ghost use Rattle.std.specs.Prelude.{[]};
ghost use Rattle.mt_refs.specs.Lists.{times, targets_in};
ghost use Rattle.mt_refs.specs.Tables.{into, size, list_at};

use crate::patch::EdgeList;
use std::alloc::AllocError;

/// The targets of a list, and none where there is no list.
pub fn targets_of(list: &Option<EdgeList>) -> &[u32]
    ensures targets { result.now ≡ targets_in list.now }
{
    match list {
        Some(list) => list.as_slice(),
        None => &[],
    }
}

/// Counts each target once more.
fn count_up(counts: &mut [u32], targets: &[u32])
    requires within { All (λ t. t < length counts.old) targets.now }
    requires room { (n : ℕ) → slice_index counts.old n + times n targets.now < 2 ^ 32 }
    ensures up { (n : ℕ) → slice_index counts.new n ≡ slice_index counts.old n + times n targets.now }
{
    for t in targets {
        counts[*t as usize] += 1;
    }
}

/// Counts each target once less.
fn count_down(counts: &mut [u32], targets: &[u32])
    requires counted { (n : ℕ) → times n targets.now ≤ slice_index counts.old n }
    ensures down { (n : ℕ) → slice_index counts.new n + times n targets.now ≡ slice_index counts.old n }
{
    for t in targets {
        counts[*t as usize] -= 1;
    }
}

/// Counts other targets in place of those before.
pub fn recount(counts: &mut [u32], before: &[u32], after: &[u32])
    requires within { All (λ t. t < length counts.old) after.now }
    requires counted { (n : ℕ) → times n before.now ≤ slice_index counts.old n }
    requires room { (n : ℕ) → slice_index counts.old n + times n after.now < 2 ^ 32 + times n before.now }
    ensures moved { (n : ℕ) → slice_index counts.new n + times n before.now ≡ slice_index counts.old n + times n after.now }
{
    count_down(counts, before);
    count_up(counts, after);
}

/// Gives a row another list, or none, and counts its edges in place of those before.
pub fn set_list(
    lists: &mut [Option<EdgeList>],
    counts: &mut [u32],
    node: usize,
    list: Option<EdgeList>,
)
    requires node { node < length lists.old }
    requires within { All (λ t. t < length counts.old) (targets_in list) }
    requires counted { (n : ℕ) → into n lists.old ≤ slice_index counts.old n }
    requires room { (n : ℕ) → slice_index counts.old n ≤ into n lists.old + 1 }
    requires small { size (slice_set lists.old node list) + 1 < 2 ^ 32 }
    ensures lists { lists.new ≡ slice_set lists.old node list }
    ensures counts { (n : ℕ) → slice_index counts.new n + into n lists.old ≡ slice_index counts.old n + into n lists.new }
{
    count_down(counts, targets_of(&lists[node]));
    count_up(counts, targets_of(&list));
    lists[node] = list;
}

/// Makes room for this many rows. The rows that are added are empty.
pub fn grow(
    lists: &mut Vec<Option<EdgeList>>,
    counts: &mut Vec<u32>,
    rows: usize,
) -> Result<(), AllocError>
    requires counted { length lists.old.items ≤ length counts.old.items }
    ensures counted { length lists.new.items ≤ length counts.new.items }
    ensures longer { length lists.old.items ≤ length lists.new.items }
    ensures ok { OnOk result (rows ≤ length lists.new.items) }
    ensures lists { (n : ℕ) → list_at lists.new.items n ≡ list_at lists.old.items n }
    ensures counts { (n : ℕ) → slice_index counts.new.items n ≡ slice_index counts.old.items n }
    ensures into { (n : ℕ) → into n lists.new.items ≡ into n lists.old.items }
    ensures size { size lists.new.items ≡ size lists.old.items }
{
    while lists.len() < rows {
        counts.push(0)?;
        lists.push(None)?;
    }
    Ok(())
}
