//! Counts that differ from those of a graph, kept beside it.
ghost use Rattle.std.specs.Prelude.{◌≡◌, ℕ, ◌+◌, ◌^◌, ◌<◌, ◌≤◌, OnOk};
ghost use Rattle.mt_refs.specs.Lists.{times};
ghost use Rattle.mt_refs.specs.Overlays.{count_in};

use crate::table::Table;
use mt_containers::NumberMap;
use std::alloc::AllocError;

/// The count that is kept, or else that of the graph.
pub fn count_of(counts: &NumberMap<u32>, table: &Table, node: u32) -> u32
    ensures count { result ≡ count_in counts.now table.now node }
{
    match counts.get(node) {
        Some(count) => *count,
        None => table.count(node),
    }
}

/// Counts each target once more.
pub fn count_up(
    counts: &mut NumberMap<u32>,
    table: &Table,
    targets: &[u32],
) -> Result<(), AllocError>
    requires room { (n : ℕ) → count_in counts.old table.now n + times n targets.now < 2 ^ 32 }
    ensures up { OnOk result ((n : ℕ) → count_in counts.new table.now n ≡ count_in counts.old table.now n + times n targets.now) }
{
    for t in targets {
        let count = count_of(counts, table, *t);
        counts.insert(*t, count + 1)?;
    }
    Ok(())
}

/// Counts each target once less.
pub fn count_down(
    counts: &mut NumberMap<u32>,
    table: &Table,
    targets: &[u32],
) -> Result<(), AllocError>
    requires counted { (n : ℕ) → times n targets.now ≤ count_in counts.old table.now n }
    ensures down { OnOk result ((n : ℕ) → count_in counts.new table.now n + times n targets.now ≡ count_in counts.old table.now n) }
{
    for t in targets {
        let count = count_of(counts, table, *t);
        counts.insert(*t, count - 1)?;
    }
    Ok(())
}
