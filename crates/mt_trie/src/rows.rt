//! Five levels of rows.
ghost use Rattle.std.specs.Prelude.{◌≡◌, ℕ, ◌<◌, ◌≤◌, IfOk, None, option_copied, cond, nat_eq};
ghost use Rattle.mt_trie.specs.Tries.{value_at};

use crate::row::{Row, changed, child};
use mt_containers::Shared;
use std::alloc::{AllocError, Global};

/// The uppermost row; the lowest rows have the values.
pub type Rows<V> = Row<Row<Row<Row<Row<V>>>>>;

/// The number of the keys.
pub const KEYS: u32 = 1_048_576;

/// The value under a key.
#[tactic(auto, unfolding(crate::specs::Tries::value_at))]
pub fn value<V>(rows: Option<&Shared<Rows<V>>>, key: u32) -> Option<&Shared<V>>
    ensures value { option_copied result ≡ value_at (option_copied rows.entry) key }
{
    let row = child(rows, key / 65_536);
    let row = child(row, key / 4_096 % 16);
    let row = child(row, key / 256 % 16);
    let row = child(row, key / 16 % 16);
    child(row, key % 16)
}

/// The rows with another value, or none, under a key. One row of each level is new, and the others are shared.
#[tactic(auto, unfolding(crate::specs::Tries::value_at))]
pub fn with_value<V: Drop>(
    alloc: Global,
    rows: Option<&Shared<Rows<V>>>,
    key: u32,
    value: Option<Shared<V>>,
) -> Result<Option<Shared<Rows<V>>>, AllocError>
    requires key { key < 1048576 }
    ensures changed { IfOk result (λ after. (at : ℕ) → value_at after at ≡ cond (nat_eq at key) value (value_at (option_copied rows.entry) at)) }
{
    let fours = child(rows, key / 65_536);
    let threes = child(fours, key / 4_096 % 16);
    let twos = child(threes, key / 256 % 16);
    let ones = child(twos, key / 16 % 16);
    let ones = changed(alloc, ones, key % 16, value)?;
    let twos = changed(alloc, twos, key / 16 % 16, ones)?;
    let threes = changed(alloc, threes, key / 256 % 16, twos)?;
    let fours = changed(alloc, fours, key / 4_096 % 16, threes)?;
    changed(alloc, rows, key / 65_536, fours)
}

/// The end of a gap: from a key without a value to it no key has one.
#[tactic(auto, unfolding(crate::specs::Tries::value_at))]
pub fn gap_end<V>(rows: Option<&Shared<Rows<V>>>, key: u32) -> u32
    requires key { key < 1048576 }
    requires none { value_at (option_copied rows) key ≡ None }
    ensures after { key < result }
    ensures within { result ≤ 1048576 }
    ensures none { (at : ℕ) → key ≤ at → at < result → value_at (option_copied rows.entry) at ≡ None }
{
    let row = child(rows, key / 65_536);
    if row.is_none() {
        return (key / 65_536 + 1) * 65_536;
    }
    let row = child(row, key / 4_096 % 16);
    if row.is_none() {
        return (key / 4_096 + 1) * 4_096;
    }
    let row = child(row, key / 256 % 16);
    if row.is_none() {
        return (key / 256 + 1) * 256;
    }
    let row = child(row, key / 16 % 16);
    if row.is_none() {
        return (key / 16 + 1) * 16;
    }
    key + 1
}
