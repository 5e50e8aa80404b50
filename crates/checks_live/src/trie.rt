//! The trie of old versions.
ghost use Rattle.std.specs.Prelude.{◌≡◌, ◌<◌, IfOk, option_copied};
ghost use Rattle.std.specs.FinMap as map;

use mt_containers::{List, NumberMap, Shared};
use mt_trie::SharedTrie;
use std::alloc::{AllocError, Global};
use std::test::Fail;

/// The keys of a trie.
fn keys_of<V>(alloc: Global, trie: &SharedTrie<V>) -> Result<List<u32>, AllocError>
    ensures keys { IfOk result (λ keys. keys ≡ map.keys trie.now) }
{
    let mut keys = List::new(alloc);
    for (key, _value) in trie {
        keys.push(key)?;
    }
    Ok(keys)
}

/// What is under a key after another key has got a value is what was under it before.
fn get_beside<V: Drop>(
    alloc: Global,
    trie: &SharedTrie<V>,
    value: Shared<V>,
) -> Result<SharedTrie<V>, AllocError>
    ensures other { IfOk result (λ after. map.get after 6 ≡ map.get trie.now 6) }
{
    trie.with(alloc, 5, value)
}

/// A number with owners.
fn shared(rt: &HostRuntime, number: u32) -> Result<Shared<u32>, Fail> {
    Ok(Shared::new(rt.alloc(), number).ok().ok_or("memory")?)
}

/// The number under a key.
fn at(trie: &SharedTrie<u32>, key: u32) -> Option<u32> {
    trie.get(key).map(|value| **value)
}

/// The trie with a number under a key; the key is taken below the number of keys.
fn put(
    rt: &HostRuntime,
    trie: &SharedTrie<u32>,
    key: u32,
    number: u32,
) -> Result<SharedTrie<u32>, Fail> {
    Ok(trie.with(rt.alloc(), key % 1_048_576, shared(rt, number)?)?)
}

/// Whether a trie has exactly these entries, in this order.
fn has(trie: &SharedTrie<u32>, entries: &[(u32, u32)]) -> bool {
    let len = trie.len() as usize;
    len == entries.len()
        && trie.is_empty() == entries.is_empty()
        && trie
            .iter()
            .map(|(key, value)| (key, **value))
            .eq(entries.iter().copied())
}

/// A value that threads may share.
fn read_in_threads<T: Send + Sync>(_value: &T) {}

#[test]
fn a_value_is_kept_and_taken_out(rt: HostRuntime) -> Result<(), Fail> {
    let none: SharedTrie<u32> = SharedTrie::new();
    let one = put(&rt, &none, 7, 70)?;
    assert!(rt; has(&one, &[(7, 70)]) && at(&one, 7) == Some(70));
    let gone = one.without(rt.alloc(), 7)?;
    assert!(rt; has(&gone, &[]) && at(&gone, 7).is_none());
    assert!(rt; has(&none, &[]) && has(&one, &[(7, 70)]));
    read_in_threads(&one);
    Ok(())
}

/// The first and the last key of a row of each level, and the ends of the keys.
const EDGES: [u32; 12] = [
    0, 15, 16, 255, 256, 4_095, 4_096, 65_535, 65_536, 131_071, 1_048_560, 1_048_575,
];

#[test]
fn keys_at_the_ends_of_rows_are_apart(rt: HostRuntime) -> Result<(), Fail> {
    let mut trie = SharedTrie::new();
    for key in EDGES.iter().rev() {
        trie = put(&rt, &trie, *key, key.wrapping_add(1))?;
    }
    assert!(rt; trie.len() == 12);
    for key in EDGES {
        assert!(rt; at(&trie, key) == Some(key.wrapping_add(1)));
    }
    for key in [
        1, 14, 17, 254, 257, 4_094, 4_097, 65_534, 65_537, 1_048_559, 1_048_574,
    ] {
        assert!(rt; at(&trie, key).is_none());
    }
    assert!(rt; trie.iter().map(|(key, _)| key).eq(EDGES.iter().copied()));
    Ok(())
}

#[test]
fn a_key_that_is_too_large_has_no_value(rt: HostRuntime) -> Result<(), Fail> {
    let trie = put(&rt, &SharedTrie::new(), 0, 1)?;
    for key in [1_048_576, 1_048_577, 16_777_216, u32::MAX] {
        assert!(rt; at(&trie, key).is_none());
        assert!(rt; has(&trie.without(rt.alloc(), key)?, &[(0, 1)]));
    }
    Ok(())
}

#[test]
fn old_versions_stay(rt: HostRuntime) -> Result<(), Fail> {
    let first = put(&rt, &SharedTrie::new(), 300, 1)?;
    let second = put(&rt, &first, 300, 2)?;
    let third = put(&rt, &second, 301, 3)?;
    let fourth = third.without(rt.alloc(), 300)?;
    let fifth = put(&rt, &fourth, 70_000, 4)?;
    assert!(rt; has(&first, &[(300, 1)]));
    assert!(rt; has(&second, &[(300, 2)]));
    assert!(rt; has(&third, &[(300, 2), (301, 3)]));
    assert!(rt; has(&fourth, &[(301, 3)]));
    assert!(rt; has(&fifth, &[(301, 3), (70_000, 4)]));
    drop(third);
    assert!(rt; has(&second, &[(300, 2)]) && has(&fourth, &[(301, 3)]));
    Ok(())
}

#[test]
fn what_is_not_there_is_not_taken_out(rt: HostRuntime) -> Result<(), Fail> {
    let trie = put(&rt, &SharedTrie::new(), 17, 1)?;
    for key in [0, 1, 16, 18, 33, 273, 1_048_575] {
        assert!(rt; has(&trie.without(rt.alloc(), key)?, &[(17, 1)]));
    }
    assert!(rt; has(&SharedTrie::new().without(rt.alloc(), 17)?, &[]));
    Ok(())
}

#[test]
fn a_clone_is_the_same_trie(rt: HostRuntime) -> Result<(), Fail> {
    let trie = put(&rt, &SharedTrie::new(), 9, 1)?;
    let copy = trie.clone()?;
    let more = put(&rt, &copy, 8, 2)?;
    assert!(rt; has(&trie, &[(9, 1)]) && has(&copy, &[(9, 1)]) && has(&more, &[(8, 2), (9, 1)]));
    Ok(())
}

#[test]
fn the_keys_ascend(rt: HostRuntime) -> Result<(), Fail> {
    let mut trie = SharedTrie::new();
    for key in [70_000, 3, 1_000_000, 20, 4_100] {
        trie = put(&rt, &trie, key, key)?;
    }
    let keys = keys_of(rt.alloc(), &trie)?;
    assert!(rt; keys.as_slice() == [3, 20, 4_100, 70_000, 1_000_000].as_slice());
    let beside = get_beside(rt.alloc(), &trie, shared(&rt, 5)?)?;
    assert!(rt; beside.len() == 6 && at(&beside, 5) == Some(5));
    Ok(())
}

/// The next of a row of numbers that looks random.
fn next(number: u32) -> u32 {
    number.wrapping_mul(1_664_525).wrapping_add(1_013_904_223)
}

/// Whether a trie and a map have the same entries.
fn same(trie: &SharedTrie<u32>, numbers: &NumberMap<u32>) -> bool {
    trie.len() as usize == numbers.len()
        && trie
            .iter()
            .map(|(key, value)| (key, **value))
            .eq(numbers.iter().map(|(key, value)| (*key, *value)))
}

#[test]
fn a_trie_changes_as_a_map_does(rt: HostRuntime) -> Result<(), Fail> {
    let mut trie = SharedTrie::new();
    let mut numbers = NumberMap::new(rt.alloc());
    let mut number = 1;
    for turn in 0..4_000u32 {
        number = next(number);
        let key = number >> 12 & 0xf_00_3f;
        if turn % 3 == 2 {
            trie = trie.without(rt.alloc(), key)?;
            numbers.remove(key);
        } else {
            trie = put(&rt, &trie, key, turn)?;
            numbers.insert(key, turn)?;
        }
        assert!(rt; at(&trie, key) == numbers.get(key).copied());
        if turn % 500 == 0 {
            assert!(rt; same(&trie, &numbers));
        }
    }
    assert!(rt; numbers.len() > 100 && same(&trie, &numbers));
    Ok(())
}

#[test]
fn all_that_is_put_in_can_be_taken_out(rt: HostRuntime) -> Result<(), Fail> {
    let mut trie = SharedTrie::new();
    for key in 0..600 {
        trie = put(&rt, &trie, key * 1_747, key)?;
    }
    assert!(rt; trie.len() == 600);
    for key in 0..600 {
        trie = trie.without(rt.alloc(), key * 1_747)?;
    }
    assert!(rt; has(&trie, &[]));
    Ok(())
}

/// The time and the memory of this test are in the README of `mt_trie`.
#[test]
fn a_thousand_versions_share_a_large_trie(rt: HostRuntime) -> Result<(), Fail> {
    let mut trie = SharedTrie::new();
    for key in 0..100_000 {
        trie = put(&rt, &trie, key, key)?;
    }
    let mut versions = Vec::new(rt.alloc());
    for turn in 0..1_000 {
        let next = put(&rt, &trie, 50_000, turn)?;
        versions.push(trie)?;
        trie = next;
    }
    let mut turn = 0u32;
    for version in &versions {
        let expected = if turn == 0 { 50_000 } else { turn - 1 };
        assert!(rt; version.len() == 100_000 && at(version, 50_000) == Some(expected));
        turn = turn.wrapping_add(1);
    }
    assert!(rt; turn == 1_000 && at(&trie, 50_000) == Some(999));
    Ok(())
}
