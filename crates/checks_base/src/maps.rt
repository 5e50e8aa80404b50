//! Maps by number, by text and by path.
use crate::common::{path, text};
use mt_containers::{NumberMap, NumberSet};
use mt_path::{Path, PathMap, PathSet};
use mt_tokens::TextMap;
use std::test::Fail;

/// 7 under 20, 8 under 10 and 9 under 30, after another value under 30.
fn numbers(rt: &HostRuntime) -> Result<NumberMap<u32>, Fail> {
    let mut numbers = NumberMap::new(rt.alloc());
    for (key, value) in [(30, 6), (20, 7), (10, 8), (30, 9)] {
        numbers.insert(key, value)?;
    }
    Ok(numbers)
}

/// 1 under `/b`, 2 under `/a-b` and 3 under `/a/b`, after another value under `/a-b`.
fn places(rt: &HostRuntime) -> Result<PathMap<u32>, Fail> {
    let mut places = PathMap::new(rt.alloc());
    for (key, value) in [("/a-b", 0), ("/b", 1), ("/a-b", 2), ("/a/b", 3)] {
        places.insert(path(rt, key)?, value)?;
    }
    Ok(places)
}

#[test]
fn a_map_by_number_keeps_the_last_value(rt: HostRuntime) -> Result<(), Fail> {
    assert!(rt; NumberMap::<u32>::new(rt.alloc()).is_empty());
    let mut numbers = numbers(&rt)?;
    assert!(rt; numbers.len() == 3 && !numbers.is_empty());
    assert!(rt; numbers.get(30).copied() == Some(9) && numbers.get(40).is_none());
    assert!(rt; numbers.contains(10) && !numbers.contains(11));
    assert!(rt; numbers.remove(10) == Some(8) && numbers.remove(10).is_none());
    assert!(rt; numbers.len() == 2);
    Ok(())
}

#[test]
fn a_map_by_number_ascends(rt: HostRuntime) -> Result<(), Fail> {
    let numbers = numbers(&rt)?.clone()?;
    assert!(rt; numbers.keys().copied().eq([10, 20, 30].iter().copied()));
    assert!(rt;
        numbers
            .iter()
            .map(|(_, value)| *value)
            .eq([8, 7, 9].iter().copied())
    );
    let mut seen = 0u32;
    for (key, value) in &numbers {
        seen = seen
            .wrapping_mul(100)
            .wrapping_add(key.wrapping_add(*value));
    }
    assert!(rt; seen == 18_27_39);
    Ok(())
}

#[test]
fn a_map_by_number_is_used_up(rt: HostRuntime) -> Result<(), Fail> {
    let mut seen = 0u32;
    for (key, value) in numbers(&rt)? {
        seen = seen.wrapping_mul(100).wrapping_add(key.wrapping_add(value));
    }
    assert!(rt; seen == 18_27_39);
    Ok(())
}

#[test]
fn a_map_by_number_has_a_first(rt: HostRuntime) -> Result<(), Fail> {
    let mut numbers = numbers(&rt)?;
    assert!(rt; numbers.at_least(11) == Some(20) && numbers.at_least(20) == Some(20));
    assert!(rt; numbers.at_least(31).is_none());
    assert!(rt; numbers.pop_first() == Some((10, 8)) && numbers.pop_first() == Some((20, 7)));
    assert!(rt; numbers.pop_first() == Some((30, 9)) && numbers.pop_first().is_none());
    Ok(())
}

#[test]
fn a_set_of_numbers_has_each_once(rt: HostRuntime) -> Result<(), Fail> {
    let mut set = NumberSet::new(rt.alloc());
    for number in [5, 3, 5] {
        set.insert(number, ())?;
    }
    assert!(rt; set.len() == 2 && set.contains(3) && !set.contains(4));
    Ok(())
}

#[test]
fn a_map_by_path_keeps_the_last_value(rt: HostRuntime) -> Result<(), Fail> {
    assert!(rt; PathMap::<u32>::new(rt.alloc()).is_empty());
    let mut places = places(&rt)?;
    let dashed = path(&rt, "/a-b")?;
    assert!(rt; places.len() == 3 && !places.is_empty());
    assert!(rt; places.get(&dashed).copied() == Some(2));
    assert!(rt; places.get(&Path::root(rt.alloc())?).is_none());
    assert!(rt; places.contains(&dashed));
    assert!(rt; places.remove(&dashed) == Some(2) && places.remove(&dashed).is_none());
    assert!(rt; !places.contains(&dashed) && places.len() == 2);
    Ok(())
}

#[test]
fn a_map_by_path_ascends_by_bytes(rt: HostRuntime) -> Result<(), Fail> {
    let places = places(&rt)?.clone()?;
    assert!(rt;
        places
            .keys()
            .map(|path| path.as_str())
            .eq(["/a-b", "/a/b", "/b"].iter().copied())
    );
    assert!(rt;
        places
            .iter()
            .map(|(_, value)| *value)
            .eq([2, 3, 1].iter().copied())
    );
    let mut seen = 0u32;
    for (_, value) in &places {
        seen = seen.wrapping_mul(10).wrapping_add(*value);
    }
    assert!(rt; seen == 231);
    Ok(())
}

#[test]
fn a_map_by_path_is_used_up(rt: HostRuntime) -> Result<(), Fail> {
    let mut seen = 0u32;
    for (_, value) in places(&rt)? {
        seen = seen.wrapping_mul(10).wrapping_add(value);
    }
    assert!(rt; seen == 231);
    Ok(())
}

#[test]
fn a_map_by_path_has_a_first(rt: HostRuntime) -> Result<(), Fail> {
    let mut places = places(&rt)?;
    let (first, value) = places.pop_first().ok_or("a first path")?;
    assert!(rt; first.as_str() == "/a-b" && value == 2 && places.len() == 2);
    assert!(rt; PathMap::<u32>::new(rt.alloc()).pop_first().is_none());
    Ok(())
}

#[test]
fn a_set_of_paths_has_each_once(rt: HostRuntime) -> Result<(), Fail> {
    let mut set = PathSet::new(rt.alloc());
    for text in ["/b", "/a", "/b"] {
        set.insert(path(&rt, text)?, ())?;
    }
    assert!(rt; set.len() == 2 && set.contains(&path(&rt, "/a")?));
    Ok(())
}

#[test]
fn a_map_by_text_ascends_by_bytes(rt: HostRuntime) -> Result<(), Fail> {
    let mut lengths = TextMap::new(rt.alloc());
    for word in ["é", "z", ""] {
        lengths.insert(text(&rt, word)?, word.len())?;
    }
    assert!(rt;
        lengths
            .keys()
            .map(|text| text.as_str())
            .eq(["", "z", "é"].iter().copied())
    );
    assert!(rt; lengths.get(&text(&rt, "é")?).copied() == Some(2));
    Ok(())
}
