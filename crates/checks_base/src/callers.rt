//! Callers of the containers: what they say of a container is proved from its clauses alone.
ghost use Rattle.std.specs.Prelude.{◌≡◌, IfOk, OnOk, OnErr, IfSome, IfNone, option_copied, Some, [], ◌∷◌, ◌++◌, slice_get};
ghost use Rattle.std.specs.Option.{option_map, unwrap_or};
ghost use Rattle.std.specs.FinMap as map;

use crate::common::{path, text};
use mt_containers::{Copies, List, NumberMap, Shared};
use mt_path::{Path, PathList, PathMap, PathSet};
use mt_tokens::{Text, TextList};
use std::alloc::{AllocError, Global};
use std::test::Fail;

/// A plain struct that holds a path, a shared value and a list.
#[derive(Clone, Drop)]
struct Kept {
    path: Path,
    text: Shared<Text>,
    names: TextList,
    number: u32,
}

impl Copies for Kept {
    ghost use Rattle.std.proofs.Common.{rules};

    ghost copies = { λ x y h. Prim.search rules };
}

fn copy_kept(kept: &Kept) -> Result<Kept, AllocError>
    ensures same { IfOk result (λ copy. copy ≡ kept.now) }
{
    kept.clone()
}

fn copy_set(paths: &PathSet) -> Result<PathSet, AllocError>
    ensures same { IfOk result (λ copy. copy ≡ paths.now) }
{
    paths.clone()
}

fn path_of(kept: &Shared<Kept>) -> &Path
    ensures path { result.now ≡ kept.now.path }
{
    &kept.path
}

fn path_under(modules: &NumberMap<Shared<Kept>>, number: u32) -> Option<&Path>
    ensures path { option_copied result ≡ option_map (λ k. k.path) (map.get modules.now number) }
{
    let kept = modules.get(number)?;
    Some(&kept.path)
}

fn number_of(numbers: &PathMap<u32>, path: &Path) -> Option<u32>
    ensures number { result ≡ map.get numbers.now path.now }
{
    numbers.get(path).copied()
}

fn add_number(numbers: &mut PathMap<u32>, path: Path, number: u32) -> Result<(), AllocError>
    ensures ok { OnOk result (numbers.new ≡ map.insert numbers.old path number) }
    ensures err { OnErr result (numbers.new ≡ numbers.old) }
{
    numbers.insert(path, number)
}

fn take_number(numbers: &mut PathMap<u32>, path: &Path) -> Option<u32>
    ensures number { result ≡ map.get numbers.old path.now }
    ensures rest { numbers.new ≡ map.remove numbers.old path.now }
{
    numbers.remove(path)
}

fn take_first(numbers: &mut PathMap<u32>) -> Option<(Path, u32)>
    ensures first { option_map (λ e. e.0) result ≡ slice_get (map.keys numbers.old) 0 }
    ensures found { IfSome result (λ e. map.get numbers.old e.0 ≡ Some e.1) }
    ensures rest { IfSome result (λ e. numbers.new ≡ map.remove numbers.old e.0) }
    ensures none { IfNone result (numbers.old ≡ map.empty) }
{
    numbers.pop_first()
}

/// Adds to the list that is kept under a key: it is taken out, made longer and put back.
fn push_under(
    alloc: Global,
    lists: &mut PathMap<PathList>,
    key: Path,
    path: Path,
) -> Result<(), AllocError>
    ensures pushed { OnOk result (lists.new ≡ map.insert (map.remove lists.old key) key (unwrap_or (map.get lists.old key) [] ++ path ∷ [])) }
{
    let mut list = match lists.remove(&key) {
        Some(list) => list,
        None => List::new(alloc),
    };
    list.push(path)?;
    lists.insert(key, list)
}

fn keys_of(alloc: Global, numbers: &PathMap<u32>) -> Result<PathList, AllocError>
    ensures keys { IfOk result (λ paths. paths ≡ map.keys numbers.now) }
{
    let mut paths = List::new(alloc);
    for path in numbers.keys() {
        paths.push(path.clone()?)?;
    }
    Ok(paths)
}

fn keys_by_reference(alloc: Global, numbers: &PathMap<u32>) -> Result<PathList, AllocError>
    ensures keys { IfOk result (λ paths. paths ≡ map.keys numbers.now) }
{
    let mut paths = List::new(alloc);
    for (path, _number) in numbers {
        paths.push(path.clone()?)?;
    }
    Ok(paths)
}

fn keys_by_value(alloc: Global, numbers: PathMap<u32>) -> Result<PathList, AllocError>
    ensures keys { IfOk result (λ paths. paths ≡ map.keys numbers) }
{
    let mut paths = List::new(alloc);
    for (path, _number) in numbers {
        paths.push(path)?;
    }
    Ok(paths)
}

fn list_by_reference(alloc: Global, list: &PathList) -> Result<PathList, AllocError>
    ensures same { IfOk result (λ paths. paths ≡ list.now) }
{
    let mut paths = List::new(alloc);
    for path in list {
        paths.push(path.clone()?)?;
    }
    Ok(paths)
}

fn list_by_value(alloc: Global, list: PathList) -> Result<PathList, AllocError>
    ensures same { IfOk result (λ paths. paths ≡ list) }
{
    let mut paths = List::new(alloc);
    for path in list {
        paths.push(path)?;
    }
    Ok(paths)
}

/// A struct of the path `/a` and the text `x`.
fn make_kept(rt: &HostRuntime) -> Result<Kept, Fail> {
    Ok(Kept {
        path: path(rt, "/a")?,
        text: Shared::new(rt.alloc(), text(rt, "x")?)
            .ok()
            .ok_or("memory")?,
        names: TextList::new(rt.alloc()),
        number: 4,
    })
}

/// 1 under `/b` and 2 under `/a`.
fn numbers(rt: &HostRuntime) -> Result<PathMap<u32>, Fail> {
    let mut numbers = PathMap::new(rt.alloc());
    for (text, number) in [("/b", 1), ("/a", 2)] {
        add_number(&mut numbers, path(rt, text)?, number)?;
    }
    Ok(numbers)
}

#[test]
fn a_struct_of_containers_is_copied(rt: HostRuntime) -> Result<(), Fail> {
    let kept = make_kept(&rt)?;
    let copy = copy_kept(&kept)?;
    assert!(rt; copy.text.as_str() == "x" && copy.number == 4 && copy.names.is_empty());
    Ok(())
}

#[test]
fn a_struct_is_read_through_its_owners(rt: HostRuntime) -> Result<(), Fail> {
    let shared = Shared::new(rt.alloc(), make_kept(&rt)?)
        .ok()
        .ok_or("memory")?;
    assert!(rt; path_of(&shared).as_str() == "/a");
    let mut modules = NumberMap::new(rt.alloc());
    modules.insert(3, shared)?;
    assert!(rt; path_under(&modules, 3).map(|path| path.as_str()) == Some("/a"));
    Ok(())
}

#[test]
fn numbers_are_kept_by_path(rt: HostRuntime) -> Result<(), Fail> {
    let mut numbers = numbers(&rt)?;
    let b = path(&rt, "/b")?;
    assert!(rt; number_of(&numbers, &b) == Some(1));
    assert!(rt; take_number(&mut numbers, &b) == Some(1));
    let (first, number) = take_first(&mut numbers).ok_or("a first path")?;
    assert!(rt; first.as_str() == "/a" && number == 2 && numbers.is_empty());
    Ok(())
}

#[test]
fn a_map_is_walked_in_three_ways(rt: HostRuntime) -> Result<(), Fail> {
    let numbers = numbers(&rt)?;
    let keys = keys_of(rt.alloc(), &numbers)?;
    assert!(rt; keys == keys_by_reference(rt.alloc(), &numbers)?);
    assert!(rt; keys == keys_by_value(rt.alloc(), numbers)?);
    Ok(())
}

#[test]
fn a_list_is_walked_in_two_ways(rt: HostRuntime) -> Result<(), Fail> {
    let keys = keys_of(rt.alloc(), &numbers(&rt)?)?;
    let copy = list_by_reference(rt.alloc(), &keys)?;
    assert!(rt; copy == keys);
    assert!(rt; list_by_value(rt.alloc(), copy)?.len() == 2);
    Ok(())
}

#[test]
fn lists_are_kept_by_path(rt: HostRuntime) -> Result<(), Fail> {
    let mut lists = PathMap::new(rt.alloc());
    for (key, text) in [("/a", "/x"), ("/a", "/y"), ("/b", "/z")] {
        push_under(rt.alloc(), &mut lists, path(&rt, key)?, path(&rt, text)?)?;
    }
    let list = lists.get(&path(&rt, "/a")?).ok_or("a list")?;
    assert!(rt;
        list.iter()
            .map(|path| path.as_str())
            .eq(["/x", "/y"].iter().copied())
    );
    Ok(())
}

#[test]
fn a_set_of_paths_is_copied(rt: HostRuntime) -> Result<(), Fail> {
    let mut set = PathSet::new(rt.alloc());
    set.insert(path(&rt, "/a")?, ())?;
    assert!(rt; copy_set(&set)?.contains(&path(&rt, "/a")?));
    Ok(())
}
