//! The search of a folder for the files that a crawl meets.
ghost use Rattle.std.specs.Prelude.{◌≡◌, ◌⊎◌, List, ℕ, [], ◌∷◌, ◌++◌, true, Err, IfOk, IsErrOf, OnOk, OnErr};
ghost use Rattle.std.specs.FinMap as map;
ghost use Rattle.std.specs.Option.{option_to_list};
ghost use Rattle.mt_io.specs.Files.{Files, is_folder_in};
ghost use Rattle.mt_io.specs.Seen.{Looks, Tells};
ghost use Rattle.mt_files.specs.Listings.{IsListed};
ghost use Rattle.mt_files.specs.PathSets.{with_paths};
ghost use Rattle.mt_files.specs.Search.{IsSearched, IsShown, file_in, files_in, files_met, folder_in, folders_in, is_hidden, is_met};

use crate::fault::CrawlFault;
use mt_io::{Folder, Named, NamedKind, NamedList};
use mt_path::{Path, PathList, PathSet};
use std::alloc::{AllocError, Global};

fn is_hidden(name: &str) -> bool
    ensures hidden { result ≡ is_hidden name.now }
{
    name.starts_with('.')
}

// The file that a child of a folder is, if its path is one.
fn file_in(alloc: Global, place: &Path, named: &Named) -> Result<Option<Path>, AllocError>
    ensures file { IfOk result (λ path. path ≡ file_in place.now named.now) }
{
    match named.kind {
        NamedKind::File => place.child(alloc, named.name.as_str()),
        _ => Ok(None),
    }
}

// The folder that a child of a folder is, if it isn't hidden and its path is one.
fn folder_in(alloc: Global, place: &Path, named: &Named) -> Result<Option<Path>, AllocError>
    ensures folder { IfOk result (λ path. path ≡ folder_in place.now named.now) }
{
    match named.kind {
        NamedKind::Folder if !is_hidden(named.name.as_str()) => {
            place.child(alloc, named.name.as_str())
        }
        _ => Ok(None),
    }
}

fn meet_file(
    alloc: Global,
    place: &Path,
    named: &Named,
    met: &mut PathSet,
) -> Result<(), AllocError>
    ensures met { OnOk result (met.new ≡ with_paths met.old (option_to_list (file_in place.now named.now))) }
{
    if let Some(path) = file_in(alloc, place, named)? {
        met.insert(path, ())?;
    }
    Ok(())
}

fn add_folder(
    alloc: Global,
    place: &Path,
    named: &Named,
    places: &mut PathList,
) -> Result<(), AllocError>
    ensures places { OnOk result (places.new ≡ places.old ++ option_to_list (folder_in place.now named.now)) }
{
    if let Some(path) = folder_in(alloc, place, named)? {
        places.push(path)?;
    }
    Ok(())
}

// Meets the files of a folder, and adds its folders to those that are still to be listed.
fn take_children(
    alloc: Global,
    place: &Path,
    names: &NamedList,
    met: &mut PathSet,
    places: &mut PathList,
) -> Result<(), AllocError>
    ensures met { OnOk result (met.new ≡ with_paths met.old (files_in place.now names.now)) }
    ensures places { OnOk result (places.new ≡ places.old ++ folders_in place.now names.now) }
{
    for named in names.as_slice() {
        meet_file(alloc, place, named, met)?;
        add_folder(alloc, place, named, places)?;
    }
    Ok(())
}

fn search_folder<F: Folder>(
    alloc: Global,
    folder: &mut F,
    place: &Path,
    met: &mut PathSet,
    places: &mut PathList,
) -> Result<(), CrawlFault>
    requires there { (tree : Files) → Tells (F.seen folder.old) tree → is_folder_in tree place.now ≡ true }
    ensures shown { OnOk result (IsShown met.old (places.old ++ place.now ∷ []) → IsShown met.new places.new) }
    ensures searched { OnOk result ((tree : Files) → Tells (F.seen folder.old) tree → IsShown met.old (places.old ++ place.now ∷ [])
        → IsSearched tree met.old (places.old ++ place.now ∷ []) → IsSearched tree met.new places.new) }
    ensures listed { OnOk result (IsListed F.lists (map.contains_key met.old) (places.old ++ place.now ∷ []) → IsListed F.lists (map.contains_key met.new) places.new) }
    ensures looks { Looks (F.seen folder.old) (F.seen folder.new) (IsErrOf result CrawlFault.Failed) }
    ensures error { OnErr result ((result ≡ Err CrawlFault.NoMemory) ⊎ (result ≡ Err CrawlFault.Failed)) }
{
    let names = folder.list(alloc, place)?;
    take_children(alloc, place, &names, met, places)?;
    Ok(())
}

/// The paths of the files that a crawl meets.
pub(crate) fn find_files<F: Folder>(alloc: Global, folder: &mut F) -> Result<PathSet, CrawlFault>
    ensures found { IfOk result (λ paths. (tree : Files) → Tells (F.seen folder.old) tree → map.keys paths ≡ files_met tree) }
    ensures met { IfOk result (λ paths. (path : List ℕ) → map.contains_key paths path ≡ true → is_met path ≡ true) }
    ensures listed { IfOk result (λ paths. IsListed F.lists (map.contains_key paths) []) }
    ensures looks { Looks (F.seen folder.old) (F.seen folder.new) (IsErrOf result CrawlFault.Failed) }
    ensures error { OnErr result ((result ≡ Err CrawlFault.NoMemory) ⊎ (result ≡ Err CrawlFault.Failed)) }
{
    let mut met = PathSet::new(alloc);
    let mut places = PathList::new(alloc);
    places.push(Path::root(alloc)?)?;
    for _turn in 0..u64::MAX {
        let Some(place) = places.pop() else {
            return Ok(met);
        };
        search_folder(alloc, folder, &place, &mut met, &mut places)?;
    }
    // No run gets here: it has listed 2^64 - 1 folders.
    Err(CrawlFault::NoMemory)
}
