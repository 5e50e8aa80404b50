//! The files of a folder, as a map from their paths.
ghost use Rattle.std.specs.Prelude.{◌≡◌, ◌==◌, ◌&&◌, None, Some, IfOk, OnErr, OnOk, option_copied};
ghost use Rattle.std.specs.FinMap as map;
ghost use Rattle.std.specs.Bool.{nat_eq};
ghost use Rattle.std.specs.List.{before_first, starts_with};
ghost use Rattle.std.specs.Option.{MatchOption};
ghost use Rattle.std.specs.Str.{bytes_eq};
ghost use Rattle.mt_path.specs.Children.{prefix_of};
ghost use Rattle.mt_io.specs.Files.{IsChildrenOf, is_folder_in, kind_of, rest_of};
ghost use Rattle.mt_io.specs.Children.{new_child, same_kind};

use crate::folder::{Named, NamedKind, NamedList};
use mt_path::{Path, PathMap};
use mt_tokens::{Bytes, Text};
use std::alloc::{AllocError, Global};

/// Makes the file of this path have these bytes. After an `Err` the files are as they were.
pub(crate) fn copy_in(
    alloc: Global,
    files: &mut PathMap<Bytes>,
    path: &Path,
    bytes: &[u8],
) -> Result<(), AllocError>
    ensures ok { OnOk result (files.new ≡ map.insert files.old path.now bytes.now) }
    ensures err { OnErr result (files.new ≡ files.old) }
{
    let path = path.clone()?;
    let bytes = Bytes::from_slice(alloc, bytes)?;
    files.insert(path, bytes)
}

/// Whether a folder is there: it is the root, or a file is below it.
pub fn has_folder(alloc: Global, files: &PathMap<Bytes>, folder: &Path) -> Result<bool, AllocError>
    ensures there { IfOk result (λ there. there ≡ is_folder_in files.now folder.now) }
{
    if folder.is_root() {
        return Ok(true);
    }
    let prefix = prefix(alloc, folder)?;
    for path in files.keys() {
        if begins_with(path.as_str(), prefix.as_str()) {
            return Ok(true);
        }
    }
    Ok(false)
}

/// The children of a folder, each once, in time linear in the paths of the files.
pub fn children_of(
    alloc: Global,
    files: &PathMap<Bytes>,
    folder: &Path,
) -> Result<NamedList, AllocError>
    ensures children { IfOk result (λ names. IsChildrenOf files.now folder.now names) }
{
    let prefix = prefix(alloc, folder)?;
    let mut names = NamedList::new(alloc);
    // Paths ascend, so those through one child are side by side: a child is new where it isn't
    // the last one given. No child is a file without a name.
    let mut last_name = "";
    let mut last_kind = NamedKind::File;
    for path in files.keys() {
        if let Some((name, kind)) = new_child(
            prefix.as_str(),
            last_name,
            last_kind,
            path.as_str(),
        ) {
            let copy = Text::from_str(alloc, name)?;
            names.push(Named { name: copy, kind })?;
            last_name = name;
            last_kind = kind;
        }
    }
    Ok(names)
}

fn prefix(alloc: Global, folder: &Path) -> Result<Text, AllocError>
    ensures prefix { IfOk result (λ p. p ≡ prefix_of folder.now) }
{
    let text = folder.as_str();
    let mut prefix = Text::from_str(alloc, text)?;
    if text != "/" {
        prefix.push_str("/")?;
    }
    Ok(prefix)
}

fn begins_with(path: &str, prefix: &str) -> bool
    ensures exact { result ≡ starts_with nat_eq path.now prefix.now }
{
    path.as_bytes().starts_with(prefix.as_bytes())
}

fn rest_below<'a>(prefix: &str, path: &'a str) -> Option<&'a str>
    ensures rest { option_copied result ≡ rest_of prefix.now path.now }
{
    match path.strip_prefix(prefix) {
        Some(rest) => { if rest.is_empty() { None } else { Some(rest) } }
        None => None,
    }
}

fn first_part(rest: &str) -> (&str, NamedKind)
    ensures name { result.0.now ≡ before_first (λ b. b == 47) rest.now }
    ensures kind { result.1 ≡ kind_of rest.now }
{
    match rest.split_once('/') {
        Some((name, _)) => (name, NamedKind::Folder),
        None => (rest, NamedKind::File),
    }
}

fn is_same_kind(one: NamedKind, other: NamedKind) -> bool
    ensures same { result ≡ same_kind one other }
{
    one == other
}

fn is_same(name: &str, kind: NamedKind, last_name: &str, last_kind: NamedKind) -> bool
    ensures same { result ≡ (bytes_eq name.now last_name.now && same_kind kind last_kind) }
{
    name == last_name && is_same_kind(kind, last_kind)
}

// The child that a path leads through, unless it is the last one given.
fn new_child<'a>(
    prefix: &str,
    last_name: &str,
    last_kind: NamedKind,
    path: &'a str,
) -> Option<(&'a str, NamedKind)>
    ensures new { MatchOption result (new_child prefix.now last_name.now last_kind path.now ≡ None) (λ c. new_child prefix.now last_name.now last_kind path.now ≡ Some (record { name = c.0.now; kind = c.1 })) }
{
    let rest = rest_below(prefix, path)?;
    let (name, kind) = first_part(rest);
    if is_same(name, kind, last_name, last_kind) {
        None
    } else {
        Some((name, kind))
    }
}
