//! What a crawl meets, passes over and refuses.
ghost use Rattle.std.specs.Prelude.{⊤, None};

use mt_files::{CrawlFault, Entry, FileMap, crawl, path_kind};
use mt_io::{Folder, MapFolder, Named, NamedKind, NamedList, SureFolder, Trouble};
use mt_path::{Path, PathMap};
use mt_tokens::{Bytes, MAX_SOURCE_BYTES, PathKind, Shared, Text};
use std::alloc::{AllocError, Global};
use std::test::Fail;

/// Puts a file of these bytes.
pub(crate) fn add(
    alloc: Global,
    tree: &mut PathMap<Bytes>,
    text: &str,
    bytes: Bytes,
) -> Result<(), Fail> {
    tree.insert(Path::parse(alloc, text)?, bytes)?;
    Ok(())
}

/// Files that hold their own paths.
pub(crate) fn files(alloc: Global, texts: &[&str]) -> Result<PathMap<Bytes>, Fail> {
    let mut tree = PathMap::new(alloc);
    for text in texts {
        let bytes = Bytes::from_slice(alloc, text.as_bytes())?;
        add(alloc, &mut tree, text, bytes)?;
    }
    Ok(tree)
}

/// A vector of one number.
pub(crate) fn one(alloc: Global, number: u64) -> Result<Vec<u64>, AllocError> {
    Vec::from_elem(alloc, number, 1)
}

/// Whether a snapshot has a source of this path that holds its own path.
fn has_source(alloc: Global, found: &FileMap, text: &str) -> Result<bool, Fail> {
    match found.source(&Path::parse(alloc, text)?) {
        Some(bytes) => Ok(bytes.as_slice() == text.as_bytes()),
        None => Ok(false),
    }
}

#[test]
fn hidden_folders_are_passed_over(rt: HostRuntime) -> Result<(), Fail> {
    let texts = [
        "/.git/x.js",
        "/.env.js",
        "/a.txt",
        "/lib/.b.ts",
        "/lib/a.js",
        "/lib/c/.d/e.js",
    ];
    let mut folder = SureFolder::new(files(rt.alloc(), &texts)?);
    let found = crawl(rt.alloc(), &mut folder)?;
    assert!(rt; found.len() == 4 && !found.is_empty());
    for text in ["/.env.js", "/lib/.b.ts", "/lib/a.js"] {
        assert!(rt; has_source(rt.alloc(), &found, text)?, "{text}");
    }
    let other = found.get(&Path::parse(rt.alloc(), "/a.txt")?);
    assert!(rt; matches!(other, Some(Entry::Other)));
    let hidden = found.get(&Path::parse(rt.alloc(), "/.git/x.js")?);
    assert!(rt; hidden.is_none());
    Ok(())
}

#[test]
fn the_first_limit_is_answered(rt: HostRuntime) -> Result<(), Fail> {
    for (size, refused) in [(MAX_SOURCE_BYTES, false), (MAX_SOURCE_BYTES + 1, true)] {
        let mut tree = files(rt.alloc(), &["/b.js"])?;
        for text in ["/a/z.js", "/a.js"] {
            let bytes = Vec::from_elem(rt.alloc(), 0, size)?;
            add(rt.alloc(), &mut tree, text, Bytes::from_vec(bytes))?;
        }
        let mut folder = SureFolder::new(tree);
        match crawl(rt.alloc(), &mut folder) {
            Ok(found) => assert!(rt; !refused && found.len() == 3),
            Err(CrawlFault::FileTooLarge { path, size }) => {
                assert!(rt; refused && path.as_str() == "/a.js" && size == 16_777_217);
            }
            Err(_) => assert!(rt; false),
        }
    }
    Ok(())
}

#[test]
fn a_failing_call_ends_the_crawl(rt: HostRuntime) -> Result<(), Fail> {
    for (call, fails) in [(1, true), (2, true), (4, true), (5, false)] {
        let tree = files(rt.alloc(), &["/a/b.js", "/c.js", "/d.png"])?;
        let mut folder = MapFolder::new(tree, one(rt.alloc(), call)?);
        match crawl(rt.alloc(), &mut folder) {
            Ok(found) => assert!(rt; !fails && found.len() == 3),
            Err(fault) => {
                assert!(rt; fails && matches!(fault, CrawlFault::Failed) && folder.faults() == 1);
            }
        }
    }
    Ok(())
}

/// Lists names that are no segments, a child that is no file, and one file.
#[derive(Drop)]
struct OddFolder;

fn odd_names(alloc: Global) -> Result<NamedList, AllocError> {
    let mut names = NamedList::new(alloc);
    for (name, kind) in [
        ("a\u{1}.js", NamedKind::File),
        ("..", NamedKind::Folder),
        ("b.js", NamedKind::Other),
        ("c.js", NamedKind::File),
    ] {
        let name = Text::from_str(alloc, name)?;
        names.push(Named { name, kind })?;
    }
    Ok(names)
}

impl Folder for OddFolder {
    ghost seen = { λ _. record { faults = 0; told = None; beside = None } };

    ghost lists = { λ _ _. ⊤ };

    ghost reads = { λ _ _. ⊤ };

    fn faults(&self) -> u64 {
        0
    }

    fn list(&mut self, alloc: Global, _folder: &Path) -> Result<NamedList, Trouble> {
        Ok(odd_names(alloc)?)
    }

    fn read(&mut self, alloc: Global, path: &Path) -> Result<Bytes, Trouble> {
        Ok(Bytes::from_slice(alloc, path.as_str().as_bytes())?)
    }

    fn write(&mut self, _alloc: Global, _path: &Path, _bytes: &[u8]) -> Result<(), Trouble> {
        Ok(())
    }
}

#[test]
fn names_that_are_no_segments_are_passed_over(rt: HostRuntime) -> Result<(), Fail> {
    let mut folder = OddFolder;
    let found = crawl(rt.alloc(), &mut folder)?;
    assert_eq!(rt; found.len(), 1);
    assert!(rt; has_source(rt.alloc(), &found, "/c.js")?);
    Ok(())
}

/// The entry of a source of these bytes.
fn entry(alloc: Global, bytes: &[u8]) -> Result<Entry, AllocError> {
    Ok(Entry::Source(Shared::new(alloc, Bytes::from_slice(alloc, bytes)?)?))
}

#[test]
fn entries_of_the_same_bytes_are_the_same(rt: HostRuntime) -> Result<(), Fail> {
    let first = entry(rt.alloc(), b"x;")?;
    assert!(rt; first.is_same(&first.share()?));
    assert!(rt; first.is_same(&entry(rt.alloc(), b"x;")?));
    assert!(rt; !first.is_same(&entry(rt.alloc(), b"x")?));
    assert!(rt; !first.is_same(&Entry::Other) && !Entry::Other.is_same(&first));
    assert!(rt; Entry::Other.is_same(&Entry::Other.share()?));
    Ok(())
}

#[test]
fn only_the_extension_makes_a_source_json(rt: HostRuntime) -> Result<(), Fail> {
    for (text, kind) in [
        ("/a.json", PathKind::Json),
        ("/a.js.json", PathKind::Json),
        ("/a.json.js", PathKind::Script),
        ("/a.JSON", PathKind::Script),
        ("/json", PathKind::Script),
    ] {
        let path = Path::parse(rt.alloc(), text)?;
        assert!(rt; path_kind(&path) == kind, "{text}");
    }
    Ok(())
}
