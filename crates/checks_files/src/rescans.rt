//! What a rescan reports.
use crate::files::{add, files, one};
use mt_files::{Change, ChangeList, CrawlFault, Entry, FileMap, crawl, rescan};
use mt_io::{Folder, MapFolder, SureFolder};
use mt_path::Path;
use mt_tokens::{Bytes, MAX_SOURCE_BYTES};
use std::alloc::Global;
use std::test::Fail;

const BEFORE: [&str; 5] = ["/a.js", "/b.js", "/b/c.json", "/d.png", "/e.js"];

/// A folder of files that hold their own paths.
fn folder(alloc: Global, texts: &[&str]) -> Result<SureFolder, Fail> {
    Ok(SureFolder::new(files(alloc, texts)?))
}

/// The snapshot of such files.
fn snapshot(alloc: Global, texts: &[&str]) -> Result<FileMap, Fail> {
    Ok(crawl(alloc, &mut folder(alloc, texts)?)?)
}

fn write(alloc: Global, folder: &mut SureFolder, text: &str, bytes: &[u8]) -> Result<(), Fail> {
    let path = Path::parse(alloc, text)?;
    folder.write(alloc, &path, bytes)?;
    Ok(())
}

/// Whether a change is this: the bytes of the source that is put, `other` or `del`.
fn is_change(change: &Change, text: &str, kept: &str) -> bool {
    let found = match change {
        Change::Put(_, Entry::Source(bytes)) => bytes.as_slice(),
        Change::Put(_, Entry::Other) => b"other".as_slice(),
        Change::Del(_) => b"del".as_slice(),
    };
    change.path().as_str() == text && found == kept.as_bytes()
}

/// Whether a source is too large: this one, of this many bytes.
fn is_too_large(fault: &CrawlFault, text: &str, bytes: usize) -> bool {
    match fault {
        CrawlFault::FileTooLarge { path, size } => path.as_str() == text && *size == bytes,
        _ => false,
    }
}

#[test]
fn an_unchanged_folder_has_no_changes(rt: HostRuntime) -> Result<(), Fail> {
    let before = snapshot(rt.alloc(), &BEFORE)?;
    let mut folder = folder(rt.alloc(), &BEFORE)?;
    let changes = rescan(rt.alloc(), &mut folder, &before)?;
    assert!(rt; changes.is_empty());
    Ok(())
}

#[test]
fn a_rescan_reports_what_came_changed_and_went(rt: HostRuntime) -> Result<(), Fail> {
    let before = snapshot(rt.alloc(), &BEFORE)?;
    let texts = ["/a.js", "/b/c.json", "/d", "/e.js", "/f.ts"];
    let mut folder = folder(rt.alloc(), &texts)?;
    write(rt.alloc(), &mut folder, "/e.js", b"1;")?;
    write(rt.alloc(), &mut folder, "/b.txt", b"2")?;
    let changes = rescan(rt.alloc(), &mut folder, &before)?;
    let expected = [
        ("/b.js", "del"),
        ("/b.txt", "other"),
        ("/d", "other"),
        ("/d.png", "del"),
        ("/e.js", "1;"),
        ("/f.ts", "/f.ts"),
    ];
    assert_eq!(rt; changes.len(), expected.len());
    for (change, (text, kept)) in changes.into_vec().iter().zip(expected) {
        assert!(rt; is_change(change, text, kept), "{text}");
    }
    Ok(())
}

#[test]
fn only_the_bytes_of_sources_count(rt: HostRuntime) -> Result<(), Fail> {
    let before = snapshot(rt.alloc(), &BEFORE)?;
    let mut folder = folder(rt.alloc(), &BEFORE)?;
    write(rt.alloc(), &mut folder, "/d.png", b"other bytes")?;
    write(rt.alloc(), &mut folder, "/a.js", b"/a.js")?;
    let changes = rescan(rt.alloc(), &mut folder, &before)?;
    assert!(rt; changes.is_empty());
    Ok(())
}

#[test]
fn the_changes_lead_to_the_folder(rt: HostRuntime) -> Result<(), Fail> {
    let mut kept = snapshot(rt.alloc(), &BEFORE)?;
    let mut folder = folder(rt.alloc(), &["/b.js", "/b/d.js", "/d.png"])?;
    let changes = rescan(rt.alloc(), &mut folder, &kept)?;
    for change in changes.as_slice() {
        kept.apply(change)?;
    }
    assert!(rt; changes.len() == 4 && kept.len() == 3);
    let none = rescan(rt.alloc(), &mut folder, &kept)?;
    assert!(rt; none.is_empty());
    Ok(())
}

#[test]
fn a_failing_folder_is_reported(rt: HostRuntime) -> Result<(), Fail> {
    let before = snapshot(rt.alloc(), &BEFORE)?;
    for (call, fails) in [(1, true), (2, true), (4, true), (7, false)] {
        let mut folder = MapFolder::new(files(rt.alloc(), &BEFORE)?, one(rt.alloc(), call)?);
        match rescan(rt.alloc(), &mut folder, &before) {
            Ok(changes) => assert!(rt; !fails && changes.is_empty()),
            Err(fault) => {
                assert!(rt; fails && matches!(fault, CrawlFault::Failed) && folder.faults() == 1);
            }
        }
    }
    Ok(())
}

#[test]
fn a_source_that_is_too_large_is_refused(rt: HostRuntime) -> Result<(), Fail> {
    let before = snapshot(rt.alloc(), &BEFORE)?;
    let mut tree = files(rt.alloc(), &BEFORE)?;
    let bytes = Vec::from_elem(rt.alloc(), 0, MAX_SOURCE_BYTES + 1)?;
    add(rt.alloc(), &mut tree, "/b.js", Bytes::from_vec(bytes))?;
    let mut folder = SureFolder::new(tree);
    let refused = match rescan(rt.alloc(), &mut folder, &before) {
        Ok(_changes) => false,
        Err(fault) => is_too_large(&fault, "/b.js", 16_777_217),
    };
    assert!(rt; refused);
    Ok(())
}

#[test]
fn a_list_keeps_the_order_of_its_changes(rt: HostRuntime) -> Result<(), Fail> {
    let mut changes = ChangeList::new(rt.alloc());
    for text in ["/b.js", "/a.js", "/b.js"] {
        let del = Change::Del(Path::parse(rt.alloc(), text)?);
        changes.push(del)?;
    }
    assert_eq!(rt; changes.len(), 3);
    for (change, text) in changes.as_slice().iter().zip(["/b.js", "/a.js", "/b.js"]) {
        assert!(rt; is_change(change, text, "del"));
    }
    Ok(())
}
