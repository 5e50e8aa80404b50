//! How much a journal holds.
use mt_files::{Change, Entry, Journal, JournalFault, MAX_JOURNAL_BYTES};
use mt_path::Path;
use mt_tokens::{Bytes, MAX_SOURCE_BYTES, Shared};
use std::alloc::Global;
use std::test::Fail;

/// A source of this many bytes.
fn source(alloc: Global, size: usize) -> Result<Shared<Bytes>, Fail> {
    let bytes = Vec::from_elem(alloc, b' ', size)?;
    Ok(Shared::new(alloc, Bytes::from_vec(bytes))?)
}

/// How many changes and bytes a journal holds that refused a change since it is full.
fn full(pushed: Result<(), JournalFault>) -> Option<(u32, u64)> {
    match pushed {
        Err(JournalFault::JournalFull { changes, bytes }) => Some((changes, bytes)),
        _ => None,
    }
}

/// Puts a source at `/a.js`. Answers what the journal holds if it is full.
fn put(
    alloc: Global,
    journal: &mut Journal,
    source: &Shared<Bytes>,
) -> Result<Option<(u32, u64)>, Fail> {
    let path = Path::parse(alloc, "/a.js")?;
    let source = source.clone()?;
    if !path.is_source() || source.len() > MAX_SOURCE_BYTES {
        return Ok(Some((0, 0)));
    }
    Ok(full(journal.push(Change::Put(path, Entry::Source(source)))))
}

/// Whether a journal takes a source this many times.
fn takes(
    alloc: Global,
    journal: &mut Journal,
    source: &Shared<Bytes>,
    times: usize,
) -> Result<bool, Fail> {
    for _ in 0..times {
        if put(alloc, journal, source)?.is_some() {
            return Ok(false);
        }
    }
    Ok(true)
}

/// Deletes a file. Answers what the journal holds if it is full.
fn del(alloc: Global, journal: &mut Journal, text: &str) -> Result<Option<(u32, u64)>, Fail> {
    let path = Path::parse(alloc, text)?;
    Ok(full(journal.push(Change::Del(path))))
}

/// Puts a file that is no source. Answers what the journal holds if it is full.
fn put_other(alloc: Global, journal: &mut Journal) -> Result<Option<(u32, u64)>, Fail> {
    let path = Path::parse(alloc, "/a.png")?;
    if path.is_source() {
        return Ok(Some((0, 0)));
    }
    Ok(full(journal.push(Change::Put(path, Entry::Other))))
}

#[test]
fn a_journal_holds_65_536_changes(rt: HostRuntime) -> Result<(), Fail> {
    let mut journal = Journal::new(rt.alloc());
    assert!(rt; journal.is_empty());
    for held in 0..65_536 {
        assert_eq!(rt; journal.len(), held);
        assert!(rt; del(rt.alloc(), &mut journal, "/a.js")?.is_none());
    }
    assert!(rt; del(rt.alloc(), &mut journal, "/b.js")? == Some((65_536, 0)));
    assert_eq!(rt; journal.len(), 65_536);
    for change in journal.as_slice() {
        assert_eq!(rt; change.path().as_str(), "/a.js");
    }
    Ok(())
}

#[test]
fn the_sources_of_a_journal_have_1_073_741_824_bytes(rt: HostRuntime) -> Result<(), Fail> {
    let large = source(rt.alloc(), MAX_SOURCE_BYTES)?;
    let less = source(rt.alloc(), MAX_SOURCE_BYTES - 1)?;
    let one = source(rt.alloc(), 1)?;
    let mut journal = Journal::new(rt.alloc());
    assert!(rt; takes(rt.alloc(), &mut journal, &large, 63)?);
    for (source, full) in [
        (&less, None),
        (&large, Some((64, 1_073_741_823))),
        (&one, None),
        (&one, Some((65, 1_073_741_824))),
    ] {
        assert!(rt; put(rt.alloc(), &mut journal, source)? == full);
    }
    assert_eq!(rt; journal.bytes(), MAX_JOURNAL_BYTES);
    let last = journal.as_slice().last().ok_or("a change")?;
    assert_eq!(rt; last.source_len(), 1);
    Ok(())
}

#[test]
fn a_change_without_a_source_fits_a_journal_full_of_bytes(rt: HostRuntime) -> Result<(), Fail> {
    let large = source(rt.alloc(), MAX_SOURCE_BYTES)?;
    let empty = source(rt.alloc(), 0)?;
    let mut journal = Journal::new(rt.alloc());
    assert!(rt; takes(rt.alloc(), &mut journal, &large, 64)?);
    assert!(rt; put_other(rt.alloc(), &mut journal)?.is_none());
    assert!(rt; del(rt.alloc(), &mut journal, "/a.js")?.is_none());
    assert!(rt; takes(rt.alloc(), &mut journal, &empty, 1)?);
    assert!(rt; journal.len() == 67 && journal.bytes() == 1_073_741_824);
    Ok(())
}
