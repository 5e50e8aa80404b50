//! What several tests share.
use mt_files::{Change, Entry, FileMap};
use mt_fresh::{Graph, traverse};
use mt_io::VecSink;
use mt_package::Options;
use mt_path::{Path, PathSet};
use mt_tokens::{Bytes, MAX_SOURCE_BYTES, Shared};
use std::alloc::{AllocError, Global};
use std::test::Fail;

/// A sink with this much room, whose writes of these numbers fail.
pub(crate) fn sink(alloc: Global, room: usize, failing: &[u64]) -> Result<VecSink, AllocError> {
    VecSink::new(alloc, room, Vec::from_slice(alloc, failing)?)
}

/// These paths as a set.
pub(crate) fn set_of(alloc: Global, texts: &[&str]) -> Result<PathSet, Fail> {
    let mut paths = PathSet::new(alloc);
    for text in texts {
        paths.insert(Path::parse(alloc, text)?, ())?;
    }
    Ok(paths)
}

/// Puts a source into a snapshot.
pub(crate) fn put(
    alloc: Global,
    files: &mut FileMap,
    text: &str,
    source: &str,
) -> Result<(), Fail> {
    let path = Path::parse(alloc, text)?;
    let bytes = Bytes::from_slice(alloc, source.as_bytes())?;
    let bytes = Shared::new(alloc, bytes)?;
    if path.is_source() && bytes.len() <= MAX_SOURCE_BYTES {
        files.apply(&Change::Put(path, Entry::Source(bytes)))?;
    }
    Ok(())
}

/// The snapshot of these sources.
pub(crate) fn snapshot(alloc: Global, sources: &[(&str, &str)]) -> Result<FileMap, Fail> {
    let mut files = FileMap::new(alloc);
    for (text, source) in sources {
        put(alloc, &mut files, text, source)?;
    }
    Ok(files)
}

/// The graph from one entry.
#[tactic(auto, using(crate::proofs::Entries::one_distinct))]
pub(crate) fn built(alloc: Global, files: &FileMap, entry: &str) -> Result<Graph, Fail> {
    let options = Options::standard(alloc)?;
    let entries = [Path::parse(alloc, entry)?];
    Ok(traverse(alloc, files, &options, &entries)?)
}
