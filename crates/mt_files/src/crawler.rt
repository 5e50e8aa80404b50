//! The crawl of a folder: the files that it meets are found first, and then they are taken in ascending order.
ghost use Rattle.std.specs.Prelude.{◌≡◌, ◌≤◌, ◌<◌, ◌⊎◌, List, ℕ, Ok, Err, IfOk, IsErrOf, true};
ghost use Rattle.std.specs.FinMap as map;
ghost use Rattle.mt_path.specs.Names.{is_source};
ghost use Rattle.mt_io.specs.Files.{Files};
ghost use Rattle.mt_io.specs.Seen.{Looks, Tells};
ghost use Rattle.mt_files.specs.Listings.{IsDescribed};
ghost use Rattle.mt_files.specs.CrawlReads.{IsReadOf, IsTaken};
ghost use Rattle.mt_files.specs.Search.{files_met};
ghost use Rattle.mt_files.specs.Snapshots.{source_at};
ghost use Rattle.mt_files.specs.Crawl.{IsStep, crawled, max_files, with_source};

use crate::fault::CrawlFault;
use crate::file_map::{Entry, FileMap};
use crate::search::find_files;
use mt_io::Folder;
use mt_path::{Path, PathSet};
use mt_tokens::{Bytes, MAX_SOURCE_BYTES, Shared};
use std::alloc::Global;

/// The most files that a snapshot has.
pub const MAX_FILES: usize = 262_144;

/// The most bytes that the sources of a snapshot have together.
pub const MAX_FOLDER_BYTES: u64 = 1_073_741_824;

/// The files that were taken so far, and how many bytes the sources among them have.
#[derive(Drop)]
pub struct PartialSnapshot {
    pub files: FileMap,
    pub bytes: u64,
}

// Takes a source of these bytes, unless it or all sources are too large.
fn take_source(
    alloc: Global,
    path: Path,
    bytes: Bytes,
    part: &mut PartialSnapshot,
) -> Result<(), CrawlFault>
    requires source { is_source path ≡ true }
    requires few { map.len part.old.files < MAX_FILES }
    ensures exact { (result ≡ Err CrawlFault.NoMemory) ⊎ IsStep (with_source path bytes part.old) part.new result }
    ensures few { map.len part.new.files ≤ max_files }
{
    let size = bytes.len();
    if size > MAX_SOURCE_BYTES {
        return Err(CrawlFault::FileTooLarge { path, size });
    }
    let total = part.bytes.saturating_add(size as u64);
    if total > MAX_FOLDER_BYTES {
        return Err(CrawlFault::TooManyBytes);
    }
    let bytes = Shared::new(alloc, bytes)?;
    part.files.insert(path, Entry::Source(bytes))?;
    part.bytes = total;
    Ok(())
}

// Takes a file, unless there are too many, and reads it if it is a source.
fn take_file<F: Folder>(
    alloc: Global,
    folder: &mut F,
    path: &Path,
    part: &mut PartialSnapshot,
) -> Result<(), CrawlFault>
    requires there { (tree : Files) → Tells (F.seen folder.old) tree → map.contains_key tree path.now ≡ true }
    ensures taken { (result ≡ Err CrawlFault.NoMemory) ⊎ (result ≡ Err CrawlFault.Failed) ⊎ IsTaken F.reads (F.seen folder.old) path.now part.old part.new result }
    ensures few { map.len part.old.files ≤ max_files → map.len part.new.files ≤ max_files }
    ensures looks { Looks (F.seen folder.old) (F.seen folder.new) (IsErrOf result CrawlFault.Failed) }
{
    if part.files.len() >= MAX_FILES {
        return Err(CrawlFault::TooManyFiles);
    }
    if path.is_source() {
        let bytes = folder.read(alloc, path)?;
        return take_source(alloc, path.clone()?, bytes, part);
    }
    part.files.insert(path.clone()?, Entry::Other)?;
    Ok(())
}

// Takes files in ascending order.
fn take_files<F: Folder>(
    alloc: Global,
    folder: &mut F,
    paths: &PathSet,
) -> Result<FileMap, CrawlFault>
    requires there { (tree : Files) → Tells (F.seen folder.old) tree → map.keys paths.now ≡ files_met tree }
    ensures read { (result ≡ Err CrawlFault.NoMemory) ⊎ (result ≡ Err CrawlFault.Failed) ⊎ IsReadOf F.reads (F.seen folder.old) paths.now result }
    ensures few { IfOk result (λ files. map.len files ≤ max_files) }
    ensures looks { Looks (F.seen folder.old) (F.seen folder.new) (IsErrOf result CrawlFault.Failed) }
{
    let mut part = PartialSnapshot {
        files: FileMap::new(alloc),
        bytes: 0,
    };
    for path in paths.keys() {
        if let Err(fault) = take_file(alloc, folder, path, &mut part) {
            return Err(fault);
        }
    }
    Ok(part.files)
}

/// A snapshot of a folder's files.
///
/// The files are taken in ascending order of their paths' texts. A folder whose name begins with `.` isn't entered; a
/// file whose name does is met. A child that is neither a file nor a folder is passed over, and so is one whose name isn't
/// a segment or whose path would be too long. A file that is no source isn't read.
///
/// The first limit that is met is answered: a file more than `MAX_FILES`, then a source of more than `MAX_SOURCE_BYTES`
/// bytes, then more than `MAX_FOLDER_BYTES` bytes of sources.
pub fn crawl<F: Folder>(alloc: Global, folder: &mut F) -> Result<FileMap, CrawlFault>
    ensures exact { (tree : Files) → Tells (F.seen folder.old) tree → (result ≡ Err CrawlFault.NoMemory) ⊎ (result ≡ Err CrawlFault.Failed) ⊎ (result ≡ crawled tree) }
    // Also of a folder that tells nothing.
    ensures described { (result ≡ Err CrawlFault.NoMemory) ⊎ (result ≡ Err CrawlFault.Failed) ⊎ ((tree : Files) × IsDescribed F.lists F.reads tree × (result ≡ crawled tree)) }
    ensures read { IfOk result (λ files. (path bytes : List ℕ) → source_at files path ≡ Some bytes → F.reads path bytes) }
    ensures few { IfOk result (λ files. map.len files ≤ max_files) }
    ensures looks { Looks (F.seen folder.old) (F.seen folder.new) (IsErrOf result CrawlFault.Failed) }
{
    let paths = find_files(alloc, folder)?;
    take_files(alloc, folder, &paths)
}
