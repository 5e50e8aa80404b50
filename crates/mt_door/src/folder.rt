//! A folder of the file system.
ghost use Rattle.std.specs.Prelude.{⊤, ◌≡◌, ◌≤◌, None};
ghost use Rattle.mt_io.specs.Causes.{Rose};

use mt_io::{Folder, Named, NamedKind, NamedList, Trouble};
use mt_path::Path;
use mt_tokens::{Bytes, MAX_SOURCE_BYTES, Text};
use std::alloc::{AllocError, Global};
use std::fs::{self, File};
use std::io::{self, ErrorKind, Read};
use std::rt::Files;

/// The most bytes that are read of a file: one more than a source may have, so that its reader sees that there are more.
const MAX_READ_BYTES: u64 = MAX_SOURCE_BYTES as u64 + 1;

/// A folder of the file system. Of a file with more bytes than a source may have it reads one byte past that limit, and
/// no more.
#[derive(Drop)]
pub struct RealFolder<'a> {
    rt: &'a HostRuntime,
    root: &'a str,
    faults: u64,
}

impl<'a> RealFolder<'a> {
    /// The folder at `root`, a path of the file system.
    pub fn new(rt: &'a HostRuntime, root: &'a str) -> RealFolder<'a>
        ensures none { result.faults ≡ 0 }
    {
        RealFolder {
            rt,
            root,
            faults: 0,
        }
    }

    // Where a path is in the file system.
    fn place(&self, alloc: Global, path: &Path) -> Result<String, AllocError> {
        let mut place = String::from_str(alloc, self.root)?;
        place.push_str(path.as_str())?;
        Ok(place)
    }

    // A name that isn't UTF-8 is no segment of a path: it is left out.
    fn names(&self, alloc: Global, place: &str) -> io::Result<NamedList> {
        let mut names = NamedList::new(alloc);
        for entry in fs::read_dir(self.rt, place)? {
            let entry = match entry {
                Ok(entry) => entry,
                Err(error) => {
                    if error.kind() == ErrorKind::InvalidFilename {
                        continue;
                    }
                    return Err(error);
                }
            };
            let file_type = entry.file_type()?;
            let kind = if file_type.is_file() {
                NamedKind::File
            } else if file_type.is_dir() {
                NamedKind::Folder
            } else {
                NamedKind::Other
            };
            let name = Text::from_str(alloc, entry.file_name())?;
            names.push(Named { name, kind })?;
        }
        Ok(names)
    }

    // The first bytes of a file, read in pieces, up to the most that are read.
    fn first_bytes(&self, alloc: Global, place: &str) -> io::Result<Vec<u8>> {
        let mut bytes = Vec::new(alloc);
        File::open(self.rt, place)?
            .take(MAX_READ_BYTES)
            .read_to_end(&mut bytes)?;
        Ok(bytes)
    }

    // Counts a fault, unless memory ran out.
    fn trouble(&mut self, error: io::Error) -> Trouble
        ensures later { self.old.faults ≤ self.new.faults }
        ensures failed { result ≡ Trouble.Failed → Rose self.old.faults self.new.faults }
    {
        if error.kind() == ErrorKind::OutOfMemory {
            return Trouble::NoMemory;
        }
        self.faults = self.faults.saturating_add(1);
        Trouble::Failed
    }
}

impl Folder for RealFolder<'_> {
    ghost seen = { λ f. record { faults = f.faults; told = None; beside = None } };

    ghost lists = { λ _ _. ⊤ };

    ghost reads = { λ _ _. ⊤ };

    fn faults(&self) -> u64 {
        self.faults
    }

    fn list(&mut self, alloc: Global, folder: &Path) -> Result<NamedList, Trouble> {
        let Ok(place) = self.place(alloc, folder) else {
            return Err(Trouble::NoMemory);
        };
        match self.names(alloc, place.as_str()) {
            Ok(names) => Ok(names),
            Err(error) => Err(self.trouble(error)),
        }
    }

    fn read(&mut self, alloc: Global, path: &Path) -> Result<Bytes, Trouble> {
        let Ok(place) = self.place(alloc, path) else {
            return Err(Trouble::NoMemory);
        };
        match self.first_bytes(alloc, place.as_str()) {
            Ok(bytes) => Ok(Bytes::from_vec(bytes)),
            Err(error) => Err(self.trouble(error)),
        }
    }

    fn write(&mut self, alloc: Global, path: &Path, bytes: &[u8]) -> Result<(), Trouble> {
        let Ok(place) = self.place(alloc, path) else {
            return Err(Trouble::NoMemory);
        };
        match fs::write(self.rt, place.as_str(), bytes) {
            Ok(()) => Ok(()),
            Err(error) => Err(self.trouble(error)),
        }
    }
}
