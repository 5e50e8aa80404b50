//! The files that a path may mean.
ghost use Rattle.std.specs.Prelude.{◌≡◌, false, length, map, IfOk};
ghost use Rattle.mt_files.specs.Resolve.{asked, files_for, first_stop, index_for};
ghost use Rattle.mt_path.specs.Names.{is_root};
ghost use Rattle.mt_files.specs.Resolve.Candidate.{Source};
ghost use Rattle.mt_resolve.specs.Runs.{files_by};
ghost use Rattle.mt_resolve.specs.Searches.{Ends};

use crate::place::Place;
use crate::probes::Log;
use mt_files::Target;
use mt_path::Path;
use std::alloc::{AllocError, Global};

/// The first source among the files that a path may mean, and how many of those were asked about.
#[derive(Drop)]
struct Hit {
    found: Option<Target>,
    count: usize,
}

impl Place<'_> {
    /// The first source among a path that isn't the root and the same path with each ending.
    fn hit(&self, alloc: Global, path: &Path) -> Result<Hit, AllocError>
        requires path { is_root path.now ≡ false }
        ensures found { IfOk result (λ hit. hit.found ≡ first_stop self.now.files.now (map Source (files_by self.now.endings path.now))) }
        ensures count { IfOk result (λ hit. hit.count ≡ length (asked self.now.files.now (map Source (files_by self.now.endings path.now)))) }
    {
        if self.files.source(path).is_some() {
            return Ok(Hit {
                found: Some(Target::File(path.clone()?)),
                count: 1,
            });
        }
        let mut count = 1;
        for ending in self.endings.as_slice() {
            let Some(file) = path.with_suffix(alloc, ending.as_str())? else {
                continue;
            };
            count += 1;
            if self.files.source(&file).is_some() {
                return Ok(Hit {
                    found: Some(Target::File(file)),
                    count,
                });
            }
        }
        Ok(Hit { found: None, count })
    }

    /// The first source among the files that a path may mean.
    pub(crate) fn first_file(
        &self,
        alloc: Global,
        log: &mut Log,
        path: &Path,
    ) -> Result<Option<Target>, AllocError>
        ensures exact { IfOk result (λ found. Ends self.now.endings self.now.files.now log.old log.new found (map Source (files_for self.now.options.now path.now))) }
    {
        if path.is_root() {
            return Ok(None);
        }
        let hit = self.hit(alloc, path)?;
        log.add_files(path, hit.count)?;
        Ok(hit.found)
    }

    /// The first source among the files `index` of a folder.
    pub(crate) fn first_index(
        &self,
        alloc: Global,
        log: &mut Log,
        folder: &Path,
    ) -> Result<Option<Target>, AllocError>
        ensures exact { IfOk result (λ found. Ends self.now.endings self.now.files.now log.old log.new found (map Source (index_for self.now.options.now folder.now))) }
    {
        match folder.child(alloc, "index")? {
            Some(path) => self.first_file(alloc, log, &path),
            None => Ok(None),
        }
    }
}
