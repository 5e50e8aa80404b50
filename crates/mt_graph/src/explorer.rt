//! Who finds the modules of a build.
ghost use Rattle.std.specs.Prelude.{◌≡◌, IfOk, true};
ghost use Rattle.std.specs.List.{All};
ghost use Rattle.mt_files.specs.Snapshots.{has_source};
ghost use Rattle.mt_graph.specs.Explored.{IsExploration, explored};

use crate::found::FoundList;
use mt_files::FileMap;
use mt_package::Options;
use mt_path::{Path, PathSet};
use std::alloc::{AllocError, Global};

/// Finds the modules to which seeds lead.
///
/// Where it is sure, each output is what its source becomes. Else an output may be another one of the same source, as one
/// that a cache kept. Which of the two holds depends on the explorer alone, and each call keeps it.
pub trait Explorer {
    ghost sure: { Self → Type 0 };

    /// Finds, by ascending path, what is at the ends of the lists of paths that begin at a seed and in which each next
    /// path is not known and is a source to which the one before leads. Refused only where memory runs out.
    fn explore(
        &mut self,
        alloc: Global,
        files: &FileMap,
        options: &Options,
        seeds: &[Path],
        known: &PathSet,
    ) -> Result<FoundList, AllocError>
        requires sources { All (λ seed. has_source files.now seed ≡ true) seeds.now }
        ensures whole { IfOk result (IsExploration options.now files.now seeds.now known.now) }
        ensures exact { IfOk result (λ founds. sure self.old → founds ≡ explored options.now files.now seeds.now known.now) }
        ensures kept { sure self.old → sure self.new };
}
