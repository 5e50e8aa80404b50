//! The paths that a search asks about.
ghost use Rattle.std.specs.Prelude.{◌≡◌, OnOk};
ghost use Rattle.mt_resolve.specs.Runs.{with_run};
ghost use Rattle.mt_resolve.specs.declared.probes.Run.TheVariants.{Files, Package};

use mt_containers::{List, Shared, TextList};
use mt_path::Path;
use std::alloc::{AllocError, Global};
use std::marker::Model;

/// Paths that are asked about one after another.
#[derive(Debug, Drop)]
pub enum Run {
    /// The first `count` files that the path `base` may mean: itself, and with each ending.
    Files { base: Path, count: usize },
    /// A package file.
    Package(Path),
}

/// Runs in a row.
pub type RunList = List<Run>;

/// The paths that were asked about, in their order, which contracts see as the list of their texts.
#[derive(Drop)]
pub struct Probes {
    endings: Shared<TextList>,
    runs: RunList,
}

impl Model for Probes {
    ghost use Rattle.std.specs.Prelude.{List as Row, ℕ};
    ghost use Rattle.mt_resolve.specs.Runs.{paths_in};

    ghost Value = { Row (Row ℕ) };

    ghost view = { λ p. paths_in p.endings p.runs };
}

impl Probes {
    ghost use Rattle.mt_resolve.specs.Runs.{paths_in};

    /// The paths of these runs with these endings.
    pub(crate) fn new(endings: Shared<TextList>, runs: RunList) -> Probes
        ensures paths { result ≡ paths_in endings runs }
    {
        Probes { endings, runs }
    }
}

/// The runs of a search, where they are kept.
#[derive(Drop)]
pub(crate) struct Log {
    pub(crate) keep: bool,
    pub(crate) runs: RunList,
}

impl Log {
    /// Adds the first files that a path may mean. Where runs aren't kept, no path is copied.
    pub(crate) fn add_files(&mut self, base: &Path, count: usize) -> Result<(), AllocError>
        ensures ok { OnOk result (self.new ≡ with_run self.old (Files base.now count)) }
    {
        if self.keep {
            let base = base.clone()?;
            self.runs.push(Run::Files { base, count })?;
        }
        Ok(())
    }

    /// Adds a package file. Where runs aren't kept, no path is copied.
    pub(crate) fn add_package(&mut self, file: &Path) -> Result<(), AllocError>
        ensures ok { OnOk result (self.new ≡ with_run self.old (Package file.now)) }
    {
        if self.keep {
            self.runs.push(Run::Package(file.clone()?))?;
        }
        Ok(())
    }
}
