//! What is found in a text.
ghost use Rattle.std.specs.Prelude.{◌≡◌};

use crate::{Dep, Mark, Use};
use mt_containers::List;
use std::marker::Model;

/// What is found in a text: its dependencies, each name and kind once, and what a bundle has in place of parts of it.
/// Contracts see it as the record of these.
#[derive(Debug, Drop)]
pub struct DepList {
    deps: List<Dep>,
    uses: List<Use>,
    marks: List<Mark>,
    exporting: bool,
    dynamic: u32,
}

impl Model for DepList {
    ghost use Rattle.mt_tokens.specs.Deps.{Deps};

    ghost Value = { Deps };

    ghost view = { λ l. record { deps = l.deps; uses = l.uses; marks = l.marks; exporting = l.exporting; dynamic = l.dynamic } };
}

impl DepList {
    /// The record of these.
    pub fn new(
        deps: List<Dep>,
        uses: List<Use>,
        marks: List<Mark>,
        exporting: bool,
        dynamic: u32,
    ) -> DepList
        ensures value { result ≡ record { deps = deps; uses = uses; marks = marks; exporting = exporting; dynamic = dynamic } }
    {
        DepList {
            deps,
            uses,
            marks,
            exporting,
            dynamic,
        }
    }

    /// The dependencies, by the places where each is first.
    pub fn deps(&self) -> &List<Dep>
        ensures value { result.now ≡ self.now.deps }
    {
        &self.deps
    }

    /// The ranges that are to be replaced, ascending by their places. None overlaps the next.
    pub fn uses(&self) -> &List<Use>
        ensures value { result.now ≡ self.now.uses }
    {
        &self.uses
    }

    /// The names that the text exports.
    pub fn marks(&self) -> &List<Mark>
        ensures value { result.now ≡ self.now.marks }
    {
        &self.marks
    }

    /// Whether the text has an `export`.
    pub fn exporting(&self) -> bool
        ensures value { result ≡ self.now.exporting }
    {
        self.exporting
    }

    /// How many calls name what only a run can tell.
    pub fn dynamic(&self) -> u32
        ensures value { result ≡ self.now.dynamic }
    {
        self.dynamic
    }
}
