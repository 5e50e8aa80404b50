//! How much a revision differs from the one before.
ghost use Rattle.std.specs.Prelude.{◌≡◌, not, ◌&&◌, is_some, length, filter, option_copied};
ghost use Rattle.mt_revision.specs.Revisions.{module_had};
ghost use Rattle.std.specs.FinMap as map;

use crate::delta_lengths::DeltaLengths;
use crate::revision::Revision;
use crate::touched::module_before;

/// Whether a revision has a module under a number.
fn had(before: Option<&Revision>, number: u32) -> bool
    ensures had { result ≡ is_some (module_had (option_copied before.entry) number) }
{
    module_before(before, number).is_some()
}

/// How many of the touched numbers have a module in this revision alone.
fn count_added(before: Option<&Revision>, now: &Revision) -> usize
    ensures count { result ≡ length (filter (λ n. not (is_some (module_had (option_copied before.entry) n))) now.now.touched) }
{
    let touched = now.touched.as_slice();
    touched.iter().filter(|n| !had(before, **n)).count()
}

/// How many of the touched numbers have a module in both revisions.
fn count_modified(before: Option<&Revision>, now: &Revision) -> usize
    ensures count { result ≡ length (filter (λ n. is_some (module_had (option_copied before.entry) n) && map.contains_key now.now.modules n) now.now.touched) }
{
    let touched = now.touched.as_slice();
    touched
        .iter()
        .filter(|n| had(before, **n) && now.module(**n).is_some())
        .count()
}

/// How many of the touched numbers have a module in the revision before alone.
fn count_deleted(now: &Revision) -> usize
    ensures count { result ≡ length (filter (λ n. not (map.contains_key now.now.modules n)) now.now.touched) }
{
    let touched = now.touched.as_slice();
    touched.iter().filter(|n| now.module(**n).is_none()).count()
}

impl Revision {
    ghost use Rattle.mt_revision.specs.Held.{delta, lengths_of, touched_between};
    ghost use Rattle.mt_revision.specs.Revisions.{held_before, held_of};

    /// How many modules were added, changed and left out since the revision before, which this one was made after.
    pub fn delta_lengths(&self, before: Option<&Revision>) -> DeltaLengths
        ensures exact { self.now.touched ≡ touched_between (held_before (option_copied before.entry)) (held_of self.now)
            → result ≡ lengths_of (delta (held_before (option_copied before.entry)) (held_of self.now)) }
    {
        DeltaLengths {
            added: count_added(before, self),
            modified: count_modified(before, self),
            deleted: count_deleted(self),
        }
    }
}
