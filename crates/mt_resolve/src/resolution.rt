//! Where a name leads, and what was asked about for that.
ghost use Rattle.std.specs.Prelude.{◌≡◌, IfOk};
ghost use Rattle.mt_files.specs.Resolve.{probes as probed, resolved};

use crate::answers::AnswerMap;
use crate::folder::Notes;
use crate::place::Place;
use crate::probes::Probes;
use mt_containers::{Shared, Text};
use mt_files::{FileMap, Target};
use mt_package::Options;
use mt_path::Path;
use mt_tokens::DepKind;
use std::alloc::{AllocError, Global};

/// Where a name leads from a module, and the paths that were asked about for that.
#[derive(Drop)]
pub struct Resolution {
    /// Where it leads.
    pub target: Shared<Target>,
    /// The paths that were asked about, in their order.
    pub probes: Probes,
}

/// Where a name leads from the module `origin`, and the paths that were asked about for that. The kind changes nothing.
///
/// Refused only where memory runs out.
pub fn resolve(
    alloc: Global,
    files: &FileMap,
    options: &Options,
    origin: &Path,
    name: &str,
    kind: DepKind,
) -> Result<Resolution, AllocError>
    ensures target { IfOk result (λ r. r.target ≡ resolved options.now files.now origin.now name.now kind) }
    ensures probes { IfOk result (λ r. r.probes ≡ probed options.now files.now origin.now name.now kind) }
{
    let place = Place::new(alloc, files, options)?;
    let mut notes = Notes::new(alloc, true);
    let folder = origin.parent(alloc)?;
    let name = Text::from_str(alloc, name)?;
    let answers = AnswerMap::new(alloc);
    let answer = place.answer(alloc, &mut notes, &answers, &name, &folder)?;
    let probes = Probes::new(place.endings, notes.log.runs);
    Ok(Resolution {
        target: answer.target,
        probes,
    })
}
