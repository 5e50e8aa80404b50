//! The texts of modules that are held.
ghost use Rattle.std.specs.Prelude.{◌≡◌, IfOk};
ghost use Rattle.mt_revision.specs.Texts.{texts_of};
ghost use Rattle.mt_revision.specs.Revisions.{held_of};

use crate::modules::ModuleMap;
use crate::revision::Revision;
use mt_containers::NumberMap;
use mt_tokens::Bytes;
use std::alloc::{AllocError, Global};

/// Texts of modules by their numbers.
pub type HeldMap = NumberMap<Bytes>;

/// The texts of modules.
fn texts_held(alloc: Global, modules: &ModuleMap, dev: bool) -> Result<HeldMap, AllocError>
    ensures exact { IfOk result (λ texts. texts ≡ texts_of dev modules.now) }
{
    let mut texts = HeldMap::new(alloc);
    for (number, kept) in &modules.by_number {
        let text = kept.text(alloc, *number, dev)?;
        texts.insert(*number, text)?;
    }
    Ok(texts)
}

/// The texts of a revision's modules. Refused only where memory runs out.
pub fn held(alloc: Global, revision: &Revision) -> Result<HeldMap, AllocError>
    ensures exact { IfOk result (λ texts. texts ≡ held_of revision.now) }
{
    texts_held(alloc, &revision.modules, revision.dev)
}
