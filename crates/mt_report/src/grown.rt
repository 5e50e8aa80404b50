//! The line that tells of a generated run.
ghost use Rattle.std.specs.Prelude.{◌≡◌, IfOk};
ghost use Rattle.mt_report.specs.Reports.{grown_figures, grown_line};

use crate::report::{BundleSum, sum_bundle};
use mt_revision::Revision;
use mt_tokens::Text;
use std::alloc::{AllocError, Global};

/// The line of a run with these numbers of modules, edits, revisions, live modules and numbered paths.
fn grown_figures(
    alloc: Global,
    modules: u32,
    edits: u32,
    revisions: u32,
    live: u32,
    numbered: u32,
    bundle: &BundleSum,
) -> Result<Text, AllocError>
    ensures line { IfOk result (λ line. line ≡ grown_figures modules edits revisions live numbered bundle.now.length bundle.now.digest) }
{
    let length = bundle.length;
    let digest = bundle.digest.as_str();
    let counts = format!(in alloc; "grown modules {modules} edits {edits} revisions {revisions}")?;
    let counts = Text::from_string(counts);
    let counts = counts.as_str();
    let line = format!(in alloc;
        "{counts} live {live} numbered {numbered} bytes {length} digest {digest}\n"
    )?;
    Ok(Text::from_string(line))
}

/// The line of a generated run: how many modules and edits were asked for, and of its last revision the number, how many
/// modules live, how many paths have numbers, and the length and the digest of the bundle. Refused only where memory runs
/// out.
pub fn grown_line(
    alloc: Global,
    modules: u32,
    edits: u32,
    numbered: u32,
    revision: &Revision,
) -> Result<Text, AllocError>
    ensures line { IfOk result (λ line. line ≡ grown_line modules edits numbered revision.now) }
{
    let bundle = sum_bundle(alloc, revision)?;
    grown_figures(
        alloc,
        modules,
        edits,
        revision.number(),
        revision.len(),
        numbered,
        &bundle,
    )
}
