//! The lines that tell of builds.
ghost use Rattle.std.specs.Prelude.{◌≡◌, length, IfOk, option_copied};
ghost use Rattle.sha2.specs.Sha256.{sha256};
ghost use Rattle.hex.specs.Hex.{encode_lower};
ghost use Rattle.mt_revision.specs.Held.{delta, lengths_of, touched_between};
ghost use Rattle.mt_revision.specs.Revisions.{bundle_of, held_before, held_of};
ghost use Rattle.mt_report.specs.Reports.{figures_line, refused_line, revision_line, same_line};

use crate::digest::DigestSink;
use mt_files::{BuildFault, fault_text};
use mt_revision::{DeltaLengths, Revision, write_bundle};
use mt_tokens::Text;
use std::alloc::{AllocError, Global};

/// The length and the digest of a bundle, of which no byte is kept.
#[derive(Drop)]
pub(crate) struct BundleSum {
    pub(crate) length: usize,
    pub(crate) digest: Text,
}

/// The length and the digest of a revision's bundle. Refused only where memory runs out.
pub(crate) fn sum_bundle(alloc: Global, revision: &Revision) -> Result<BundleSum, AllocError>
    ensures length { IfOk result (λ sum. sum.length ≡ length (bundle_of revision.now)) }
    ensures digest { IfOk result (λ sum. sum.digest ≡ encode_lower (sha256 (bundle_of revision.now))) }
{
    let mut sink = DigestSink::new(alloc);
    if write_bundle(revision, &mut sink).is_err() {
        return Err(AllocError);
    }
    let (length, digest) = sink.finish();
    let digest = Text::from_string(hex::encode(alloc, digest)?);
    Ok(BundleSum { length, digest })
}

/// The line of a revision with this number, this number of changes and of modules, and these lengths of a delta.
fn figures_line(
    alloc: Global,
    number: u32,
    changes: u32,
    modules: u32,
    lengths: DeltaLengths,
    bundle: &BundleSum,
) -> Result<Text, AllocError>
    ensures line { IfOk result (λ line. line ≡ figures_line number changes modules lengths bundle.now.length bundle.now.digest) }
{
    let DeltaLengths {
        added,
        modified,
        deleted,
    } = lengths;
    let length = bundle.length;
    let digest = bundle.digest.as_str();
    let counts = format!(in alloc; "revision {number} changes {changes} modules {modules}")?;
    let counts = Text::from_string(counts);
    let counts = counts.as_str();
    let line = format!(in alloc;
        "{counts} added {added} modified {modified} deleted {deleted} bytes {length} digest {digest}\n"
    )?;
    Ok(Text::from_string(line))
}

/// How many modules a revision adds, changes and takes out, where it was made after this one.
fn delta_lengths(before: Option<&Revision>, revision: &Revision) -> DeltaLengths
    requires touched { revision.now.touched ≡ touched_between (held_before (option_copied before)) (held_of revision.now) }
    ensures exact { result ≡ lengths_of (delta (held_before (option_copied before.entry)) (held_of revision.now)) }
{
    revision.delta_lengths(before)
}

/// The line of a build that gave a revision, which was made after this one. Refused only where memory runs out.
pub fn revision_line(
    alloc: Global,
    before: Option<&Revision>,
    revision: &Revision,
) -> Result<Text, AllocError>
    requires touched { revision.now.touched ≡ touched_between (held_before (option_copied before)) (held_of revision.now) }
    ensures line { IfOk result (λ line. line ≡ revision_line (option_copied before.entry) revision.now) }
{
    let bundle = sum_bundle(alloc, revision)?;
    figures_line(
        alloc,
        revision.number(),
        revision.changes(),
        revision.len(),
        delta_lengths(before, revision),
        &bundle,
    )
}

/// The line of a build before which no change was accepted since the revision with this number.
pub fn same_line(alloc: Global, number: u32) -> Result<Text, AllocError>
    ensures line { IfOk result (λ line. line ≡ same_line number) }
{
    Ok(Text::from_string(format!(in alloc; "same {number}\n")?))
}

/// The line of a build that was refused when this many changes were accepted.
pub fn refused_line(alloc: Global, changes: usize, fault: &BuildFault) -> Result<Text, AllocError>
    ensures line { IfOk result (λ line. line ≡ refused_line changes fault.now) }
{
    let text = fault_text(alloc, fault)?;
    let text = text.as_str();
    let line = format!(in alloc; "refused changes {changes} {text}\n")?;
    Ok(Text::from_string(line))
}
