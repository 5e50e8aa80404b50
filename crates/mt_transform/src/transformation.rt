//! The transform of a source.
ghost use Rattle.std.specs.Prelude.{ℕ, Bool, List, ◌≡◌, ◌≤◌, ◌⊎◌, length, map, Ok, Err, IfOk};
ghost use Rattle.mt_tokens.specs.Sources.{max_source_bytes};
ghost use Rattle.mt_tokens.specs.Transform.{transformed};
ghost use Rattle.mt_transform.specs.Outputs.{IsSure, name_of, output_of};
ghost use Rattle.mt_transform.specs.Readings.{made};

use crate::body::{write_body, write_json};
use crate::reading::{Reading, read_source};
use crate::{Name, NameList, Output};
use mt_deps::Dep;
use mt_package::Options;
use mt_tokens::{Bytes, PathKind, Shared, SourceFault};
use std::alloc::{AllocError, Global};

/// The names of the dependencies.
fn dep_names(alloc: Global, deps: &[Dep]) -> Result<NameList, AllocError>
    ensures { IfOk result (λ names. names ≡ map name_of deps.now) }
{
    let mut names = NameList::new(alloc);
    for dep in deps {
        let text = dep.name.clone()?;
        names.push(Name {
            text,
            kind: dep.kind,
        })?;
    }
    Ok(names)
}

/// The body of a source that is read.
fn build_body(
    alloc: Global,
    strip: bool,
    source: &[u8],
    reading: &Reading,
) -> Result<Bytes, AllocError>
    ensures { IfOk result (λ body. body ≡ (made strip source.now reading.now).body) }
{
    match reading {
        Reading::Script { tokens, list } => {
            write_body(alloc, strip, source, tokens.as_slice(), list)
        }
        Reading::Json => write_json(alloc, source),
    }
}

/// The names of a source that is read.
fn build_names(alloc: Global, reading: &Reading) -> Result<NameList, AllocError>
    ensures { (strip : Bool) (source : List ℕ) → IfOk result (λ names. names ≡ map name_of (made strip source reading.now).dependencies) }
{
    match reading {
        Reading::Script { list, .. } => dep_names(alloc, list.deps().as_slice()),
        Reading::Json => Ok(NameList::new(alloc)),
    }
}

/// How many dynamic calls are in a source that is read.
fn dynamic_calls(reading: &Reading) -> u32
    ensures { (strip : Bool) (source : List ℕ) → result ≡ (made strip source reading.now).dynamic }
{
    match reading {
        Reading::Script { list, .. } => list.dynamic(),
        Reading::Json => 0,
    }
}

/// The output of a source that is read.
fn build_output(
    alloc: Global,
    strip: bool,
    kind: PathKind,
    source: Shared<Bytes>,
    reading: &Reading,
) -> Result<Output, AllocError>
    requires small { length source ≤ max_source_bytes }
    requires read { transformed strip kind source ≡ Ok (made strip source reading.now) }
    ensures { IfOk result (λ output. Ok output ≡ output_of strip kind source) }
{
    let body = build_body(alloc, strip, source.as_slice(), reading)?;
    let names = build_names(alloc, reading)?;
    let dynamic = dynamic_calls(reading);
    Ok(Output {
        source,
        strip,
        kind,
        body,
        names,
        dynamic,
    })
}

/// What a source becomes, or its first refusal: first what isn't UTF-8, then what breaks the grammar, or JSON that isn't
/// read; then an import or export without a form, then more than `MAX_DEPENDENCIES` distinct dependencies.
#[tactic(auto, using(crate::proofs::Outputs::output_sure))]
pub fn transform(
    alloc: Global,
    options: &Options,
    kind: PathKind,
    source: Shared<Bytes>,
) -> Result<Output, SourceFault>
    requires { length source ≤ max_source_bytes }
    ensures exact { (result ≡ Err SourceFault.NoMemory) ⊎ (result ≡ output_of options.now.strip kind source) }
    ensures sure { IfOk result IsSure }
{
    let reading = match read_source(alloc, kind, source.as_slice()) {
        Ok(reading) => reading,
        Err(fault) => return Err(fault),
    };
    match build_output(alloc, options.strip, kind, source, &reading) {
        Ok(output) => Ok(output),
        Err(AllocError) => Err(SourceFault::NoMemory),
    }
}
