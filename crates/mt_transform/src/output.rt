//! A source with its body in a bundle, and the names that it requires.
ghost use Rattle.std.specs.Prelude.{◌≡◌, ◌≤◌, ◌<◌, IfOk, IsUtf8, length, map, slice_index};
ghost use Rattle.mt_tokens.specs.Sources.{max_source_bytes};
ghost use Rattle.mt_tokens.specs.Transform.{max_dependencies};
ghost use Rattle.mt_transform.specs.Outputs.{places_of};

use crate::reading::{Reading, read_source};
use mt_containers::List;
use mt_deps::{Dep, DepKind};
use mt_tokens::{Bytes, PathKind, Shared, SourceFault, Text};
use std::alloc::{AllocError, Global};
use std::marker::Model;

/// A name that a source requires, and how.
#[derive(Debug, Drop)]
pub struct Name {
    /// What is between the quotes.
    pub text: Text,
    /// How it is required.
    pub kind: DepKind,
}

/// Names in a row.
pub type NameList = List<Name>;

/// A source with its body in a bundle, and the names that it requires. Its source has at most `MAX_SOURCE_BYTES` bytes,
/// its body is UTF-8, and it has at most `MAX_DEPENDENCIES` names.
#[derive(Drop)]
pub struct Output {
    pub(crate) source: Shared<Bytes>,
    pub(crate) strip: bool,
    pub(crate) kind: PathKind,
    pub(crate) body: Bytes,
    pub(crate) names: NameList,
    pub(crate) dynamic: u32,
}

impl Model for Output {
    ghost use Rattle.mt_transform.specs.OutputValues.{IsOutput, OutputValue};

    ghost Value = { OutputValue };

    ghost view = { λ o. record { source = o.source; strip = o.strip; kind = o.kind; body = o.body; names = o.names; dynamic = o.dynamic } };

    ghost invariant = { λ o. IsOutput o.source o.body o.names };
}

impl Output {
    /// An output of these parts. Nothing says that the body is what the source becomes.
    pub fn from_parts(
        source: Shared<Bytes>,
        strip: bool,
        kind: PathKind,
        body: Text,
        names: NameList,
        dynamic: u32,
    ) -> Output
        requires small { length source ≤ max_source_bytes }
        requires few { length names ≤ max_dependencies }
        ensures parts { result ≡ record { source = source; strip = strip; kind = kind; body = body; names = names; dynamic = dynamic } }
    {
        Output {
            source,
            strip,
            kind,
            body: Bytes::from_vec(body.into_string().into_bytes()),
            names,
            dynamic,
        }
    }

    /// The source, unchanged.
    pub fn source(&self) -> &Shared<Bytes>
        ensures value { result.now ≡ self.now.source }
        ensures small { length self.now.source ≤ max_source_bytes }
    {
        &self.source
    }

    /// Whether comments are left out of the body.
    pub fn strip(&self) -> bool
        ensures value { result ≡ self.now.strip }
    {
        self.strip
    }

    /// What the source is.
    pub fn kind(&self) -> PathKind
        ensures value { result ≡ self.now.kind }
    {
        self.kind
    }

    /// What the bundle has of it.
    pub fn body(&self) -> &[u8]
        ensures value { result.now ≡ self.now.body }
        ensures utf8 { IsUtf8 result.now }
    {
        self.body.as_slice()
    }

    /// The names that the source requires, each name and kind once, by the places where they are first.
    pub fn names(&self) -> &NameList
        ensures value { result.now ≡ self.now.names }
        ensures few { length self.now.names ≤ max_dependencies }
    {
        &self.names
    }

    /// How many calls name what only a run can tell.
    pub fn dynamic(&self) -> u32
        ensures value { result ≡ self.now.dynamic }
    {
        self.dynamic
    }

    /// The places of all names in the source, in their order, found by reading it again; none where the source is refused.
    /// Refused only where memory runs out.
    pub fn places(&self, alloc: Global) -> Result<List<u32>, AllocError>
        ensures exact { IfOk result (λ places. places ≡ places_of self.now) }
    {
        match read_source(alloc, self.kind, self.source.as_slice()) {
            Ok(Reading::Script { list, .. }) => dep_places(alloc, list.deps().as_slice()),
            Ok(Reading::Json) => Ok(List::new(alloc)),
            Err(SourceFault::NoMemory) => Err(AllocError),
            Err(_) => Ok(List::new(alloc)),
        }
    }

    /// The place of a name in the source, found by reading it again; 0 where the source has no such dependency. Refused
    /// only where memory runs out.
    #[tactic(auto, using(crate::proofs::Outputs::place_at))]
    pub fn place(&self, alloc: Global, i: u32) -> Result<u32, AllocError>
        requires { i < length self.now.names }
        ensures exact { IfOk result (λ place. place ≡ slice_index (places_of self.now) i) }
    {
        let places = self.places(alloc)?;
        Ok(places.get(i as usize).copied().unwrap_or(0))
    }
}

/// The places of dependencies.
fn dep_places(alloc: Global, deps: &[Dep]) -> Result<List<u32>, AllocError>
    ensures { IfOk result (λ places. places ≡ map (λ d. d.place) deps.now) }
{
    let mut places = List::new(alloc);
    for dep in deps {
        places.push(dep.place)?;
    }
    Ok(places)
}
