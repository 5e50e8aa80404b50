//! Who makes outputs, and counts how many.
ghost use Rattle.std.specs.Prelude.{ℕ, ◌≡◌, ◌≤◌, ◌⊎◌, ◌+◌, ◌-◌, ◌^◌, length, min, Err};
ghost use Rattle.mt_tokens.specs.Sources.{max_source_bytes};
ghost use Rattle.mt_transform.specs.Outputs.{output_of};

use crate::output::Output;
use crate::transformation::transform;
use mt_package::Options;
use mt_tokens::{Bytes, PathKind, Shared, SourceFault};
use std::alloc::Global;

/// Makes outputs of sources, and counts them.
pub trait Transformer {
    /// What contracts see: how many calls there were.
    ghost seen: { Self → ℕ };

    /// How many calls of `make` there were, up to the greatest `u64`.
    fn calls(&self) -> u64
        ensures count { result ≡ seen self.now };

    /// What `transform` makes of a source, with one call more.
    fn make(
        &mut self,
        alloc: Global,
        options: &Options,
        kind: PathKind,
        source: Shared<Bytes>,
    ) -> Result<Output, SourceFault>
        requires { length source ≤ max_source_bytes }
        ensures exact { (result ≡ Err SourceFault.NoMemory) ⊎ (result ≡ output_of options.now.strip kind source) }
        ensures count { seen self.new ≡ min (seen self.old + 1) (2 ^ 64 - 1) };
}

/// A transformer that calls `transform`.
#[derive(Debug, Drop)]
pub struct Plain {
    calls: u64,
}

impl Plain {
    /// A transformer without calls so far.
    pub fn new() -> Plain
        ensures none { result.calls ≡ 0 }
    {
        Plain { calls: 0 }
    }
}

impl Transformer for Plain {
    ghost seen = { λ plain. plain.calls };

    fn calls(&self) -> u64 {
        self.calls
    }

    fn make(
        &mut self,
        alloc: Global,
        options: &Options,
        kind: PathKind,
        source: Shared<Bytes>,
    ) -> Result<Output, SourceFault> {
        self.calls = self.calls.saturating_add(1);
        transform(alloc, options, kind, source)
    }
}
