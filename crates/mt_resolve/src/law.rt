//! Laws of the definitions.
ghost use Rattle.std.specs.Prelude.{ℕ, List};
ghost use Rattle.mt_path.specs.Parse.{IsPath};
ghost use Rattle.mt_files.specs.Snapshots.{Snapshot};
ghost use Rattle.mt_package.specs.declared.options.Options.{Options};
ghost use Rattle.mt_tokens.specs.declared.source.DepKind.{DepKind};
ghost use Rattle.mt_resolve.specs.Agreements.{Agree, SameProbes, SameTarget};

/// Does nothing, and carries a law: where two snapshots agree on each path that one is asked about for a name, the name
/// leads to the same target in both, and both are asked about the same paths.
pub fn law_of_probes()
    ensures target { (options : Options) (f g : Snapshot) (origin name : List ℕ) (kind : DepKind) → IsPath origin → Agree options f g origin name kind → SameTarget options f g origin name kind }
    ensures probes { (options : Options) (f g : Snapshot) (origin name : List ℕ) (kind : DepKind) → IsPath origin → Agree options f g origin name kind → SameProbes options f g origin name kind }
{}
