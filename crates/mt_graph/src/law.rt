//! Laws of the definitions.
ghost use Rattle.std.specs.Prelude.{◌≡◌, List, ℕ, true};
ghost use Rattle.std.specs.List.{All};
ghost use Rattle.std.specs.FinMap.{empty};
ghost use Rattle.mt_package.specs.declared.options.Options.{Options};
ghost use Rattle.mt_files.specs.Asks.{Ask};
ghost use Rattle.mt_files.specs.Fresh.{all_faults, fresh};
ghost use Rattle.mt_files.specs.Reach.{source_entries};
ghost use Rattle.mt_files.specs.Snapshots.{Snapshot, has_source};
ghost use Rattle.mt_graph.specs.Explored.{IsExploration, Known, explored};
ghost use Rattle.mt_graph.specs.Graphs.{edges_found, fresh_graph};
ghost use Rattle.mt_graph.specs.Judged.{judged, judged_faults};

/// Does nothing, and carries laws: what is explored from seeds that are sources is a whole exploration, and from the
/// entries that are sources, where nothing is known, it comes to the fresh graph, or to all faults.
pub fn law_of_explorations()
    ensures whole { (options : Options) (files : Snapshot) (seeds : List (List ℕ)) (known : Known)
        → All (λ seed. has_source files seed ≡ true) seeds
        → IsExploration options files seeds known (explored options files seeds known) }
    ensures graph { (ask : Ask) (files : Snapshot) → judged ask.entries (explored ask.options files (source_entries ask files) empty) ≡ fresh_graph ask files }
    ensures faults { (ask : Ask) (files : Snapshot) → judged_faults ask.entries (explored ask.options files (source_entries ask files) empty) ≡ all_faults ask files }
{}

/// Does nothing, and carries a law: the fresh graph with its outputs has the modules of the fresh graph and requires the
/// same in each, or it is refused by the same fault.
pub fn law_of_graphs()
    ensures edges { (ask : Ask) (files : Snapshot) → fresh ask files ≡ edges_found (fresh_graph ask files) }
{}
