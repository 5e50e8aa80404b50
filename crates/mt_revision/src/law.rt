//! Laws of the definitions.
ghost use Rattle.std.specs.Prelude.{◌≡◌, ◌≤◌, ◌++◌, ℕ, true, List, [], Ok, Some, Option, length, map, slice_get};
ghost use Rattle.std.specs.List.{All, IsDistinct, list_all, range_with_len};
ghost use Rattle.std.specs.List.Sorted.{IsNonDecreasing};
ghost use Rattle.std.specs.Option.{IfSome};
ghost use Rattle.std.specs.Str.{bytes_eq};
ghost use Rattle.std.specs.FinMap.{get};
ghost use Rattle.mt_files.specs.Asks.{Ask};
ghost use Rattle.mt_files.specs.Edges.{edges};
ghost use Rattle.mt_files.specs.Fresh.{all_faults, fresh};
ghost use Rattle.mt_files.specs.Reach.{reach};
ghost use Rattle.mt_files.specs.Snapshots.{Snapshot};
ghost use Rattle.mt_files.specs.declared.change.Change.{Change};
ghost use Rattle.mt_revision.specs.Contents.{HasContent, bundle_at, edges_named, held_at, paths_under, revision_after};
ghost use Rattle.mt_revision.specs.Held.{applied, delta, fits};
ghost use Rattle.mt_revision.specs.Logs.{IsLegal, Logged, Reached, count_of, reached_by, revisions_of, unlogged};
ghost use Rattle.mt_revision.specs.Numberings.{extended, has_path, number_in};
ghost use Rattle.mt_revision.specs.Revisions.{WasMadeAfter, bundle_of, held_of};
ghost use Rattle.mt_revision.specs.Texts.{Texts};
ghost use Rattle.mt_revision.specs.declared.modules.Module.{Module};
ghost use Rattle.mt_revision.specs.declared.revision.Revision.{Revision};

/// Does nothing, and carries a law: the fresh graph is what the slots of a revision with this content name. Under the
/// number of each of its modules is the module's path, its slots lead to what the path requires, in order, and it has a
/// slot for each name of its output.
pub fn law_of_slots()
    ensures graph { (ask : Ask) (r : Revision) (numbering : List (List ℕ)) (files : Snapshot) → HasContent ask r numbering files → fresh ask files ≡ Ok (edges_named numbering r) }
    ensures path { (ask : Ask) (r : Revision) (numbering : List (List ℕ)) (files : Snapshot)
        → HasContent ask r numbering files → (number : ℕ) (m : Module) → get r.modules number ≡ Some m
        → slice_get numbering number ≡ Some m.path }
    ensures edges { (ask : Ask) (r : Revision) (numbering : List (List ℕ)) (files : Snapshot)
        → HasContent ask r numbering files → (number : ℕ) (m : Module) → get r.modules number ≡ Some m
        → paths_under numbering m ≡ edges ask.options files m.path }
    ensures names { (ask : Ask) (r : Revision) (numbering : List (List ℕ)) (files : Snapshot)
        → HasContent ask r numbering files → (number : ℕ) (m : Module) → get r.modules number ≡ Some m
        → length m.slots ≡ length m.output.names }
{}

/// Does nothing, and carries a law: what is asked for of a snapshot, and a numbering, determine the texts that a revision
/// with this content holds, and its bundle.
pub fn law_of_contents()
    ensures held { (ask : Ask) (r : Revision) (numbering : List (List ℕ)) (files : Snapshot) → HasContent ask r numbering files → held_of r ≡ held_at ask numbering files }
    ensures bundle { (ask : Ask) (r : Revision) (numbering : List (List ℕ)) (files : Snapshot)
        → HasContent ask r numbering files → IsDistinct bytes_eq numbering
        → bundle_of r ≡ bundle_at ask numbering files }
{}

/// Does nothing, and carries a law: the delta from one map of held texts to another fits the one, and leads to the other.
pub fn law_of_deltas()
    ensures fits { (a b : Texts) → fits a (delta a b) ≡ true }
    ensures leads { (a b : Texts) → applied a (delta a b) ≡ b }
{}

/// Does nothing, and carries a law: a numbering is extended without a change of its numbers, each entry and each member
/// then has a number, and no path has two.
pub fn law_of_numberings()
    ensures kept { (numbering entries members : List (List ℕ)) → (more : List (List ℕ)) × (extended numbering entries members ≡ numbering ++ more) }
    ensures entry { (numbering entries members : List (List ℕ)) (path : List ℕ) → has_path entries path ≡ true → has_path (extended numbering entries members) path ≡ true }
    ensures member { (numbering entries members : List (List ℕ)) (path : List ℕ) → has_path members path ≡ true → has_path (extended numbering entries members) path ≡ true }
    ensures distinct { (numbering entries members : List (List ℕ)) → IsDistinct bytes_eq numbering
        → IsDistinct bytes_eq entries → IsDistinct bytes_eq members
        → IsDistinct bytes_eq (extended numbering entries members) }
    ensures path { (paths : List (List ℕ)) (path : List ℕ) → has_path paths path ≡ true → slice_get paths (number_in paths path) ≡ Some path }
{}

/// Does nothing, and carries a law: the revision that comes after another one has the content that is asked for and was
/// made after that one, and no other revision that counts as many changes has and was.
pub fn law_of_revisions()
    ensures content { (ask : Ask) (before : Option Revision) (changes : ℕ) (numbering : List (List ℕ)) (files : Snapshot)
        → all_faults ask files ≡ [] → list_all (has_path numbering) (reach ask files) ≡ true
        → HasContent ask (revision_after ask before changes numbering files) numbering files }
    ensures made { (ask : Ask) (before : Option Revision) (changes : ℕ) (numbering : List (List ℕ)) (files : Snapshot)
        → IfSome before (λ b. b.dev ≡ ask.options.dev)
        → WasMadeAfter before (revision_after ask before changes numbering files) }
    ensures only { (ask : Ask) (before : Option Revision) (r : Revision) (numbering : List (List ℕ)) (files : Snapshot)
        → HasContent ask r numbering files → WasMadeAfter before r
        → r ≡ revision_after ask before r.changes numbering files }
{}

/// Does nothing, and carries a law of legal logs: their revisions are numbered 1, 2, 3 and on; the counts of changes never
/// fall, and none is above the length of the journal; and the counts determine the log. No number of a path is given up or
/// changed from build to build, and no path has two.
pub fn law_of_logs()
    ensures numbers { (ask : Ask) (files : Snapshot) (journal : List Change) (log : List Logged)
        → IsLegal ask files journal log
        → map (λ r. r.number) (revisions_of log) ≡ range_with_len 1 (length (revisions_of log)) }
    ensures counts { (ask : Ask) (files : Snapshot) (journal : List Change) (log : List Logged) → IsLegal ask files journal log → IsNonDecreasing (map count_of log) }
    ensures within { (ask : Ask) (files : Snapshot) (journal : List Change) (log : List Logged) → IsLegal ask files journal log → All (λ build. count_of build ≤ length journal) log }
    ensures only { (ask : Ask) (files : Snapshot) (journal : List Change) (log other : List Logged)
        → IsLegal ask files journal log → IsLegal ask files journal other → map count_of log ≡ map count_of other
        → log ≡ other }
    ensures kept { (ask : Ask) (files : Snapshot) (journal : List Change) (before : Reached) (log : List Logged)
        → (more : List (List ℕ)) × ((reached_by ask files journal before log).numbering ≡ before.numbering ++ more) }
    ensures distinct { (ask : Ask) (files : Snapshot) (journal : List Change) (log : List Logged)
        → IsDistinct bytes_eq ask.entries → IsDistinct bytes_eq (reached_by ask files journal unlogged log).numbering }
{}
