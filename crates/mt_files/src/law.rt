//! Laws of the definitions.
ghost use Rattle.std.specs.Prelude.{◌≡◌, ℕ, List, [], map, Ok, Err};
ghost use Rattle.std.specs.Ordering.{nat_cmp};
ghost use Rattle.std.specs.Cmp.Lexicographic.{slice_cmp};
ghost use Rattle.std.specs.List.{All, Contains};
ghost use Rattle.std.specs.List.Sorted.{IsStrictlySortedBy};
ghost use Rattle.std.specs.FinMap.{get};
ghost use Rattle.mt_io.specs.Files.{Files};
ghost use Rattle.mt_files.specs.declared.fault.CrawlFault.{CrawlFault};
ghost use Rattle.mt_files.specs.Crawl.{crawled, entry_in};
ghost use Rattle.mt_files.specs.Limits.{IsWithinLimits, MeetsFirst};
ghost use Rattle.mt_files.specs.Search.{files_met};
ghost use Rattle.mt_files.specs.Asks.{Ask};
ghost use Rattle.mt_files.specs.Reach.{IsReached, reach};
ghost use Rattle.mt_files.specs.Snapshots.{Snapshot};
ghost use Rattle.mt_files.specs.declared.change.Change.{Change};
ghost use Rattle.mt_files.specs.Changes.{path_of, stepped_by};
ghost use Rattle.mt_files.specs.Rescans.{HasEffect, changes_between};

/// Does nothing, and carries a law: the modules that the entries reach are the ends of all walks from them, however long,
/// and no others, by ascending path.
pub fn law_of_reach()
    ensures all { (ask : Ask) (files : Snapshot) (path : List ℕ) → IsReached ask files path → Contains (reach ask files) path }
    ensures alone { (ask : Ask) (files : Snapshot) (path : List ℕ) → Contains (reach ask files) path → IsReached ask files path }
    ensures ascending { (ask : Ask) (files : Snapshot) → IsStrictlySortedBy (slice_cmp nat_cmp) (reach ask files) }
{}

/// Does nothing, and carries a law: the changes between two snapshots lead from the one to the other, by ascending path
/// and none without effect, and no other changes do so. So there are none from a snapshot to itself.
pub fn law_of_rescans()
    ensures leads { (old new : Snapshot) → stepped_by old (changes_between old new) ≡ new }
    ensures none { (files : Snapshot) → changes_between files files ≡ [] }
    ensures each { (old new : Snapshot) → IsStrictlySortedBy (slice_cmp nat_cmp) (map path_of (changes_between old new)) }
    ensures effect { (old new : Snapshot) → All (HasEffect old) (changes_between old new) }
    ensures only { (old new : Snapshot) (changes : List Change) → stepped_by old changes ≡ new
        → IsStrictlySortedBy (slice_cmp nat_cmp) (map path_of changes) → All (HasEffect old) changes
        → changes ≡ changes_between old new }
{}

/// Does nothing, and carries a law: the snapshot that a crawl makes of a tree has the entry of each file that it meets,
/// and no other.
pub fn law_of_crawls()
    ensures kept { (tree : Files) (files : Snapshot) → crawled tree ≡ Ok files → (path : List ℕ) → get files path ≡ entry_in tree path }
{}

/// Does nothing, and carries a law: a crawl makes a snapshot of a tree exactly where the files that it meets are within
/// the limits, and else it answers the first limit that they meet in their order.
pub fn law_of_limits()
    ensures made { (tree : Files) → IsWithinLimits tree (files_met tree) → (files : Snapshot) × (crawled tree ≡ Ok files) }
    ensures within { (tree : Files) (files : Snapshot) → crawled tree ≡ Ok files → IsWithinLimits tree (files_met tree) }
    ensures first { (tree : Files) (fault : CrawlFault) → crawled tree ≡ Err fault → MeetsFirst tree (files_met tree) fault }
    ensures refused { (tree : Files) (fault : CrawlFault) → MeetsFirst tree (files_met tree) fault → crawled tree ≡ Err fault }
{}
