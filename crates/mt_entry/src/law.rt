//! Laws of the definitions.
ghost use Rattle.std.specs.Prelude.{◌≡◌, ℕ, List};
ghost use Rattle.mt_tokens.specs.CacheEntries.{CacheEntry, IsHonest, Says};
ghost use Rattle.mt_transform.specs.OutputValues.{OutputValue};
ghost use Rattle.mt_transform.specs.Outputs.{IsSure};
ghost use Rattle.mt_entry.specs.Entries.{entry_of};

/// Does nothing, and carries the laws of entries: bytes say one entry at most. What honest bytes say of an output is what
/// its source becomes, and the bytes that say such an output are honest.
pub fn law_of_entries()
    ensures one { (bytes : List ℕ) (e f : CacheEntry) → Says bytes e → Says bytes f → e ≡ f }
    ensures sure { (bytes : List ℕ) (o : OutputValue) → IsHonest bytes → Says bytes (entry_of o) → IsSure o }
    ensures honest { (bytes : List ℕ) (o : OutputValue) → IsSure o → Says bytes (entry_of o) → IsHonest bytes }
{}
