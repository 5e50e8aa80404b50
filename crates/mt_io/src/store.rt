//! What keeps bytes under keys.
ghost use Rattle.std.specs.Prelude.{◌≡◌, IfOk, IfSome, IsErrOf};
ghost use Rattle.std.specs.FinMap.{get};
ghost use Rattle.mt_tokens.specs.CacheEntries.{IsHonest};
ghost use Rattle.mt_io.specs.Seen.{Looks, Puts, Seen, Tells};
ghost use Rattle.mt_io.specs.Told.{Kept};

use crate::trouble::Trouble;
use mt_tokens::{Bytes, Text};
use std::alloc::Global;

/// What keeps bytes under keys, and may fail at each call.
///
/// Bytes are honest where each cache entry that they say is the one of its own source. A store is honest where it gives
/// honest bytes alone. Each call keeps that, where the bytes put are honest.
pub trait Store: Drop {
    /// What contracts see: the faults, the bytes that are kept by their keys, and what the store tells beside this trait.
    ghost seen: { Self → Seen Kept };

    /// That a store is honest.
    ghost honest: { Self → Type 0 };

    /// That each store of this type is honest. It depends on the type alone.
    ghost pledged: { Type 0 };

    /// How many calls have failed, up to the greatest `u64`.
    fn faults(&self) -> u64
        ensures count { result ≡ (seen self.now).faults };

    /// Takes the pledge of the type as a fact on this store. It does nothing.
    fn pledge(&self)
        ensures honest { pledged → honest self.now };

    /// The bytes that are kept under `key`, if there are any.
    fn get(&mut self, alloc: Global, key: &Text) -> Result<Option<Bytes>, Trouble>
        ensures found { IfOk result (λ bytes. (kept : Kept) → Tells (seen self.old) kept → bytes ≡ get kept key.now) }
        ensures looks { Looks (seen self.old) (seen self.new) (IsErrOf result Trouble.Failed) }
        ensures own { honest self.old → IfOk result (λ bytes. IfSome bytes IsHonest) }
        ensures honest { honest self.old → honest self.new };

    /// Keeps `bytes` under `key`, in place of what was there. After an `Err` the store keeps what it kept before.
    fn put(&mut self, alloc: Global, key: &Text, bytes: &[u8]) -> Result<(), Trouble>
        requires own { pledged → IsHonest bytes.now }
        ensures puts { Puts (seen self.old) (seen self.new) key.now bytes.now result }
        ensures honest { honest self.old → IsHonest bytes.now → honest self.new };
}
