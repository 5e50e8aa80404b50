//! Stores in memory.
ghost use Rattle.std.specs.Prelude.{◌≡◌, Err, IfOk, IfSome, IsErrOf, OnOk, OnErr};
ghost use Rattle.std.specs.FinMap as map;
ghost use Rattle.mt_tokens.specs.CacheEntries.{IsHonest};
ghost use Rattle.mt_io.specs.Honest.{AreHonest};
ghost use Rattle.mt_io.specs.Memory.{FollowsPlan, plan_of, seen_store, seen_sure_store};
ghost use Rattle.mt_io.specs.Seen.{Looks, Puts};

use crate::fault_plan::FaultPlan;
use crate::store::Store;
use crate::trouble::Trouble;
use mt_tokens::{Bytes, Text, TextMap};
use std::alloc::{AllocError, Global};
use std::marker::Model;

/// The bytes under a key, copied.
fn copy_of(entries: &TextMap<Bytes>, key: &Text) -> Result<Option<Bytes>, AllocError>
    ensures copy { IfOk result (λ bytes. bytes ≡ map.get entries.now key.now) }
{
    match entries.get(key) {
        Some(bytes) => Ok(Some(bytes.clone()?)),
        None => Ok(None),
    }
}

/// Keeps a copy of `bytes` under a copy of `key`.
fn put_in(
    alloc: Global,
    entries: &mut TextMap<Bytes>,
    key: &Text,
    bytes: &[u8],
) -> Result<(), AllocError>
    ensures ok { OnOk result (entries.new ≡ map.insert entries.old key.now bytes.now) }
    ensures err { OnErr result (entries.new ≡ entries.old) }
{
    let copy = Bytes::from_slice(alloc, bytes)?;
    entries.insert(key.clone()?, copy)
}

/// A store in memory, some of whose calls fail.
#[derive(Drop)]
pub struct MapStore {
    entries: TextMap<Bytes>,
    plan: FaultPlan,
}

impl Model for MapStore {
    ghost use Rattle.mt_io.specs.Memory.{PlannedStore, planned_store_code};

    ghost Value = { PlannedStore };

    ghost coded = { planned_store_code };

    ghost view = { λ s. record { kept = s.entries; plan = s.plan } };
}

impl MapStore {
    /// A store with these bytes by their keys, whose calls `get` and `put` are counted together from 1: those whose
    /// numbers are in `failing` fail.
    pub fn new(entries: TextMap<Bytes>, failing: Vec<u64>) -> MapStore
        ensures kept { result.kept ≡ entries }
        ensures plan { result.plan ≡ plan_of failing.items }
    {
        MapStore {
            entries,
            plan: FaultPlan::new(failing),
        }
    }

    /// The bytes by their keys.
    pub fn entries(&self) -> &TextMap<Bytes>
        ensures kept { result.now ≡ self.now.kept }
    {
        &self.entries
    }
}

impl Store for MapStore {
    ghost seen = { seen_store };

    ghost honest = { λ store. AreHonest store.kept };

    ghost pledged = { ⊥ };

    fn faults(&self) -> u64 {
        self.plan.faults()
    }

    fn pledge(&self) {}

    #[tactic(auto, using(crate::proofs::Honest::honest_got))]
    fn get(&mut self, alloc: Global, key: &Text) -> Result<Option<Bytes>, Trouble>
        ensures found { IfOk result (λ bytes. bytes ≡ map.get self.old.kept key.now) }
        ensures same { self.new.kept ≡ self.old.kept }
        ensures looks { Looks (seen_store self.old) (seen_store self.new) (IsErrOf result Trouble.Failed) }
        ensures own { AreHonest self.old.kept → IfOk result (λ bytes. IfSome bytes IsHonest) }
        ensures plan { FollowsPlan self.old.plan self.new.plan result }
    {
        self.plan.begin()?;
        Ok(copy_of(&self.entries, key)?)
    }

    #[tactic(auto, using(crate::proofs::Honest::honest_put))]
    fn put(&mut self, alloc: Global, key: &Text, bytes: &[u8]) -> Result<(), Trouble>
        ensures puts { Puts (seen_store self.old) (seen_store self.new) key.now bytes.now result }
        ensures kept { OnOk result (self.new.kept ≡ map.insert self.old.kept key.now bytes.now) }
        ensures same { OnErr result (self.new.kept ≡ self.old.kept) }
        ensures plan { FollowsPlan self.old.plan self.new.plan result }
        ensures honest { AreHonest self.old.kept → IsHonest bytes.now → AreHonest self.new.kept }
    {
        self.plan.begin()?;
        put_in(alloc, &mut self.entries, key, bytes)?;
        Ok(())
    }
}

/// A store in memory that never fails.
#[derive(Drop)]
pub struct SureStore {
    entries: TextMap<Bytes>,
}

impl Model for SureStore {
    ghost use Rattle.std.specs.FinMap as map;
    ghost use Rattle.std.specs.Coded.{coded_ℕ, coded_list};
    ghost use Rattle.mt_io.specs.Told.{Kept};

    ghost Value = { Kept };

    ghost coded = { map.code (coded_list coded_ℕ) (coded_list coded_ℕ) };

    ghost view = { λ s. s.entries };
}

impl SureStore {
    /// A store with these bytes by their keys.
    pub fn new(entries: TextMap<Bytes>) -> SureStore
        ensures kept { result ≡ entries }
    {
        SureStore { entries }
    }

    /// The bytes by their keys.
    pub fn entries(&self) -> &TextMap<Bytes>
        ensures kept { result.now ≡ self.now }
    {
        &self.entries
    }
}

impl Store for SureStore {
    ghost seen = { seen_sure_store };

    ghost honest = { λ store. AreHonest store };

    ghost pledged = { ⊥ };

    fn faults(&self) -> u64 {
        0
    }

    fn pledge(&self) {}

    #[tactic(auto, using(crate::proofs::Honest::honest_got))]
    fn get(&mut self, alloc: Global, key: &Text) -> Result<Option<Bytes>, Trouble>
        ensures found { IfOk result (λ bytes. bytes ≡ map.get self.old key.now) }
        ensures same { self.new ≡ self.old }
        ensures lacks { OnErr result (result ≡ Err Trouble.NoMemory) }
        ensures own { AreHonest self.old → IfOk result (λ bytes. IfSome bytes IsHonest) }
    {
        Ok(copy_of(&self.entries, key)?)
    }

    #[tactic(auto, using(crate::proofs::Honest::honest_put))]
    fn put(&mut self, alloc: Global, key: &Text, bytes: &[u8]) -> Result<(), Trouble>
        ensures puts { Puts (seen_sure_store self.old) (seen_sure_store self.new) key.now bytes.now result }
        ensures kept { OnOk result (self.new ≡ map.insert self.old key.now bytes.now) }
        ensures same { OnErr result (self.new ≡ self.old) }
        ensures lacks { OnErr result (result ≡ Err Trouble.NoMemory) }
        ensures honest { AreHonest self.old → IsHonest bytes.now → AreHonest self.new }
    {
        put_in(alloc, &mut self.entries, key, bytes)?;
        Ok(())
    }
}
