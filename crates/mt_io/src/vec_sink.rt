//! Sinks in memory.
ghost use Rattle.std.specs.Prelude.{◌≡◌, ◌↔◌, ◌⊎◌, ◌-◌, ◌<◌, [], ◌++◌, length, min, take, IfOk, IsErr, Ok, OnErr};
ghost use Rattle.mt_io.specs.Seen.{Takes};
ghost use Rattle.mt_io.specs.Memory.{NextFails, after_fault, after_pass, plan_of, seen_sink, seen_sure_sink};

use crate::fault_plan::FaultPlan;
use crate::sink::Sink;
use crate::trouble::Failed;
use std::alloc::{AllocError, Global};
use std::marker::Model;

/// A sink that keeps what it takes in memory, and some of whose calls fail.
#[derive(Debug, Drop)]
pub struct VecSink {
    bytes: Vec<u8>,
    room: usize,
    plan: FaultPlan,
}

impl Model for VecSink {
    ghost use Rattle.std.specs.Prelude.{◌+◌, ◌≤◌, vec_len, vec_capacity};
    ghost use Rattle.mt_io.specs.Memory.{PlannedSink};

    ghost Value = { PlannedSink };

    ghost view = { λ s. record { bytes = s.bytes.items; room = s.room; plan = s.plan } };

    ghost invariant = { λ s. vec_len s.bytes + s.room ≤ vec_capacity s.bytes };
}

impl VecSink {
    /// A sink with room for `room` bytes. The writes whose numbers, counted from 1, are in `failing` fail, and so does
    /// a write that finds no room.
    pub fn new(alloc: Global, room: usize, failing: Vec<u64>) -> Result<VecSink, AllocError>
        ensures { IfOk result (λ sink. sink ≡ record { bytes = []; room = room; plan = plan_of failing.items }) }
    {
        Ok(VecSink {
            bytes: Vec::with_capacity(alloc, room)?,
            room,
            plan: FaultPlan::new(failing),
        })
    }

    /// The bytes that were taken.
    pub fn bytes(&self) -> &[u8]
        ensures { result.now ≡ self.now.bytes }
    {
        self.bytes.as_slice()
    }
}

impl Sink for VecSink {
    ghost seen = { seen_sink };

    fn faults(&self) -> u64 {
        self.plan.faults()
    }

    /// Takes as many bytes as there is room for. It fails only where the plan says so, or where there are bytes and no
    /// room.
    #[tactic(auto, unfolding(crate::specs::Seen::Wrote, crate::specs::Seen::Missed))]
    fn write(&mut self, bytes: &[u8]) -> Result<usize, Failed>
        ensures takes { Takes (seen_sink self.old) (seen_sink self.new) bytes.now result }
        ensures fails { IsErr result ↔ (NextFails self.old.plan ⊎ ((self.old.room ≡ 0) × (0 < length bytes.now))) }
        ensures count { IfOk result (λ n. n ≡ min self.old.room (length bytes.now)) }
        ensures taken { IfOk result (λ n. self.new ≡ record { bytes = self.old.bytes ++ take n bytes.now; room = self.old.room - n; plan = after_pass self.old.plan }) }
        ensures fault { OnErr result (self.new ≡ record { bytes = self.old.bytes; room = self.old.room; plan = after_fault self.old.plan }) }
    {
        self.plan.begin()?;
        let (taken, _) = bytes.split_at(self.room.min(bytes.len()));
        if taken.is_empty() && !bytes.is_empty() {
            return Err(self.plan.fault());
        }
        self.bytes.extend_from_slice(taken).unwrap();
        self.room -= taken.len();
        Ok(taken.len())
    }
}

/// A sink that never fails, keeps nothing and tells nothing.
#[derive(Clone, Copy, Debug, PartialEq, Eq)]
pub struct SureSink;

impl SureSink {
    /// A sink that never fails, keeps nothing and tells nothing.
    pub fn new() -> SureSink {
        SureSink
    }
}

impl Sink for SureSink {
    ghost seen = { λ _. seen_sure_sink };

    fn faults(&self) -> u64 {
        0
    }

    /// Takes all of the bytes.
    #[tactic(auto, unfolding(crate::specs::Seen::Wrote, crate::specs::Seen::Missed))]
    fn write(&mut self, bytes: &[u8]) -> Result<usize, Failed>
        ensures takes { Takes seen_sure_sink seen_sure_sink bytes.now result }
        ensures all { result ≡ Ok (length bytes.now) }
    {
        Ok(bytes.len())
    }
}
