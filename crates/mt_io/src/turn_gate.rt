//! A gate that shows whether two jobs run at once.
use crate::gate::Gate;
use std::sync::atomic::AtomicBool;
use std::sync::atomic::Ordering::SeqCst;

/// A gate that holds job 1 until job 2 has passed, for a number of turns at most, and then lets it through.
#[derive(Drop)]
pub struct TurnGate {
    turns: u64,
    has_passed: AtomicBool,
    has_given_up: AtomicBool,
}

impl TurnGate {
    /// A gate that holds job 1 for at most `turns` turns.
    pub fn new(turns: u64) -> TurnGate {
        TurnGate {
            turns,
            has_passed: AtomicBool::new(false),
            has_given_up: AtomicBool::new(false),
        }
    }

    /// Whether job 1 was let through because the turns were spent.
    pub fn gave_up(&self) -> bool {
        self.has_given_up.load(SeqCst)
    }

    /// Waits until job 2 has passed, or the turns are spent.
    fn hold(&self) {
        for _turn in 0..self.turns {
            if self.has_passed.load(SeqCst) {
                return;
            }
        }
        self.has_given_up.store(true, SeqCst);
    }
}

impl Gate for TurnGate {
    fn pass(&self, job: u32) {
        match job {
            1 => self.hold(),
            2 => self.has_passed.store(true, SeqCst),
            _ => {}
        }
    }
}
