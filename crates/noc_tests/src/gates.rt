//! Gates that hold workers.

ghost use Rattle.std.specs.Prelude.{false, nat_eq, ◌&&◌};

use noc_tiles::Gate;
use std::hint;
use std::sync::atomic::{AtomicBool, Ordering};

// How often a gate looks whether what it waits for has come.
const LOOKS: u32 = 100_000_000;

// Waits until a flag is raised. False where it isn't after so many looks.
fn is_raised_soon(flag: &AtomicBool) -> bool {
    for _ in 0..LOOKS {
        if flag.load(Ordering::SeqCst) {
            return true;
        }
        hint::spin_loop();
    }
    false
}

// The gate that one worker can't pass in one cycle.
#[derive(Clone, Copy)]
pub(crate) struct Closing {
    pub(crate) worker: usize,
    pub(crate) cycle: u64,
}

impl Gate for Closing {
    ghost opens = { λ _. false };

    ghost shuts = { λ gate worker cycle. nat_eq worker gate.worker && nat_eq cycle gate.cycle };

    fn pass(&self, worker: usize, cycle: u64) -> bool {
        worker != self.worker || cycle != self.cycle
    }

    fn always(&self) -> bool {
        false
    }
}

// The gate that workers 0 and 1 pass in cycle 1 only when both have come to
// it. Each raises its flag.
#[derive(Drop)]
pub(crate) struct Meeting {
    pub(crate) first: AtomicBool,
    pub(crate) second: AtomicBool,
}

impl Gate for Meeting {
    ghost opens = { λ _. false };

    ghost shuts = { λ _ _ _. false };

    fn pass(&self, worker: usize, cycle: u64) -> bool {
        if cycle != 1 || 1 < worker {
            return true;
        }
        if worker == 0 {
            self.first.store(true, Ordering::SeqCst);
            is_raised_soon(&self.second)
        } else {
            self.second.store(true, Ordering::SeqCst);
            is_raised_soon(&self.first)
        }
    }

    fn always(&self) -> bool {
        false
    }
}

// The gate that worker 2 passes in cycle 0 only when worker 0 has come to cycle 2,
// and has raised the flag.
#[derive(Drop)]
pub(crate) struct HeadStart {
    pub(crate) ahead: AtomicBool,
}

impl Gate for HeadStart {
    ghost opens = { λ _. false };

    ghost shuts = { λ _ _ _. false };

    fn pass(&self, worker: usize, cycle: u64) -> bool {
        if worker == 0 && cycle == 2 {
            self.ahead.store(true, Ordering::SeqCst);
        }
        worker != 2 || cycle != 0 || is_raised_soon(&self.ahead)
    }

    fn always(&self) -> bool {
        false
    }
}
