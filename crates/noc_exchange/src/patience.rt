//! When a worker that waits gives up.

ghost use Rattle.std.specs.Prelude.{◌≡◌, Bool, false, true, IsTrue};

use std::marker::Model;
use std::sync::atomic::{AtomicBool, Ordering};

/// Says when a worker that waits at a ring gives up.
pub trait Patience {
    // Whether it can give up.
    ghost can_end: { Self → Bool };

    /// Whether it gives up. `gone` says whether the other end of the ring is.
    fn ends(&self, gone: bool) -> bool
        ensures { IsTrue result → can_end self.now ≡ true };
}

/// Gives up where the other end of the ring is gone.
#[derive(Clone, Copy)]
pub struct TillGone;

impl Patience for TillGone {
    ghost can_end = { λ _. true };

    fn ends(&self, gone: bool) -> bool {
        gone
    }
}

/// Asks the workers to come back. Contracts see whether it can ever be raised.
#[derive(Drop)]
pub struct Stop {
    flag: AtomicBool,
    can_rise: bool,
}

impl Model for Stop {
    ghost Value = { Bool };

    ghost view = { λ s. s.can_rise };
}

impl Stop {
    /// A flag that is not raised.
    pub fn new() -> Self
        ensures { result ≡ true }
    {
        Stop {
            flag: AtomicBool::new(false),
            can_rise: true,
        }
    }

    /// No flag: it is never raised.
    pub fn never() -> Self
        ensures { result ≡ false }
    {
        Stop {
            flag: AtomicBool::new(false),
            can_rise: false,
        }
    }

    /// Raises the flag, if there is one.
    pub fn raise(&self) {
        if self.can_rise {
            self.flag.store(true, Ordering::SeqCst);
        }
    }

    /// Whether the flag is raised.
    pub fn raised(&self) -> bool
        ensures { IsTrue result → self.now ≡ true }
    {
        self.can_rise && self.flag.load(Ordering::SeqCst)
    }
}

/// Gives up where the flag is raised, and only there.
impl Patience for Stop {
    ghost can_end = { λ can_rise. can_rise };

    fn ends(&self, gone: bool) -> bool {
        let _ = gone;
        self.raised()
    }
}
