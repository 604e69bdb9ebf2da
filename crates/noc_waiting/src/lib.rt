//! How a thread waits for another one that works as it does.
//!
//! It looks 250 times before it yields, with a rest of the processor between two looks after the
//! first 32. That takes some ten microseconds, and is meant to be longer than two threads with
//! unequal work wait for each other, which has not been measured. After 8000 looks it sleeps for 50
//! microseconds, and again after every 250 looks. By then the other one has probably lost its
//! processor to another program, and sleeping lets it have this one. It sleeps on a word of its own
//! (`park_timeout`), since a sleep by the clock would need a clock, and nobody wakes it.
//! `crossbeam_utils::Backoff` does not serve: it never sleeps.
#![tactic(auto)]

use std::sync::Wait;
use std::sync::atomic::AtomicU64;
use std::time::Duration;
use std::{hint, thread};

// How often a thread that waits looks again before it gives its processor to others.
const LOOKS: u32 = 250;

// How many of these looks follow each other at once, before it pauses between two: a pause costs
// about 140 processor cycles, and what it waits for may be nearer than that.
const LOOKS_AT_ONCE: u32 = 32;

// After how many looks it sleeps instead, which frees its processor for a thread whose own another
// program has.
const LOOKS_AWAKE: u32 = 32 * LOOKS;

// How many microseconds it sleeps.
const NAP: u64 = 50;

/// Sleeps once, as each of several new threads is to before it works with the others, and the one
/// that started them too: the system then gives each a processor that is free. One that does not
/// sleep may stay for milliseconds on the processor of the thread that started it.
pub fn settle(rt: &impl Wait) {
    nap(rt);
}

// Sleeps for a moment, on a word that nobody else has.
fn nap(rt: &impl Wait) {
    AtomicU64::new(0).park_timeout(rt, 0, Duration::from_micros(NAP));
}

/// Rests after so many looks, and answers how many count then: one more, or after a sleep as many
/// as put the next sleep `LOOKS` away.
pub fn rested(rt: &impl Wait, looks: u32) -> u32 {
    if looks >= LOOKS_AWAKE {
        nap(rt);
        return LOOKS_AWAKE - LOOKS;
    }
    if looks % LOOKS == LOOKS - 1 {
        thread::yield_now();
    } else if looks >= LOOKS_AT_ONCE {
        hint::spin_loop();
    }
    looks + 1
}
