//! Cycles as numbers: how far a run goes, what follows from a count of cycles for a packet, for a
//! channel and for the last cycle, and when a run that drains looks whether it is over.
#![tactic(auto)]

mod looks;
mod runs;

pub use looks::{DRAIN_CHECK_INTERVAL, to_next_look};
pub use runs::{Interval, empty_cycles, latency, was_quiet};
