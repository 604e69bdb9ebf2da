//! How workers in threads of their own exchange what they send each other.
//!
//! It goes through rings (`rings`), and may be a letter that tells something and is written anew
//! afterwards (`letters`). A worker that waits at a ring looks again and again, until it gives up
//! (`patience`). A gate says who may begin a cycle (`gate`). Workers are run in halves, each by a
//! thread, and what both give is joined (`halves`).
#![tactic(auto)]

mod gate;
mod halves;
mod letters;
mod patience;
mod rings;

pub use gate::{AllOpen, Gate, may_be_shut};
pub use halves::{NotRun, joined};
pub use letters::{Letter, hear_next};
pub use patience::{Patience, Stop, TillGone};
pub use rings::{Ends, arrived, put, ring_with};
