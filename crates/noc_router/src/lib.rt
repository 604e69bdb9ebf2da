//! One router: its channels, its source and its sink, and one cycle of it over all beats.
#![tactic(auto)]

mod arbiters;
mod arrivals;
mod channels;
mod committing;
mod deciding;
mod injecting;
mod parts;
mod plan;
mod putting;
mod router;
mod source;
mod taking;
mod tally;

pub use noc_view::{Finding, VERDICTS, Verdict};
pub use plan::Plan;
pub use router::Router;
