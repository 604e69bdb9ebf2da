//! How often each channel of the routers of a block had each of the ten verdicts, and what is found
//! of each in a cycle.
//!
//! Eight verdicts are counted by bits, for all channels of a block at once. Granted follows from
//! Routed and from who waits now, and Empty is the rest. Many cycles that are like the last one, in
//! which nothing happened, are counted together.
#![tactic(auto)]

mod count;
mod counts;
mod findings;
mod laws;
mod low;
mod nine;
mod row;
mod tally;
mod verdicts;

pub use counts::{Counts, no_counts};
pub use findings::{find, granted_outs};
pub use laws::{findings_follow_from_grants, what_waiting_channels_may_take_is_wanted};
