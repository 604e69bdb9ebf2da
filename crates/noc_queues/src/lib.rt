//! The packets of each node before the first cycle, by due time; and those of all nodes as blocks
//! of columns keep them: one list, and where the packets of each router begin in it.
#![tactic(auto)]

mod queues;
mod starts;

pub use queues::{ends_by_node, starts_by_node};
pub use starts::{Starts, all_starts};
