//! What can be wrong with a request: its faults, their lines, and the exit statuses.
#![tactic(auto)]

mod fault;
mod line;
mod status;

pub use fault::{Fault, OptionFault, status_of};
pub use line::fault_line;
pub use status::Status;
