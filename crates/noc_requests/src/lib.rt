//! Requests: commands with the texts of their files, and what these make before a network runs. They
//! make a routing relation, ranks are checked along it, and a network is opened, or the first fault
//! is answered.
#![tactic(auto)]

mod checking;
mod opening;
mod outcome;
mod request;
mod settings;

pub use checking::answer_check;
pub use opening::opening_network;
pub use outcome::{ended, ending};
pub use request::{Bytes, Files, Request, Text, files_of};
pub use settings::{last_cycle, packet_fault, relation_of};
