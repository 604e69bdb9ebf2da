//! Bytes in and out: an input is read to its end or split in two, with what can be wrong with it,
//! and texts go into a sink.
#![tactic(auto)]

mod input_fault;
mod joined;
mod reading;
mod sink;
mod writing;

pub use input_fault::{InputFault, Key, LONGEST_TITLE};
pub use joined::split_joined;
pub use reading::read_all;
pub use sink::{Out, Sink};
pub use writing::{WriteFault, put_all, write_pieces};
