//! One step of a packet: by which port and channel it leads on, whether packets come to where it
//! begins, and whether ranks rise along it. Here stands each choice on which freedom from deadlock
//! rests, by numbers alone.
#![tactic(auto)]

mod rank;
mod reached;
mod way;

pub use rank::{counts_for, falls, inputs};
pub use reached::{only_if, take_row, taken};
pub use way::{Way, channels_of_class, goes_up};
