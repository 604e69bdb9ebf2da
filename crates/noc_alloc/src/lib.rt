//! Round-robin arbiters, the channel allocator and the switch allocator of one router.
#![tactic(auto)]

mod arbiter;
mod channels;
mod switch;

pub use arbiter::Arbiter;
pub use channels::{advance_channels, allocate_channels};
pub use switch::{advance_switch, allocate_switch};
