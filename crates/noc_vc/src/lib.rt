//! Virtual channels: the states of the input and output channels of one router.
#![tactic(auto)]

mod input;
mod misfit;
mod output;

pub use input::{InputChannel, InputState, Landing};
pub use misfit::Misfit;
pub use output::{OutputChannel, OutputState};
