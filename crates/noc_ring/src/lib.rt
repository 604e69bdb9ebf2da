//! A bank: the flit buffers of one router, each a ring of as many slots.
#![tactic(auto)]

mod bank;
mod store;

pub use bank::Bank;
