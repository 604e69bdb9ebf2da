//! A router as sets of channels. Nothing here runs.
//!
//! `specs/` has the words of a router (`Column`), what it means that they show its view, and what
//! each step of a cycle makes of them, up to the whole cycle (`Cycle`). The laws are the contracts
//! of the functions here.
#![tactic(auto)]

mod links;
mod planes;

pub use links::{
    links_are_gathered_at_two_distances, neighbours_are_at_two_distances,
    only_channels_of_links_are_gathered,
};
pub use planes::{numbers_of_members_fall, numbers_of_members_rise, sets_of_numbers_are_right};
