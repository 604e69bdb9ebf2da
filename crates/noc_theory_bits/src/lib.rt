//! What the words of all routers show of a network, cycle by cycle. Nothing here runs.
//!
//! `specs/` has the packet that holds an input channel (`Owners`), what is on the wires (`Wires`),
//! the packets that the sources have (`Starts`), what a router sends over its links (`Sends`), and
//! what is kept of a network, or of some of its routers, with its cycles and waits (`Network`). The
//! words of one router, and what a cycle makes of them, are in `noc_sets`.
//! The laws are the contracts of the functions here.
#![tactic(auto)]

mod cycles;
mod holders;
mod own;
mod readers;
mod worms;

pub use cycles::{
    a_cycle_keeps_what_they_show, a_run_shows_the_network, a_wait_keeps_what_they_show,
    opened_words_show_the_network,
};
pub use holders::{
    first_flits_are_of_their_holder, flits_come_to_their_holder,
    grants_go_to_channels_that_nobody_holds, grants_tell_the_holder,
    numbers_of_filled_channels_are_packets, senders_know_the_holder,
};
pub use own::{
    a_cycle_keeps_what_own_routers_show, a_router_sends_what_the_network_does,
    a_router_shows_the_next_count, all_routers_show_the_network, parts_show_the_network_together,
};
pub use readers::{counts_are_those_of_the_network, findings_are_those_of_the_network};
pub use worms::{buffers_hold_consecutive_flits, tails_are_told_by_two_bits};
