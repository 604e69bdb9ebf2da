//! Columns: a word is one channel of 64 routers, bit r of it router r.
//!
//! A block has a word for each channel, and what is done to a word is done to all its routers. The
//! records of a block stand once: their fields are `Words` where they are of a block, one word
//! where they are of one channel, and sets of channels where `specs/` reads one router out of them.
#![tactic(auto)]

mod allocation;
mod asks;
mod by_port;
mod by_router;
mod channel_table;
mod channels;
mod credits;
mod due;
mod effects;
mod ejection;
mod flits;
mod frame;
mod given;
mod grants;
mod header;
mod injection;
mod laws;
mod left;
mod marks;
mod neighbours;
mod over_links;
mod payments;
mod picks;
mod places;
mod planes;
mod ports;
mod routes;
mod sets;
mod sources;
mod starts;
mod supply;
mod switch;
mod walk;
mod words;

pub use allocation::allocate;
pub use by_router::add_links;
pub use channel_table::ChannelTable;
pub use channels::{Decided, Inputs, Links, Outputs, Returned, Standing, Verdicts};
pub use credits::take_credits;
pub use due::{Due, NEVER, SOON};
pub use effects::{Moves, settle};
pub use ejection::give_back;
pub use flits::land;
pub use frame::Frame;
pub use given::{GRANTS, Grant, Grants};
pub use header::Header;
pub use injection::{Injection, bring, inject};
pub use laws::{
    a_router_that_is_put_has_the_channel, allotments_and_routes_are_what_a_router_chooses,
    allotments_are_what_a_router_allocates, allotments_show_who_owns_a_channel,
    channels_of_a_router_are_apart, near_and_far_are_the_places, neighbours_stand_at_these_places,
    picked_channels_are_those_of_the_ports, places_bring_what_comes_over_the_link,
    ports_pass_what_a_router_passes, ports_pick_what_a_router_picks,
    ports_switch_what_a_router_switches, sources_send_what_a_router_sends,
    what_comes_from_the_places_is_near_or_far, what_leaves_by_the_local_port_arrives,
    what_leaves_gives_its_channel_back,
};
pub use left::Left;
pub use marks::{Marks, REQUESTS};
pub use neighbours::{Far, Near, Neighbours};
pub use over_links::{gather, gather_far, opposite};
pub use payments::pay;
pub use picks::{Candidates, Picks, pick};
pub use places::{far_of, write_near};
pub use planes::{Planes, less};
pub use ports::{PORTS, Ports, RouterPorts};
pub use routes::{Guide, route};
pub use sets::{CHANNELS, but_lowest, least};
pub use sources::Sources;
pub use starts::Start;
pub use supply::{Digits, NUMBERS, Sends, look_up};
pub use switch::{Switch, traverse};
pub use words::{GROUP, ROUTERS, WORDS, Words, alone_if, bit, clear_first, used_words};
