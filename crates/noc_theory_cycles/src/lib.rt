//! What the routers of a block that show a network have. Nothing here runs.
//!
//! `noc_cycles` has the parts of a cycle of a block, and what each asks for of its routers, and
//! `noc_theory_bits` what the words of all routers show of a network. `specs/` has what it means
//! that a block fits a network (`Fits`), what routers hold that the network does not have
//! (`Blank`), what a router of a block shows (`Nodes`), which channels are granted (`Granted`),
//! where packets begin (`Firsts`), and the words of routers before the first cycle and after a turn
//! (`Steps`). The laws are the contracts of the functions here.
#![tactic(auto)]

mod blank;
mod granted;
mod heads;
mod layouts;
mod nodes;
mod opened;
mod routers;
mod steps;

pub use blank::{
    blank_routers_have_what_is_asked_for, blank_routers_hold_nothing, blank_routers_stay_blank,
};
pub use granted::granted_channels_have_the_grants;
pub use heads::{
    heads_are_routed_as_permitted, packets_are_routable, routers_work_as_the_relation_permits,
};
pub use layouts::patterns_have_a_layout;
pub use nodes::{nodes_have_what_is_asked_for, nodes_make_turns_of_the_network};
pub use opened::opened_blocks_show_the_network;
pub use routers::routers_have_what_is_asked_for;
pub use steps::{
    arrivals_are_read_from_words, nodes_tell_what_they_grant, turns_are_shown_by_what_is_held,
    what_leaves_by_links_is_brought,
};
