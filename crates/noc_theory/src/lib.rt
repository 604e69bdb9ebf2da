//! What a network is and does: definitions and their theory, and nothing that runs.
//!
//! `specs/` has the state of the whole network and one cycle of it (`Network`), events and the
//! work that is left (`Progress`), and worm order (`Worm`). It also has the same run router by
//! router (`Lockstep`, `Halves`), and routers that go on by single events (`Core`, `InStep`,
//! `Order`). What a network needs so that the laws hold of it stands in `Good`. The laws of states
//! ask for `IsWellFormedSetup`, which has no limits on packets, and those of routers for
//! `IsGoodSetup`. `ownership`, `views`, `progress` and `latency` have the laws: how packets stand
//! in every state, that the routers in lockstep show it, and that a ranked network goes on. Three
//! more say that a network in which nothing happens stays as it is until a packet is due, how long
//! a packet takes that is alone, and how long packets to one node take at least.
#![tactic(auto)]

mod event;
mod latency;
mod laws;
mod limits;
mod ownership;
mod progress;
mod views;

pub use event::{Event, NotReady};
pub use latency::{
    a_packet_alone_is_apart_from_others, a_packet_alone_is_never_held_up,
    packets_to_a_node_take_turns,
};
pub use laws::{a_good_setup_is_well_formed, findings_change_nothing, takes_commute};
pub use limits::CYCLE_LIMIT;
pub use ownership::{
    a_link_carries_one_credit, a_link_carries_one_flit, a_node_takes_one_flit_in_a_cycle,
    credits_are_the_free_slots, flits_go_out_in_order, packets_keep_worm_order,
};
pub use progress::{
    a_ranked_network_is_never_stuck, a_stuck_network_stays_stuck,
    all_packets_arrive_within_the_budget, each_event_is_one_less_to_come,
    nothing_changes_until_a_packet_is_due,
};
pub use views::{
    a_core_opens_where_its_routers_are, a_cycle_is_a_step_of_each_router, counts_add_up,
    routers_in_lockstep_show_the_network,
};
