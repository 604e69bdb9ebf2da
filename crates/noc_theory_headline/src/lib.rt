//! What a network promises, in four laws that hold of every network that is made, in every cycle
//! and every order of router steps.
//!
//! Their premise is `IsWellFormedSetup` (noc_theory, specs/Good): the relation was built, each
//! buffer has a slot, each packet can be sent, however many there are, of whatever length and due
//! whenever. The law on steps asks for `IsGoodSetup`, which keeps the limits on packets, and for a
//! count within the limit, as every network has them (`Network::packets`, `Network::count` of
//! noc_net). That on ranks asks for a relation that is ranked. They speak of the state of the whole
//! network, its owners, flits, credits and pointers (noc_theory, specs/Network), and their own
//! terms stand in the specs of this crate:
//! - `Headline` has what each verdict says of a channel, and what holds of
//!   a cycle (`IsRightCycle`);
//! - `Effects` has what a cycle does to channels, owners, flits, credits and
//!   pointers (`IsRightStep`);
//! - `Steps` has what holds of routers that take their steps one by one (`IsRightCore`); their
//!   events are in noc_theory, specs/Core and specs/Order, and the view that the state gives a
//!   router is `view_at` in specs/Lockstep;
//! - `Pending` has what it is that a packet waits, and that something happens; ranks are
//!   in noc_route, specs/Ranks.
//!
//! Clause by clause, what is promised of every network that is made stands here:
//! - after any list of steps each router shows the state of the network in its own cycle:
//!   `after_any_list_of_steps`;
//! - an output channel goes to a packet exactly where it is permitted, idle, and chosen by its
//!   arbiter: `every_cycle_is_right`, `verdicts_take_effect`;
//! - a flit moves exactly where its packet has the next channel, a credit is there, and it wins
//!   the switch: the same two;
//! - each stall names the first condition that fails: `every_cycle_is_right`;
//! - buffers neither overflow nor mix packets: `every_cycle_is_right`, for the state and for the
//!   buffers of routers `after_any_list_of_steps`;
//! - accepted ranks leave no pending cycle without an event:
//!   `accepted_ranks_leave_no_pending_cycle_without_an_event`;
//! - workers change no report: `Network::run_by` of noc_net, whose network is the one of the same
//!   count by one worker, and `workers_change_no_report` of noc_answers.
//!
//! That with ranks all packets arrive within the budget stands in noc_theory
//! (`all_packets_arrive_within_the_budget`).
#![tactic(auto)]

mod laws;

pub use laws::{
    accepted_ranks_leave_no_pending_cycle_without_an_event, after_any_list_of_steps,
    every_cycle_is_right, verdicts_take_effect,
};
