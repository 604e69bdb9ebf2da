//! A network of routers, run cycle by cycle.
//!
//! This is how it is used, by the crate noc_library_example:
//!
//! ```rust
//! /// The relation of a dateline on a ring of four routers with two channels on each link, once
//! /// its ranks are accepted: no network on it is ever stuck. None where memory was refused.
//! pub fn ring(rt: &(impl Threads + Sync), alloc: Global) -> Option<Relation>
//!     ensures ranked { IfSome result (λ r. (ranks : Ranking) × IsRankedBy r ranks) }
//! {
//!     let shape = Shape::new(Kind::Torus, &[4]).ok()?;
//!     let relation = Relation::build(alloc, &shape, 2, 1, Rule::Dateline).ok()?;
//!     let ranks = Ranks::generated(alloc, &shape, 2, 1, &Rule::Dateline).ok()?;
//!     check(rt, alloc, &relation, &ranks).ok()?;
//!     Some(relation)
//! }
//!
//! /// Runs a network with ranks as long as its limit says. All packets are out then, by proof.
//! pub fn drain(network: &mut Network) -> bool
//!     requires ranked { (ranks : Ranking) × IsRankedBy network.old.net.relation ranks }
//!     requires start { network.old.count ≡ 0 }
//!     ensures out { result ≡ true }
//! {
//!     let limit = network.limit();
//!     network.run(limit);
//!     network.all_out()
//! }
//!
//! /// In how many cycles the channel by which packets come from router 0 to router 1 of that ring
//! /// had no credit.
//! pub fn cycles_without_credit(network: &Network) -> u64
//!     requires ring { network.now.net.relation.grid ≡ record { wraps = true; radix = 4 ∷ [] } }
//!     requires channels { network.now.net.relation.vcs ≡ 2 }
//! {
//!     let counts = network.counts(1, 1, 0);
//!     counts[Verdict::NoCredit as usize]
//! }
//! ```
#![tactic(auto)]

mod cycles;
mod event_core;
mod limit;
mod net_fault;
mod network;
mod packets;
mod parts;
mod workers;

pub use event_core::Core;
pub use limit::MAX_LIMIT;
pub use net_fault::{LONGEST_TITLE, NetFault};
pub use network::Network;
pub use noc_theory::{CYCLE_LIMIT, Event, NotReady};
pub use noc_wires::{Room, deliver, take_beats};
pub use noc_workers::NotRun;
pub use parts::Parts;
pub use workers::{MAX_WORKERS, RunFault};
