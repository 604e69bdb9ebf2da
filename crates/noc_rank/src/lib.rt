//! Ranks of link channels: given by rows, made by formulas, and checked against a routing relation.
#![tactic(auto)]

mod accept;
mod ahead;
mod bare;
mod channel;
mod descent;
mod fault;
mod generated;
mod laws;
mod ranked;
mod ranks;
mod rising;
mod rows;

pub use accept::{Accepted, check};
pub use channel::LinkChannel;
pub use fault::RankFault;
pub use laws::{a_ring_of_four_has_no_ranks, formula_ranks_are_accepted};
pub use ranks::Ranks;
pub use rows::RankRow;
