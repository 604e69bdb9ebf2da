//! Wires between routers that run one at a time: a router takes what came to it and puts what
//! leaves it, and what a core keeps of the wires of a router whose steps come one by one.
#![tactic(auto)]

mod delivers;
mod room;
mod takes;
mod wire;

pub use delivers::deliver;
pub use room::Room;
pub use takes::take_beats;
pub use wire::Wire;
