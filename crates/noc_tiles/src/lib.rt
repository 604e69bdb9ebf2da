//! Networks run by worker threads, each with a tile of the routers.
#![tactic(auto)]

mod ends;
mod laws;
mod partition;
mod threads;
mod tile;
mod tiles;
mod worker;

pub use ends::{Inlet, Outlet};
pub use laws::tiles_that_ran_apart_are_in_lockstep;
pub use noc_exchange::{AllOpen, Gate, Stop};
pub use noc_net::{MAX_WORKERS, RunFault};
pub use tile::{Outcome, Tile};
pub use tiles::run_tiles;
pub use worker::run_tile;
