//! A network by blocks of 64 routers, of which a word is one channel.
//!
//! A network (`engine`) is seen as what it was made from (`origin`) and how many cycles it has run.
//! It is opened (`open`) as columns, whose tile has all its blocks. A cycle of a tile (`tile`) is a
//! few passes over its blocks (`passes`): each has its turn and tells what it grants, its blocks
//! and those near it hear that (`exchange`), and what has left them comes over the links. A tile
//! can be cut in two, and two that stand side by side joined (`cuts`), so that threads can run
//! parts of a network.
//!
//! One thread runs cycle after cycle of all blocks (`step`, `run`), and where nothing happens in
//! one, time jumps (`waits`). Of a network it is read what was counted, what was found and what has
//! arrived (`results`).
#![tactic(auto)]

mod columns;
mod cuts;
mod engine;
mod exchange;
mod finds;
mod open;
mod origin;
mod passes;
mod plan;
mod results;
mod run;
mod step;
mod tile;
mod turn;
mod waits;

pub use columns::Columns;
pub use engine::Engine;
pub use exchange::Told;
pub use origin::{Origin, Setup};
pub use plan::Plan;
pub use tile::Tile;
