//! One cycle of the routers of a block: what comes is taken, it is decided what each channel does,
//! and that takes effect.
//!
//! The passes are those of `noc_columns`. Here stands what a block holds from cycle to cycle, what
//! it works out in one, and the three parts of a cycle, each with what it is of one router. These
//! are never inlined: in a loop over all blocks the compiler would keep track of hundreds of words.
#![tactic(auto)]

mod around;
mod begins;
mod block;
mod concluding;
mod copies;
mod deciding;
mod deliveries;
mod first;
mod hears;
mod incoming;
mod laws;
mod notes;
mod nothing;
mod opening;
mod pattern;
mod taking;
mod tells;
mod turning;

pub use around::{Around, all_around};
pub use begins::some_in;
pub use block::{Block, Work};
pub use concluding::conclude;
pub use deciding::{Routing, decide};
pub use deliveries::arrive_all;
pub use first::First;
pub use hears::hear;
pub use incoming::gather_links;
pub use laws::routers_that_hold_nothing_are_empty;
pub use notes::Note;
pub use opening::{empty_works, open_blocks};
pub use pattern::Pattern;
pub use taking::take;
pub use tells::{room_for_notes, tell};
pub use turning::routers_take_part;
