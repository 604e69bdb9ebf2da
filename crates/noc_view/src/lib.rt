//! What one router sees, and what one cycle of it does, as definitions (`specs/View.antt`,
//! `specs/Verdict.antt`), with the types of verdicts and findings. No network runs here: the theory
//! of networks reads these definitions, and both engines carry them out, `noc_router` one router at
//! a time and `noc_engine` 64 at once.
#![tactic(auto)]

mod finding;
mod sets;
mod verdict;

pub use finding::Finding;
pub use sets::a_channel_has_the_verdict_of_its_set;
pub use verdict::{VERDICTS, Verdict};
