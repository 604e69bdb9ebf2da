//! What the program does, from its arguments to its exit status: the files that the arguments name,
//! and the way of an answer out of the program.
#![tactic(auto)]

mod arguments;
mod counted;
mod device;
mod program;
mod telling;
mod version;

pub use arguments::Refusal;
pub use device::{write_answer, write_answer_one};
pub use noc_asked::{report, request_of};
pub use program::{run, run_args};
pub use version::write_version;
