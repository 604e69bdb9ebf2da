//! What arguments ask for, once they are read, and how the program tells how an answer has ended.
#![tactic(auto)]

mod asked;
mod telling;

pub use asked::{Asked, asked_of, request_of};
pub use telling::report;
