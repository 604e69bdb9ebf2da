//! From a request to the bytes of its answer: the network that it opens is run, and what is asked for
//! is written.
#![tactic(auto)]

mod answers;
mod arriving;
mod drain;
mod explain;
mod formula;
mod laws;
mod run;
mod tracing;

pub use answers::{answer, answer_one};
pub use laws::{
    a_packet_that_is_out_has_its_numbers, a_request_has_one_answer, workers_change_no_report,
};
pub use noc_requests::{Request, Text};
