//! A network of blocks of columns, run by workers in threads of their own.
//!
//! So many cycles of a network are run by as many workers as pay (`by`, `pace`). For a stretch of
//! them the network is cut into tiles, each with a worker (`apart`, `cut`), and then joined again
//! (`join`). A worker runs the cycles of its tile (`worker`). In each its blocks from which links
//! lead to another tile (`borders`) tell that one what they have sent, by a mail (`mail`) through a
//! ring (`post`, `rings`). Workers run in threads (`fork`), and know of which run they are
//! (`origin`).
#![tactic(auto)]

mod apart;
mod borders;
mod by;
mod cut;
mod fork;
mod join;
mod mail;
mod origin;
mod pace;
mod post;
mod rings;
mod worker;

pub use by::run_by;
pub use noc_exchange::NotRun;
