//! What stays as it is while a network runs.

use noc_columns::{Header, Start};
use noc_cycles::{Around, Pattern};

/// What a network was made from, in the words of its blocks.
#[derive(Drop)]
pub struct Plan {
    /// What all routers have alike.
    pub pattern: Pattern,
    /// By block, where its links lead.
    pub around: Vec<Around>,
    /// The packets of all sources, one source after the other.
    pub starts: Vec<Start>,
    /// The headers of the packets, by number.
    pub headers: Vec<Header>,
}
