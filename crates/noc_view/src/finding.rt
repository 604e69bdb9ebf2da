//! What a router finds of an input channel.

use crate::verdict::Verdict;

/// What a router found of one input channel in one cycle. The packet is that of the channel,
/// if it holds one, and the output channel (port, virtual channel) the one that the packet
/// owns, is granted or asks for.
#[derive(Clone, Copy, Debug, PartialEq, Eq)]
pub struct Finding {
    pub verdict: Verdict,
    pub packet: Option<u32>,
    pub out: Option<(usize, usize)>,
}

impl Finding {
    /// What is found of a channel that holds nothing.
    pub const EMPTY: Finding = Finding {
        verdict: Verdict::Empty,
        packet: None,
        out: None,
    };
}
