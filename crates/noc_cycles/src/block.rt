//! What the routers of a block hold between two cycles, and what they work out in one.

use noc_columns::{
    CHANNELS, Decided, Grants, Injection, Inputs, Links, Marks, Outputs, Picks, ROUTERS, Returned,
    Sources, Standing, Switch, Verdicts, Words,
};

/// What the routers of a block hold between two cycles. (Words begin lines of the cache in a list
/// that begins 16 bytes behind one: docs/DECISIONS.md#columns.)
#[derive(Drop)]
pub struct Block {
    // 48 bytes that hold nothing, so that words begin lines of the cache.
    pub(crate) before: [u64; 6],
    /// What their input channels are.
    pub inputs: Inputs<Words>,
    /// What their output channels are.
    pub outputs: Outputs<Words>,
    /// The pointers of their output ports.
    pub switch: Switch<Words>,
    /// What their sources inject.
    pub injection: Injection<Words>,
    /// By which output channel each active input channel sends, and which of them were granted it
    /// in the last cycle.
    pub grants: Grants,
    /// What they have by router.
    pub marks: Marks,
    /// By router and input channel, the number of the packet that holds it.
    pub packets: [[u32; CHANNELS]; ROUTERS],
    /// Their sources.
    pub sources: Sources,
    // Nothing, so that all is a multiple of 64 bytes.
    pub(crate) behind: [u64; 6],
}

/// What the routers of a block work out in a cycle.
#[derive(Drop)]
pub struct Work {
    // 48 bytes that hold nothing, so that words begin lines of the cache.
    pub(crate) before: [u64; 6],
    /// What the links bring, and of the local channels what the sources inject.
    pub came: Links<Words>,
    /// What the credits that come are.
    pub returned: Returned<Words>,
    /// What the input channels can do.
    pub standing: Standing<Words>,
    /// What is decided of them.
    pub decided: Decided<Words>,
    /// What their input ports pick.
    pub picks: Picks,
    /// Those that ask for an output channel and are not granted it.
    pub lost: Words,
    /// What their verdicts follow from, with what they can do and what is decided of them.
    pub verdicts: Verdicts<Words>,
    /// The input channels from which packets leave the network.
    pub arrived: Words,
    /// The routers that have such a channel.
    pub leaving: u64,
    /// The routers in which a head is first in a buffer.
    pub heading: u64,
}
