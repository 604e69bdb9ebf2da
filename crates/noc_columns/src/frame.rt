//! What is the same in all blocks of a network.

ghost use Rattle.std.specs.Prelude.{◌≤◌, ◌*◌};
ghost use Rattle.noc_columns.specs.Prelude.{GROUP, WORDS};

use crate::planes::Planes;

/// How many words the channels have, and how many flits their buffers hold.
#[derive(Clone, Copy)]
pub struct Frame {
    /// How many groups of four words all channels have, 1 to 18.
    pub groups: usize,
    /// How many of them the link channels have, which stand first.
    pub link_groups: usize,
    /// Whether a count of flits or credits has five bits, and not three.
    pub deep: bool,
    /// How many flits the buffer of each channel holds, in every router.
    pub places: Planes<u64>,
    ghost few: { GROUP * groups ≤ WORDS },
    ghost links: { link_groups ≤ groups },
}
