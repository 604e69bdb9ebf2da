//! Ranks along steps.

ghost use Rattle.std.specs.Prelude.{◌≡◌, ◌*◌, ◌<◌, ◌≤◌, length};
ghost use Rattle.noc_packet.specs.declared.limits.TheConstants.{INDICES, MAX_CHANNELS, MAX_CLASSES, MAX_NODES};
ghost use Rattle.noc_topo.specs.Shape.{nodes, ports};
ghost use Rattle.noc_steps.specs.Falls.{counts_for, falls};

use noc_topo::Shape;

/// Whether a rank is no less than the one ahead, where both are there.
pub fn falls(rank: Option<u32>, ahead: Option<u32>) -> bool
    ensures { result ≡ falls rank ahead }
{
    matches!((rank, ahead), (Some(rank), Some(ahead)) if ahead <= rank)
}

/// What a channel counts for as the next one: its mark where it has a rank, else the least mark
/// ahead of it.
pub fn counts_for(
    ranks: &[Option<u32>],
    marks: &[Option<u32>],
    least: &[Option<u32>],
    channel: usize,
) -> Option<u32>
    requires ranks { channel < length ranks.now }
    requires marks { channel < length marks.now }
    requires least { channel < length least.now }
    ensures { result ≡ counts_for ranks.now marks.now least.now channel }
{
    if ranks[channel].is_some() {
        marks[channel]
    } else {
        least[channel]
    }
}

/// How many input channels the routers of a shape have, those of each class counted.
pub fn inputs(shape: &Shape, vcs: usize, classes: usize) -> usize
    requires vcs { vcs ≤ MAX_CHANNELS }
    requires some { 1 ≤ classes }
    requires few { classes ≤ MAX_CLASSES }
    ensures value { result ≡ classes * (nodes shape.now * ports shape.now * vcs) }
    ensures few { result ≤ MAX_CLASSES * MAX_NODES * INDICES }
{
    classes * (shape.nodes() * shape.ports() * vcs)
}
