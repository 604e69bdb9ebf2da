//! Steps by coordinates, and the channels of a class (Dally and Towles, chapters 8 to 10 and 14).

ghost use Rattle.std.specs.Prelude.{◌≡◌, ◌+◌, ◌*◌, ◌/◌, ◌<◌, ◌≤◌, slice_index};
ghost use Rattle.noc_packet.specs.declared.limits.TheConstants.{MAX_CHANNELS, MAX_CLASSES};
ghost use Rattle.noc_topo.specs.declared.limits.TheConstants.{LINKS, MAX_RADIX};
ghost use Rattle.noc_steps.specs.Ways.{goes_up, is_west_first, dateline_class, is_escape_by};

/// The coordinates of a router and of a destination, and the port of dimension order between them.
#[derive(Clone, Copy)]
pub struct Way {
    /// The coordinates of the router, by dimension; 0 in those that the shape does not have.
    pub here: [usize; 3],
    /// Those of the destination.
    pub there: [usize; 3],
    /// The port of dimension order, or none at the destination itself.
    pub towards: Option<usize>,
}

impl Way {
    /// Whether west first may lead along this port: down dimension 0 alone while the destination is
    /// there.
    pub fn is_west_first(&self, port: usize) -> bool
        ensures { result ≡ is_west_first self.now.here self.now.there port }
    {
        port == 1 || self.here[0] <= self.there[0]
    }

    /// The half of a class's channels that the next hop along a port takes.
    pub fn dateline_class(&self, port: usize) -> usize
        requires { port < LINKS }
        ensures { result ≡ dateline_class port (slice_index self.now.here (port / 2))
            (slice_index self.now.there (port / 2)) }
    {
        let x = self.here[port / 2];
        let t = self.there[port / 2];
        let crosses = if port % 2 == 0 { t < x } else { x < t };
        if crosses { 0 } else { 1 }
    }

    /// Whether an escape channel, by its index among those of its class, is taken along a port.
    pub fn takes_escape(&self, wraps: bool, port: usize, index: usize) -> bool
        requires { port < LINKS }
        ensures { result ≡ is_escape_by wraps self.now.towards port
            (slice_index self.now.here (port / 2)) (slice_index self.now.there (port / 2)) index }
    {
        if self.towards != Some(port) {
            return false;
        }
        let taken = if wraps { self.dateline_class(port) } else { 0 };
        index == taken
    }
}

/// Whether the way up is the shorter one from x to t in a dimension of this size, or as long as the
/// way down.
pub fn goes_up(wraps: bool, size: usize, x: usize, t: usize) -> bool
    requires few { size ≤ MAX_RADIX }
    requires x { x < size }
    requires t { t < size }
    ensures { result ≡ goes_up wraps size x t }
{
    if !wraps {
        return x < t;
    }
    (t + size - x) % size <= (x + size - t) % size
}

/// The first channel of a class, and the end of its channels.
pub fn channels_of_class(vcs: usize, classes: usize, class: usize) -> (usize, usize)
    requires class { class < classes }
    requires vcs { vcs ≤ MAX_CHANNELS }
    requires classes { classes ≤ MAX_CLASSES }
    ensures first { result.0 ≡ class * vcs / classes }
    ensures end { result.1 ≡ (class + 1) * vcs / classes }
    ensures within { result.1 ≤ vcs }
    ensures order { result.0 ≤ result.1 }
{
    (class * vcs / classes, (class + 1) * vcs / classes)
}
