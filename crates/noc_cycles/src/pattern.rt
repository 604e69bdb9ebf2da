//! What is the same for all routers of a network.

ghost use Rattle.std.specs.Prelude.{◌≡◌, ◌<◌, ◌≤◌, ◌+◌, ◌*◌, ◌^◌, ◌%◌, nat_lt};
ghost use Rattle.noc_cycles.specs.Alike.{all_if, same_count};
ghost use Rattle.noc_columns.specs.declared.words.TheConstants.{GROUP};

use noc_columns::{ChannelTable, Frame, GROUP, Planes, Ports, RouterPorts, WORDS};
use noc_packet::MAX_CHANNELS;
use noc_topo::{LINKS, Shape};

// Up to how many flits or credits a count goes that is not deep.
const SHALLOW: usize = 7;

/// Where the words of the channels of a router stand, and how many places a buffer has.
#[derive(Drop)]
pub struct Pattern {
    /// How many words there are, and how many flits a buffer holds.
    pub frame: Frame,
    /// Where the channels of a router stand: those of the links first, and then the local ones.
    pub table: ChannelTable,
    ghost some: { 0 < table.ports.links.vcs },
    ghost links: { table.ports.links.vcs * table.ports.links.width ≤ GROUP * frame.link_groups },
    ghost all: { table.ports.links.vcs * table.ports.links.width + table.ports.links.vcs
        ≤ GROUP * frame.groups },
}

impl Pattern {
    ghost use Rattle.noc_cycles.specs.Patterns.{IsPatternOf};

    /// That of the routers of a shape, where each port has so many virtual channels, and the buffer
    /// of each channel so many places.
    pub fn of(shape: &Shape, vcs: usize, places: usize) -> Pattern
        requires some { 0 < vcs }
        requires vcs { vcs ≤ MAX_CHANNELS }
        requires places { places < 2 ^ 5 }
        ensures { IsPatternOf shape.now vcs places result }
    {
        let width = shape.ports() - 1;
        let links = vcs * width;
        Pattern {
            frame: frame_of(links, links + vcs, places),
            table: ChannelTable::of(ports_of(width, vcs)),
        }
    }
}

// The ports of a router with so many link ports.
fn ports_of(width: usize, vcs: usize) -> RouterPorts
    requires some { 0 < width }
    requires pairs { width % 2 ≡ 0 }
    requires width { width ≤ LINKS }
    requires vcs { vcs ≤ MAX_CHANNELS }
    ensures width { result.links.width ≡ width }
    ensures vcs { result.links.vcs ≡ vcs }
{
    let links = Ports {
        first: 0,
        width,
        vcs,
    };
    let local = Ports {
        first: vcs * width,
        width: 1,
        vcs,
    };
    RouterPorts { links, local }
}

// The words of so many link channels, and of so many in all.
fn frame_of(links: usize, all: usize, places: usize) -> Frame
    requires links { links ≤ all }
    requires all { all ≤ WORDS }
    ensures links { links ≤ GROUP * result.link_groups }
    ensures all { all ≤ GROUP * result.groups }
    ensures deep { result.deep ≡ nat_lt SHALLOW places }
    ensures places { result.places ≡ same_count places }
{
    Frame {
        groups: (all + GROUP - 1) / GROUP,
        link_groups: (links + GROUP - 1) / GROUP,
        deep: places > SHALLOW,
        places: same_count(places),
    }
}

// The same count in all routers.
fn same_count(count: usize) -> Planes<u64>
    ensures { result ≡ same_count count }
{
    Planes {
        ones: all_if(count % 2 == 1),
        twos: all_if(count / 2 % 2 == 1),
        fours: all_if(count / 4 % 2 == 1),
        eights: all_if(count / 8 % 2 == 1),
        sixteens: all_if(count / 16 % 2 == 1),
    }
}

// All routers of a word, or none.
fn all_if(all: bool) -> u64
    ensures { result ≡ all_if all }
{
    if all { u64::MAX } else { 0 }
}
