//! Tails leave the network, and local output channels are idle again.

ghost use Rattle.std.specs.Prelude.{◌≡◌, ◌+◌, ◌*◌, ◌^◌, ◌<◌, ◌≤◌, ℕ, bit_or, slice_index, if◌then◌else◌};
ghost use Rattle.noc_columns.specs.Arrivals.{HasGivenBack};
ghost use Rattle.noc_columns.specs.Marks.{ChangesIdle};
ghost use Rattle.noc_columns.specs.Supply.{number_in};
ghost use Rattle.noc_columns.specs.Prelude.{has_bit};

use crate::marks::Marks;
use crate::ports::RouterPorts;
use crate::sets::{CHANNELS, but_lowest, least};
use crate::supply::Digits;
use crate::words::{ROUTERS, Words, used_words};
use noc_packet::MAX_CHANNELS;

/// The local output channels by which packets leave the network from these input channels are idle
/// again.
pub fn give_back(ports: &RouterPorts, arrived: &Words, vc: &Digits<Words>, marks: &mut Marks)
    ensures { HasGivenBack ports.now arrived.now vc.now marks.old marks.new }
{
    let links = ports.links.width * ports.links.vcs;
    let mut rest = used_words(links + ports.links.vcs, arrived);
    while rest != 0 {
        let index = least(rest);
        give_back_by(arrived[index], links, &vc.at(index), marks);
        rest = but_lowest(rest);
    }
}

// Gives back the local channels by which packets leave from one channel of these routers.
fn give_back_by(routers: u64, links: usize, vc: &Digits<u64>, marks: &mut Marks)
    requires { links + MAX_CHANNELS ≤ CHANNELS }
    ensures idle { (r : ℕ) → r < ROUTERS → slice_index marks.new.idle r
        ≡ bit_or (slice_index marks.old.idle r)
        (if has_bit routers r then 2 ^ (links + number_in vc.now r) else 0) }
    ensures kept { ChangesIdle marks.old marks.new }
{
    let mut rest = routers;
    while rest != 0 {
        let router = least(rest);
        marks.add_idle(router, 1 << (links + vc.number(router)) as u32);
        rest = but_lowest(rest);
    }
}
