//! Packets that callers meet, flit by flit.

ghost use Rattle.std.specs.Prelude.{◌<◌, ◌≤◌};
ghost use Rattle.noc_packet.specs.declared.limits.TheConstants.{MAX_LENGTH};

use noc_packet::{Flit, Packet, flit_of};

// Whether this flit of a packet of so many flits, whose number is 19,999, is the last one or not,
// and says where it goes.
fn is_flit(length: u32, index: u8, last: bool) -> bool
    requires index { index < length }
    requires length { length ≤ MAX_LENGTH }
{
    let packet = Packet {
        source: 0,
        destination: 255,
        class: 3,
        length,
        due: 1_000_000,
    };
    let flit = Flit {
        packet: 19_999,
        index,
        last,
        dst: 255,
        class: 3,
    };
    flit_of(&packet, 19_999, index as usize) == flit
}

#[test]
fn a_packet_has_a_head_a_body_and_a_tail(rt: HostRuntime) {
    assert!(rt; is_flit(3, 0, false) && is_flit(3, 1, false) && is_flit(3, 2, true));
}

#[test]
fn the_one_flit_of_a_short_packet_is_head_and_tail(rt: HostRuntime) {
    assert!(rt; is_flit(1, 0, true));
}
