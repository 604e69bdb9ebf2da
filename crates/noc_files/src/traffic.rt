//! Traffic files.

ghost use Rattle.std.specs.Prelude.{◌≡◌, List, Ok};
ghost use Rattle.noc_files.specs.Prelude.{fields_of, Each, Gives, IsReadAs};
ghost use Rattle.noc_packet.specs.declared.packet.Packet.{Packet as PacketValue};
ghost use Rattle.noc_files.specs.Traffic.{packet_of, traffic_of, traffic_text, IsTraffic, IsTrafficFault, IsWritablePacket};

use crate::rows::{number_in, want_fields};
use crate::sheet::read_sheet;
use csv::ByteRecord;
use noc_bytes::InputFault;
use noc_packet::Packet;
use std::alloc::Global;

static HEADER: [&str; 5] = ["source", "destination", "class", "length", "due"];

// The packet of a row.
#[tactic(auto, unfolding(crate::specs::Traffic::packet_of))]
fn packet_in(row: &ByteRecord, index: usize) -> Result<Packet, InputFault>
    ensures { result ≡ packet_of index (fields_of row.now) }
{
    want_fields(row, index, 5)?;
    let source = number_in(row, index, 0)?;
    let destination = number_in(row, index, 1)?;
    let class = number_in(row, index, 2)?;
    let length = number_in(row, index, 3)?;
    let due = number_in(row, index, 4)?;
    Ok(Packet {
        source,
        destination,
        class,
        length,
        due,
    })
}

/// The packets of a traffic file, or its first fault.
pub fn read_traffic(alloc: Global, text: &[u8]) -> Result<Vec<Packet>, InputFault>
    ensures { Gives (λ v. v.items) result (traffic_of text.now) }
{
    read_sheet(alloc, text, &HEADER, packet_in)
}

/// A text is read as these packets exactly where its first row is the header and the rows below it
/// are five numerals each, which write them.
///
/// It is refused with this fault exactly where it is the first one. Either there is no header, or
/// the fault is that of the first row that is no packet. Such a row has not five fields, or has
/// five, of which this is the first that is no numeral.
pub fn traffic_is_read_exactly()
    ensures { IsReadAs IsTraffic IsTrafficFault traffic_of }
{}

/// The plainest traffic file of some packets, a header and a line of five numbers each, is read
/// back as these packets, where the numbers are at most 4294967295.
pub fn written_traffic_is_read_back()
    ensures { (packets : List PacketValue) → Each IsWritablePacket packets
        → traffic_of (traffic_text packets) ≡ Ok packets }
{}
