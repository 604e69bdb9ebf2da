//! The packets that start at a node, in their order.

ghost use Rattle.std.specs.Prelude.{◌≡◌, ◌≤◌, ◌<◌, ◌+◌, All, Some, None, drop, if◌then◌else◌, is_none, true, vec_len};
ghost use Rattle.std.specs.Option.{ForSome};
ghost use Rattle.noc_router.specs.Queue.{queue_from, sending_from, next_flit_of, is_next_last, is_due_by};
ghost use Rattle.noc_view.specs.Start.{IsNumberedPacket};

use noc_packet::{Flit, Packet, flit_of};

/// The queue of a node: its packets by due time and then by number.
#[derive(Drop)]
pub(crate) struct Source {
    // The packet that is being injected or next in turn, with its number.
    front: Option<(u32, Packet)>,
    // The index of its next flit, and the local virtual channel of the flits after its head.
    index: u32,
    pub(crate) vc: Option<usize>,
    // All packets, of which the first `begun` are done or in front.
    packets: Vec<(u32, Packet)>,
    begun: usize,
    ghost starts: { All IsNumberedPacket packets.items },
    ghost in_front: { ForSome front (λ start. IsNumberedPacket start × (index < start.1.length)) },
    ghost at_head: { is_none vc ≡ true → index ≡ 0 },
    ghost all_begun: { is_none front ≡ true → vec_len packets ≤ begun },
}

impl Source {
    pub(crate) fn new(packets: Vec<(u32, Packet)>) -> Source
        requires { All IsNumberedPacket packets.items }
        ensures vc { result.vc ≡ None }
        ensures queue { queue_from result.front result.begun result.packets.items ≡ packets.items }
    {
        Source {
            front: packets.first().copied(),
            index: 0,
            vc: None,
            packets,
            begun: 1,
        }
    }

    // The next packet comes to the front.
    fn next_packet(&mut self)
        ensures vc { self.new.vc ≡ None }
        ensures queue { queue_from self.new.front self.new.begun self.new.packets.items
            ≡ drop self.old.begun self.old.packets.items }
    {
        self.index = 0;
        self.vc = None;
        self.front = self.packets.get(self.begun).copied();
        self.begun = self.begun.saturating_add(1);
    }

    // The next flit, if a packet is left.
    pub(crate) fn next_flit(&self) -> Option<Flit>
        ensures { result ≡ next_flit_of self.now.front self.now.index }
    {
        let (number, packet) = self.front?;
        Some(flit_of(&packet, number as usize, self.index as usize))
    }

    // Whether the packet in front is due by this cycle.
    pub(crate) fn is_due(&self, cycle: u64) -> bool
        ensures { result ≡ is_due_by self.now.front cycle }
    {
        match self.front {
            Some((_, packet)) => u64::from(packet.due) <= cycle,
            None => false,
        }
    }

    // The next flit has gone to a local virtual channel.
    pub(crate) fn sent(&mut self, vc: usize)
        ensures vc { ForSome self.new.vc (λ v. v ≡ vc) }
        ensures queue { queue_from self.new.front self.new.begun self.new.packets.items
            ≡ (if is_next_last self.old.front self.old.index
            then drop 1 (queue_from self.old.front self.old.begun self.old.packets.items)
            else queue_from self.old.front self.old.begun self.old.packets.items) }
        ensures sending { sending_from self.new.vc self.new.index
            ≡ (if is_next_last self.old.front self.old.index
            then None else Some (vc, self.old.index + 1)) }
    {
        match self.front {
            Some((_, packet)) if self.index + 1 < packet.length => {
                self.index += 1;
                self.vc = Some(vc);
            }
            _ => self.next_packet(),
        }
    }
}
