//! Input virtual channels (Dally and Towles, chapter 16).

ghost use Rattle.std.specs.Prelude.{◌≡◌, ◌<◌, ◌∷◌, IsTrue, IsSome, length, is_ok, if◌then◌else◌};
ghost use Rattle.noc_topo.specs.Shape.{nodes, ports};
ghost use Rattle.noc_ring.specs.Buffers.{buffer_at, buffers_after_push, buffers_after_pop};
ghost use Rattle.noc_vc.specs.Input.{idle_input, is_waiting, is_active, next_of, is_expected, may_begin, fits, input_after_land, input_after_route, input_after_grant, input_after_send, IsInput};

use crate::misfit::Misfit;
use noc_packet::{ChannelSet, Flit, MAX_LENGTH};
use noc_ring::Bank;
use noc_route::Relation;
use std::marker::Model;

/// How far an input channel is with its packet.
#[derive(Clone, Copy, Debug, PartialEq, Eq)]
pub enum InputState {
    /// It has no packet, or a head that is not routed yet.
    Idle,
    /// Its packet waits for one of these output channels.
    Waiting(ChannelSet),
    /// Its packet owns the output channel with this index.
    Active(usize),
}

// The flit that an input channel expects next.
#[derive(Clone, Copy, Debug)]
struct Awaited {
    packet: u32,
    dst: u16,
    index: u16,
    class: u8,
}

/// An input virtual channel of a router. Its flits are in a ring of the router's bank.
#[derive(Clone, Copy, Debug)]
pub struct InputChannel {
    state: InputState,
    packet: Option<u32>,
    awaited: Option<Awaited>,
}

impl Model for InputChannel {
    ghost use Rattle.noc_vc.specs.Input.{Input, IsInput};

    ghost Value = { Input };

    ghost view = { λ c. record { phase = c.state; packet = c.packet; awaited = c.awaited } };

    ghost invariant = { λ c. IsInput
        (record { phase = c.state; packet = c.packet; awaited = c.awaited }) };

    ghost inverse = { λ input. record
        { state = input.phase; packet = input.packet; awaited = input.awaited } };
}

/// Where a flit lands: an input channel of a router, and the relation that permits it to go on.
#[derive(Clone, Copy)]
pub struct Landing<'a> {
    /// The relation of the network.
    pub relation: &'a Relation,
    /// The router.
    pub router: usize,
    /// The input port.
    pub port: usize,
    /// The virtual channel of that port.
    pub vc: usize,
}

// Whether a flit is a head that may begin where it lands.
fn may_begin(landing: &Landing<'_>, flit: &Flit) -> bool
    requires router { landing.now.router < nodes landing.now.relation.now.grid }
    requires port { landing.now.port < ports landing.now.relation.now.grid }
    requires vc { landing.now.vc < landing.now.relation.now.vcs }
    ensures { result ≡ may_begin landing.now.relation.now landing.now.router landing.now.port
        landing.now.vc flit.now }
{
    let relation = landing.relation;
    let class = flit.class as usize;
    let dst = flit.dst as usize;
    flit.index == 0
        && dst < relation.shape().nodes()
        && class < relation.classes()
        && !relation
            .permitted(class, landing.router, landing.port, landing.vc, dst)
            .is_empty()
}

// The flit behind a flit in its packet; None behind the tail.
fn next_of(flit: &Flit) -> Option<Awaited>
    ensures { result ≡ next_of flit.now }
{
    if flit.last {
        return None;
    }
    Some(Awaited {
        packet: flit.packet,
        dst: flit.dst,
        index: flit.index as u16 + 1,
        class: flit.class,
    })
}

impl InputChannel {
    /// An idle channel with no packet.
    pub fn new() -> InputChannel
        ensures { result ≡ idle_input }
    {
        InputChannel {
            state: InputState::Idle,
            packet: None,
            awaited: None,
        }
    }

    /// The number of the packet whose head has landed, until its tail has been sent.
    pub fn packet(&self) -> Option<u32>
        ensures value { result ≡ self.now.packet }
        ensures sound { IsInput self.now }
    {
        self.packet
    }

    /// How far the channel is with its packet.
    pub fn state(&self) -> InputState
        ensures value { result ≡ self.now.phase }
        ensures sound { IsInput self.now }
    {
        self.state
    }

    // Whether the flit is the one that this channel expects next.
    fn expects(&self, bank: &Bank, ring: usize, landing: &Landing<'_>, flit: &Flit) -> bool
        requires ring { ring < length bank.now.rings }
        requires router { landing.now.router < nodes landing.now.relation.now.grid }
        requires port { landing.now.port < ports landing.now.relation.now.grid }
        requires vc { landing.now.vc < landing.now.relation.now.vcs }
        ensures { result ≡ is_expected landing.now.relation.now landing.now.router landing.now.port
            landing.now.vc (buffer_at bank.now ring) self.now flit.now self.now.phase }
    {
        if let InputState::Idle = self.state {
            return bank.len(ring) == 0 && may_begin(landing, flit);
        }
        match &self.awaited {
            Some(awaited) => {
                flit.packet == awaited.packet
                    && flit.index as u16 == awaited.index
                    && flit.dst == awaited.dst
                    && flit.class == awaited.class
                    && (flit.index as u32) < MAX_LENGTH
            }
            None => false,
        }
    }

    /// Puts a flit of the node's own source into the ring, which is not full. No test is made,
    /// since a source gives the flits of a packet in order.
    pub fn inject(&mut self, bank: &mut Bank, ring: usize, flit: Flit)
        requires ring { ring < length bank.old.rings }
        requires room { length (buffer_at bank.old ring) < bank.old.capacity }
        ensures channel { self.new ≡ input_after_land self.old flit }
        ensures bank { bank.new ≡ buffers_after_push bank.old ring flit }
    {
        bank.push(ring, flit);
        self.begin(&flit);
    }

    // A flit has landed, whichever it is.
    fn begin(&mut self, flit: &Flit)
        ensures { self.new ≡ input_after_land self.old flit.now }
    {
        self.packet = Some(flit.packet);
        self.awaited = next_of(flit);
    }

    /// A flit comes to this channel, which `landing` names and whose flits are in this ring of the
    /// bank. Where the ring is not full and the flit is the one that is expected, it lands. Any
    /// other flit is a misfit and changes nothing.
    ///
    /// An idle channel with an empty ring expects a head of any packet whose destination and class
    /// exist and for which the relation permits an output channel here. Every other channel expects
    /// the next flit of its packet, up to the tail, and an idle channel expects none until its head
    /// is routed (Dally and Towles, chapter 16).
    pub fn land(
        &mut self,
        bank: &mut Bank,
        ring: usize,
        landing: &Landing<'_>,
        flit: Flit,
    ) -> Result<(), Misfit>
        requires ring { ring < length bank.old.rings }
        requires router { landing.now.router < nodes landing.now.relation.now.grid }
        requires port { landing.now.port < ports landing.now.relation.now.grid }
        requires vc { landing.now.vc < landing.now.relation.now.vcs }
        ensures fits { is_ok result ≡ fits landing.now.relation.now landing.now.router
            landing.now.port landing.now.vc bank.old.capacity (buffer_at bank.old ring)
            self.old flit }
        ensures channel { self.new
            ≡ (if is_ok result then input_after_land self.old flit else self.old) }
        ensures bank { bank.new
            ≡ (if is_ok result then buffers_after_push bank.old ring flit else bank.old) }
    {
        if bank.is_full(ring) || !self.expects(bank, ring, landing, &flit) {
            return Err(Misfit);
        }
        bank.push(ring, flit);
        self.begin(&flit);
        Ok(())
    }

    /// The head that has landed in an idle channel waits for one of the
    /// output channels of this set.
    pub fn route(&mut self, set: ChannelSet)
        requires idle { self.old.phase ≡ InputState.Idle }
        requires head { IsSome self.old.packet }
        ensures { self.new ≡ input_after_route self.old set }
    {
        self.state = InputState::Waiting(set);
    }

    /// The waiting packet owns the output channel with this index.
    pub fn grant(&mut self, output: usize)
        requires { IsTrue (is_waiting self.old.phase) }
        ensures { self.new ≡ input_after_grant self.old output }
    {
        self.state = InputState::Active(output);
    }

    /// Takes the first flit of an active channel's ring, which is not empty. After the tail the
    /// channel is idle and has no packet.
    pub fn send(&mut self, bank: &mut Bank, ring: usize) -> Flit
        requires active { IsTrue (is_active self.old.phase) }
        requires ring { ring < length bank.old.rings }
        requires some { 0 < length (buffer_at bank.old ring) }
        ensures first { buffer_at bank.old ring ≡ result ∷ buffer_at bank.new ring }
        ensures channel { self.new ≡ input_after_send self.old result }
        ensures bank { bank.new ≡ buffers_after_pop bank.old ring }
    {
        let flit = bank.pop(ring);
        if flit.last {
            *self = InputChannel::new();
        }
        flit
    }
}
