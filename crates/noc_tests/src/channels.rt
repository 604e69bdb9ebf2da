//! One packet through a channel: an output channel from its head to the last credit, an input
//! channel from its head to its tail.

ghost use Rattle.std.specs.Prelude.{◌≡◌, ◌<◌, ◌∷◌, [], false, length};

use crate::networks::line;
use noc_packet::{ChannelSet, Flit, Memory};
use noc_ring::Bank;
use noc_route::Relation;
use noc_vc::{InputChannel, InputState, Landing, OutputChannel, OutputState};
use std::alloc::Global;

// Whether an output channel is in this state and has so many credits.
fn is_output(channel: &OutputChannel, state: OutputState, credit: Option<usize>) -> bool {
    channel.state() == state && channel.credit() == credit
}

// Whether a link channel of two credits drains until its last credit is back, and takes no other.
fn drains() -> bool {
    let mut channel = OutputChannel::link(2);
    channel.hold(4, 7);
    let owned = is_output(&channel, OutputState::Owned(4, 7), Some(2));
    channel.spend(false);
    channel.spend(true);
    let none = is_output(&channel, OutputState::Draining, Some(0));
    let first = channel.credit_back().is_ok();
    let one = is_output(&channel, OutputState::Draining, Some(1));
    let last = channel.credit_back().is_ok();
    let idle = is_output(&channel, OutputState::Idle, Some(2));
    let another = channel.credit_back().is_ok();
    let stays = is_output(&channel, OutputState::Idle, Some(2));
    owned && none && first && one && last && idle && !another && stays
}

#[test]
fn a_link_channel_drains_until_its_last_credit_is_back(rt: HostRuntime) {
    assert!(rt; drains());
}

// Whether an ejection channel takes no credit, and is idle when it is released.
fn is_idle_at_once() -> bool {
    let mut channel = OutputChannel::ejection();
    channel.hold(0, 3);
    let taken = channel.credit_back().is_ok();
    let credit = channel.credit();
    channel.release();
    !taken && credit.is_none() && channel.state() == OutputState::Idle
}

#[test]
fn an_ejection_channel_is_idle_at_once_and_takes_no_credit(rt: HostRuntime) {
    assert!(rt; is_idle_at_once());
}

// A flit of packet 7, which has three flits and goes to node 1.
fn flit(index: u8) -> Flit {
    Flit {
        packet: 7,
        index,
        last: index == 2,
        dst: 1,
        class: 0,
    }
}

// Whether an input channel is in this state and has this packet.
fn is_input(channel: &InputChannel, state: InputState, packet: Option<u32>) -> bool {
    channel.state() == state && channel.packet() == packet
}

// Whether a flit lands on the channel that arrives at router 1 from router 0.
fn land(channel: &mut InputChannel, bank: &mut Bank, relation: &Relation, index: u8) -> bool
    requires ring { 0 < length bank.old.rings }
    requires grid { relation.now.grid ≡ record { wraps = false; radix = 2 ∷ [] } }
    requires vcs { relation.now.vcs ≡ 1 }
    ensures { length bank.new.rings ≡ length bank.old.rings }
{
    let landing = Landing {
        relation,
        router: 1,
        port: 1,
        vc: 0,
    };
    channel.land(bank, 0, &landing, flit(index)).is_ok()
}

// Routes the packet of a channel to output channel 2 alone, if it is idle and has one.
fn route(channel: &mut InputChannel) -> bool {
    let InputState::Idle = channel.state() else {
        return false;
    };
    if channel.packet().is_none() {
        return false;
    }
    channel.route(ChannelSet::empty().with(2));
    true
}

// Grants the output channel to a channel, if it waits.
fn grant(channel: &mut InputChannel) -> bool {
    let InputState::Waiting(_) = channel.state() else {
        return false;
    };
    channel.grant(2);
    true
}

// Puts a flit from the source into the buffer of a channel, if there is room.
fn inject(channel: &mut InputChannel, bank: &mut Bank, index: u8) -> bool
    requires { 0 < length bank.old.rings }
    ensures { length bank.new.rings ≡ length bank.old.rings }
{
    if bank.is_full(0) {
        return false;
    }
    channel.inject(bank, 0, flit(index));
    true
}

// Whether the first flit of a channel is this one. It is sent, if the channel is active and has one.
fn sends(channel: &mut InputChannel, bank: &mut Bank, index: u8) -> bool
    requires { 0 < length bank.old.rings }
    ensures { length bank.new.rings ≡ length bank.old.rings }
{
    let InputState::Active(_) = channel.state() else {
        return false;
    };
    bank.len(0) > 0 && channel.send(bank, 0) == flit(index)
}

// Whether it takes a head, and none behind it until that is routed; then what follows, as far as
// there is room.
fn takes_one_packet(channel: &mut InputChannel, bank: &mut Bank, line: &Relation) -> bool
    requires ring { 0 < length bank.old.rings }
    requires grid { line.now.grid ≡ record { wraps = false; radix = 2 ∷ [] } }
    requires vcs { line.now.vcs ≡ 1 }
{
    let without_head = land(channel, bank, line, 1);
    let packet = channel.packet();
    let head = land(channel, bank, line, 0);
    let arrived = is_input(channel, InputState::Idle, Some(7));
    let before_route = land(channel, bank, line, 1);
    let routed = route(channel);
    let out_of_order = land(channel, bank, line, 2);
    let body = land(channel, bank, line, 1);
    let beyond_room = land(channel, bank, line, 2);
    let refused = without_head || before_route || out_of_order || beyond_room;
    let taken = head && arrived && routed && body;
    packet.is_none() && !refused && taken && bank.len(0) == 2
}

// Whether a channel of a line of two with room for two flits does so.
fn takes_one_on_a_line(alloc: Global) -> bool {
    let Some(line) = line(alloc, 2) else {
        return false;
    };
    let Ok(mut bank) = Bank::new(alloc, 1, 2) else {
        return false;
    };
    let takes_one = takes_one_packet(&mut InputChannel::new(), &mut bank, &line);
    drop(bank);
    drop(line);
    takes_one
}

#[test]
fn an_input_channel_takes_one_packet(rt: HostRuntime) {
    assert!(rt; takes_one_on_a_line(rt.alloc()));
}

// Whether the packet of a source goes on flit by flit, and with its tail the channel is idle and
// has no packet.
fn is_free_behind_its_tail(channel: &mut InputChannel, bank: &mut Bank) -> bool
    requires { 0 < length bank.old.rings }
{
    let started = inject(channel, bank, 0);
    let routed = route(channel);
    let waiting = InputState::Waiting(ChannelSet::empty().with(2));
    let waits = is_input(channel, waiting, Some(7));
    let granted = grant(channel);
    let head = sends(channel, bank, 0);
    let holds = is_input(channel, InputState::Active(2), Some(7));
    let followed = inject(channel, bank, 1);
    let ended = inject(channel, bank, 2);
    let body = sends(channel, bank, 1);
    let still_holds = is_input(channel, InputState::Active(2), Some(7));
    let tail = sends(channel, bank, 2);
    let injected = started && followed && ended;
    let sent = granted && head && body && tail;
    let held = routed && waits && holds && still_holds;
    injected && sent && held && is_input(channel, InputState::Idle, None)
}

#[test]
fn an_input_channel_is_free_behind_its_tail(rt: HostRuntime) {
    let is_free = match Bank::new(rt.alloc(), 1, 2) {
        Ok(mut bank) => is_free_behind_its_tail(&mut InputChannel::new(), &mut bank),
        Err(Memory) => false,
    };
    assert!(rt; is_free);
}
