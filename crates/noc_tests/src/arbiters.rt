//! Rounds of arbiters and allocators that were worked out by hand.

ghost use Rattle.std.specs.Prelude.{◌≡◌, length};

use noc_alloc::{Arbiter, advance_channels, advance_switch, allocate_channels, allocate_switch};
use noc_packet::ChannelSet;

// Whether these are the pointers of three arbiters.
fn point_to(arbiters: &[Arbiter], pointers: [usize; 3]) -> bool
    requires { length arbiters.now ≡ 3 }
{
    arbiters[0].pointer() == pointers[0]
        && arbiters[1].pointer() == pointers[1]
        && arbiters[2].pointer() == pointers[2]
}

// Whether an arbiter of five goes on behind each one that wins, and stays where none does.
fn goes_round() -> bool {
    let asking = ChannelSet::empty().with(0).with(2).with(4);
    let mut arbiter = Arbiter::new(5);
    arbiter.advance(Some(2));
    let (third, fourth) = (arbiter.pointer(), arbiter.pick(asking));
    arbiter.advance(Some(4));
    let (first, again) = (arbiter.pointer(), arbiter.pick(asking));
    arbiter.advance(None);
    let (stays, nobody) = (arbiter.pointer(), arbiter.pick(ChannelSet::empty()));
    [third, first, stays] == [3, 0, 0] && [fourth, again, nobody] == [Some(4), Some(0), None]
}

#[test]
fn an_arbiter_goes_round(rt: HostRuntime) {
    assert!(rt; goes_round());
}

// Whether the largest arbiter begins again at 0.
fn begins_again() -> bool {
    let asking = ChannelSet::empty().with(0).with(54);
    let mut arbiter = Arbiter::new(56);
    arbiter.advance(Some(54));
    arbiter.size() == 56 && arbiter.pointer() == 55 && arbiter.pick(asking) == Some(0)
}

#[test]
fn the_largest_arbiter_begins_again_at_0(rt: HostRuntime) {
    assert!(rt; begins_again());
}

// Whether of three channels one that two ask for is granted in turn: the grants of a round, and
// the pointers of their arbiters after it.
fn are_granted_in_turn() -> bool {
    let asks = [None, Some(1), None, Some(1), Some(0)];
    let mut arbiters = [Arbiter::new(5); 3];
    let mut grants = [None; 3];
    allocate_channels(&asks, &arbiters, &mut grants);
    advance_channels(&grants, &mut arbiters);
    grants == [Some(4), Some(1), None] && point_to(&arbiters, [0, 2, 0])
}

#[test]
fn a_channel_that_two_ask_for_goes_round(rt: HostRuntime) {
    assert!(rt; are_granted_in_turn());
}

// Three ports of two virtual channels: (0, 0) and (1, 0) go to output port 2, and (0, 1) to output
// port 1. The pointers of the outputs before the round, the picks, the wins, and the pointers of
// the inputs and of the outputs after it.
fn keeps_its_pointer() -> bool {
    let ready = [Some(2), Some(1), Some(2), None, None, None];
    let mut inputs = [Arbiter::new(2); 3];
    let mut outputs = [Arbiter::new(3); 3];
    outputs[2].advance(Some(0));
    let before = point_to(&outputs, [0, 0, 1]);
    let mut picks = [None; 3];
    let mut wins = [None; 3];
    allocate_switch(&ready, 2, &inputs, &outputs, &mut picks, &mut wins);
    advance_switch(&picks, &wins, &mut inputs, &mut outputs);
    before
        && picks == [Some(0), Some(0), None]
        && wins == [None, None, Some(1)]
        && point_to(&inputs, [0, 1, 0])
        && point_to(&outputs, [0, 0, 2])
}

#[test]
fn an_input_port_that_loses_the_switch_keeps_its_pointer(rt: HostRuntime) {
    assert!(rt; keeps_its_pointer());
}
