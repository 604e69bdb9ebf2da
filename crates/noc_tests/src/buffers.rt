//! Banks that go to a thread and come back.
ghost use Rattle.std.specs.Prelude.{◌≡◌, ◌<◌, length};

use noc_packet::{Flit, Memory};
use noc_ring::Bank;
use std::thread;

fn flit(packet: u32) -> Flit {
    Flit {
        packet,
        index: 63,
        last: true,
        dst: 255,
        class: 3,
    }
}

// Puts a flit behind the others of the first ring, if there is room.
fn put(bank: &mut Bank, flit: Flit) -> bool
    requires { 0 < length bank.old.rings }
    ensures { length bank.new.rings ≡ length bank.old.rings }
{
    if bank.is_full(0) {
        return false;
    }
    bank.push(0, flit);
    true
}

// Takes the first flit of the first ring, if there is one.
fn take(bank: &mut Bank) -> Option<Flit>
    requires { 0 < length bank.old.rings }
    ensures { length bank.new.rings ≡ length bank.old.rings }
{
    if bank.len(0) == 0 {
        return None;
    }
    Some(bank.pop(0))
}

// The first flit of a bank's first ring makes way for another one.
fn replaced(mut bank: Bank, flit: Flit) -> Bank
    requires { 0 < length bank.rings }
    ensures { length result.rings ≡ length bank.rings }
{
    let _first = take(&mut bank);
    let _is_in = put(&mut bank, flit);
    bank
}

// Whether this is the first flit of the first ring. It is taken.
fn gives(bank: &mut Bank, packet: u32) -> bool
    requires { 0 < length bank.old.rings }
    ensures { length bank.new.rings ≡ length bank.old.rings }
{
    take(bank) == Some(flit(packet))
}

// Puts the flits of packets 1 and 2 into one bank and that of packet 4 into the other, if there is
// room.
fn fill(one: &mut Bank, other: &mut Bank) -> bool
    requires one { 0 < length one.old.rings }
    requires other { 0 < length other.old.rings }
    ensures one { length one.new.rings ≡ length one.old.rings }
    ensures other { length other.new.rings ≡ length other.old.rings }
{
    let first = put(one, flit(1));
    let second = put(one, flit(2));
    let third = put(other, flit(4));
    first && second && third
}

// Whether one bank has the flits of packets 2 and 3, and the other that of packet 5. They are taken.
fn give(one: &mut Bank, other: &mut Bank) -> bool
    requires one { 0 < length one.old.rings }
    requires other { 0 < length other.old.rings }
{
    let second = gives(one, 2);
    let third = gives(one, 3);
    let fifth = gives(other, 5);
    second && third && fifth && one.front(0).is_none() && other.front(0).is_none()
}

#[test]
fn banks_go_to_a_thread_and_come_back_with_their_flits(rt: HostRuntime) -> Result<(), Memory> {
    let mut one = Bank::new(rt.alloc(), 2, 2)?;
    let mut other = Bank::new(rt.alloc(), 1, 1)?;
    let are_filled = fill(&mut one, &mut other);
    let (mut one, mut other) = thread::join(
        &rt,
        move || replaced(one, flit(3)),
        move || replaced(other, flit(5)),
    );
    let are_right = are_filled && give(&mut one, &mut other);
    drop(one);
    drop(other);
    assert!(rt; are_right);
    Ok(())
}
