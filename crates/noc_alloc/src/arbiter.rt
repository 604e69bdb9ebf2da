//! A round-robin arbiter (Dally and Towles, chapter 18).

ghost use Rattle.std.specs.Prelude.{◌≡◌, ℕ, ◌<◌, ◌≤◌, true, IfSome};
ghost use Rattle.noc_packet.specs.Set.{has_bit};
ghost use Rattle.noc_alloc.specs.Arbiter.{first_in_turn, earlier, arbiter_after};

use noc_packet::{ChannelSet, INDICES};
use std::marker::Model;

/// An arbiter over 1 to 56 requesters, numbered from 0. The requester at its pointer comes first,
/// then those behind it, and then those from 0 on.
#[derive(Clone, Copy, Debug, PartialEq, Eq)]
pub struct Arbiter {
    size: u8,
    pointer: u8,
}

impl Model for Arbiter {
    ghost use Rattle.std.specs.Prelude.{◌<◌, ◌≤◌};
    ghost use Rattle.noc_packet.specs.declared.limits.TheConstants.{INDICES};
    ghost use Rattle.noc_alloc.specs.Arbiter.{RoundRobin};

    ghost Value = { RoundRobin };

    ghost view = { λ a. record { size = a.size; pointer = a.pointer } };

    ghost invariant = { λ a. (a.pointer < a.size) × (a.size ≤ INDICES) };

    ghost inverse = { λ t. record { size = t.size; pointer = t.pointer } };
}

impl Arbiter {
    /// An arbiter over so many requesters, 1 to 56, with its pointer at 0.
    pub fn new(size: usize) -> Arbiter
        requires some { 0 < size }
        requires few { size ≤ INDICES }
        ensures { result ≡ record { size = size; pointer = 0 } }
    {
        Arbiter {
            size: size as u8,
            pointer: 0,
        }
    }

    /// Over how many requesters it is: 1 to 56.
    pub fn size(&self) -> usize
        ensures value { result ≡ self.now.size }
        ensures few { result ≤ INDICES }
    {
        self.size as usize
    }

    /// The requester that comes first.
    pub fn pointer(&self) -> usize
        ensures value { result ≡ self.now.pointer }
        ensures within { result < self.now.size }
    {
        self.pointer as usize
    }

    /// The requester of the set that comes first. All members are below the size.
    pub fn pick(&self, asking: ChannelSet) -> Option<usize>
        requires { (k : ℕ) → has_bit asking k ≡ true → k < self.now.size }
        ensures { result ≡ first_in_turn self.now.size self.now.pointer (has_bit asking) }
    {
        let ahead = asking.from(self.pointer as usize);
        let first = if ahead.is_empty() { asking } else { ahead };
        first.least_common(&first)
    }

    /// The one that comes first of two: the first so far, if there is one, and a requester with a
    /// higher number. So requesters that are looked at by rising number leave the first of all.
    pub fn earlier(&self, held: Option<usize>, next: usize) -> usize
        ensures { result ≡ earlier self.now.pointer held next }
    {
        let pointer = self.pointer();
        match held {
            Some(held) if (pointer <= held) | (next < pointer) => held,
            _ => next,
        }
    }

    /// Moves the pointer to one past the winner, modulo the size. Without a winner it stays. The
    /// winner is below the size.
    pub fn advance(&mut self, winner: Option<usize>)
        requires { IfSome winner (λ w. w < self.old.size) }
        ensures { self.new ≡ arbiter_after self.old winner }
    {
        if let Some(winner) = winner {
            let next = winner as u8 + 1;
            self.pointer = if next == self.size { 0 } else { next };
        }
    }
}
