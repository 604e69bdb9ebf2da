//! What output channels the input channels of a block are granted.

ghost use Rattle.std.specs.Prelude.{◌≡◌, ◌<◌, ◌≤◌, ◌+◌, ◌*◌, ◌&&◌, ◌||◌, ℕ, nat_eq};
ghost use Rattle.noc_columns.specs.Given.{AreAllGiven, AreGiven, IsNumberPut, MayPut};
ghost use Rattle.noc_columns.specs.Prelude.{CHANNELS, ROUTERS, has_bit, word};

use crate::sets::CHANNELS;
use crate::supply::{NUMBERS, Sends};
use crate::words::{ROUTERS, Words, clear_first, put_router};

/// An input channel of a router is granted an output channel.
#[derive(Clone, Copy)]
pub struct Grant {
    /// The router.
    pub router: u8,
    /// The index of the word of the input channel.
    pub index: u8,
    /// The port of the output channel.
    pub port: u8,
    /// Its virtual channel.
    pub vc: u8,
}

/// How many grants there are room for: one of each channel of each router.
pub const GRANTS: usize = ROUTERS * CHANNELS;

/// The input channels that are granted an output channel, and by which each sends.
#[derive(Drop)]
pub struct Grants {
    /// Those that are granted one.
    pub granted: Words,
    /// By which output channel each input channel sends.
    pub sends: Sends<Words>,
    /// How many are granted one.
    pub count: usize,
    /// What they are granted, one after the other.
    pub given: [Grant; GRANTS],
    ghost few: { count ≤ ROUTERS * CHANNELS },
    ghost right: { AreGiven given count granted sends },
    ghost all: { AreAllGiven given count granted },
}

impl Grants {
    /// Nothing is granted.
    #[inline(always)]
    pub fn clear(&mut self)
        ensures granted { (k : ℕ) → k < CHANNELS → word k self.new.granted ≡ 0 }
        ensures sends { self.new.sends ≡ self.old.sends }
        ensures count { self.new.count ≡ 0 }
    {
        clear_first::<CHANNELS>(&mut self.granted);
        self.count = 0;
    }

    // The channel of a router whose word has this index is granted the output channel of this port
    // and virtual channel.
    #[inline(always)]
    pub(crate) fn put(&mut self, index: usize, router: usize, port: usize, vc: usize)
        requires { MayPut index router port vc self.old.granted self.old.count }
        ensures granted { (k r : ℕ) → has_bit (word k self.new.granted) r
            ≡ ((nat_eq k index && nat_eq r router) || has_bit (word k self.old.granted) r) }
        ensures port { IsNumberPut index router port self.old.sends.port self.new.sends.port }
        ensures vc { IsNumberPut index router vc self.old.sends.vc self.new.sends.vc }
        ensures count { self.new.count ≡ self.old.count + 1 }
    {
        self.given[self.count] = Grant {
            router: router as u8,
            index: index as u8,
            port: port as u8,
            vc: vc as u8,
        };
        self.count += 1;
        put_router(&mut self.granted, index, router);
        self.sends.port.put_number(index, router, port);
        self.sends.vc.put_number(index, router, vc);
    }
}
