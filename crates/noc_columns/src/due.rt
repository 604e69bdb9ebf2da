//! Which sources have a packet that is due.

ghost use Rattle.std.specs.Prelude.{◌≡◌, ◌≢◌, ◌<◌, ◌≤◌, ◌+◌, ◌&&◌, ◌||◌, ℕ, true, nat_eq, nat_le, slice_index, if◌then◌else◌};
ghost use Rattle.noc_columns.specs.Sources.{AreDue, AreKnown, come_in, known_until};
ghost use Rattle.noc_columns.specs.Prelude.{has_bit};

use crate::planes::less;
use crate::words::{ROUTERS, alone_if, with_router};

/// Later than each cycle.
pub const NEVER: u32 = 0xffff_ffff;

/// Of how many cycles it is known at most which packets come to be due.
pub const SOON: usize = 256;

/// When the next packet of each source of a block is due.
#[derive(Drop)]
pub struct Due {
    /// When that is, by router. Where there is none, it is later than each cycle.
    pub at: [u32; ROUTERS],
    /// The routers whose packet is due.
    pub ready: u64,
    /// When the first of the others is due.
    pub next: u32,
    /// By cycle, the routers whose packet comes to be due in it. (The places are gone around, and
    /// those of cycles that are past are left as they are.)
    pub soon: [u64; SOON],
    /// The first cycle of which that is not known.
    pub until: u32,
}

impl Due {
    /// It is looked up which packets are due in this cycle.
    pub fn look(&mut self, cycle: u32)
        ensures at { self.new.at ≡ self.old.at }
        ensures due { AreDue cycle self.new }
        ensures until { self.new.until ≡ known_until cycle }
    {
        self.keep_all(cycle);
        let mut ready = 0;
        let mut next = NEVER;
        for r in 0..ROUTERS {
            let when = self.at[r];
            ready = ready | alone_if(when <= cycle, r);
            next = next.min(if_later(cycle, when));
        }
        self.ready = ready;
        self.next = next;
    }

    /// This cycle comes. (As long as no other packet is due, nothing changes.)
    pub fn pass(&mut self, cycle: u32)
        ensures at { self.new.at ≡ self.old.at }
        ensures due { (before : ℕ) → before ≤ cycle → AreDue before self.old
            → AreDue cycle self.new }
    {
        if self.next <= cycle {
            if self.next < cycle || self.until <= cycle {
                self.look(cycle);
            } else {
                self.come(cycle);
            }
        }
    }

    // In this cycle the next packets come to be due, and it is known which.
    #[inline(always)]
    fn come(&mut self, cycle: u32)
        requires next { self.old.next ≡ cycle }
        requires known { cycle < self.old.until }
        ensures at { self.new.at ≡ self.old.at }
        ensures due { (before : ℕ) → before ≤ cycle → AreDue before self.old
            → AreDue cycle self.new }
    {
        let next = self.next_known(cycle);
        if next < self.until {
            self.ready = self.ready | self.soon[cycle as usize % SOON];
            self.next = next;
        } else {
            self.look(cycle);
        }
    }

    // The first cycle behind this one in which a packet comes to be due, of those that are known.
    #[inline(always)]
    fn next_known(&self, cycle: u32) -> u32
        requires { cycle < self.now.until }
        ensures none { (t : ℕ) → cycle < t → t < result → come_in self.now t ≡ 0 }
        ensures some { result < self.now.until → (cycle < result)
            × (r : ℕ) × (r < ROUTERS) × (has_bit (come_in self.now result) r ≡ true) }
    {
        let until = self.until;
        for following in cycle + 1..until {
            if self.soon[following as usize % SOON] != 0 {
                return following;
            }
        }
        until
    }

    // It is kept which packets come to be due in the cycles behind this one.
    fn keep_all(&mut self, cycle: u32)
        ensures rest { self.new
            ≡ record self.old { soon = self.new.soon; until = self.new.until } }
        ensures known { AreKnown cycle self.new }
        ensures until { self.new.until ≡ known_until cycle }
    {
        self.soon = [0; SOON];
        self.until = cycle.saturating_add(SOON as u32);
        for r in 0..ROUTERS {
            self.keep(cycle, r, self.at[r]);
        }
    }

    // It is kept that the packet of a router is due in a cycle, if that is one of the cycles
    // behind this one that are known.
    #[inline(always)]
    fn keep(&mut self, cycle: u32, router: usize, when: u32)
        requires { router < ROUTERS }
        ensures rest { self.new ≡ record self.old { soon = self.new.soon } }
        ensures soon { self.old.until ≤ cycle + SOON → (r t : ℕ) → cycle < t
            → t < self.old.until → has_bit (come_in self.new t) r
            ≡ ((nat_eq t when && nat_eq r router) || has_bit (come_in self.old t) r) }
    {
        if cycle < when && when < self.until {
            let place = when as usize % SOON;
            self.soon[place] = with_router(self.soon[place], router, true);
        }
    }

    /// In this cycle the source of a router goes on from a packet that was due to the next one,
    /// which is due then.
    pub fn put(&mut self, cycle: u32, router: usize, when: u32)
        requires { router < ROUTERS }
        ensures here { slice_index self.new.at router ≡ when }
        ensures others { (r : ℕ) → r ≢ router
            → slice_index self.new.at r ≡ slice_index self.old.at r }
        ensures due { slice_index self.old.at router ≤ cycle → AreDue cycle self.old
            → AreDue cycle self.new }
        ensures until { self.new.until ≡ self.old.until }
    {
        self.at[router] = when;
        self.ready = less(self.ready, alone_if(cycle < when, router));
        self.next = self.next.min(if_later(cycle, when));
        self.keep(cycle, router, when);
    }
}

// A time that is later than a cycle, and else one later than each cycle.
fn if_later(cycle: u32, when: u32) -> u32
    ensures { result ≡ (if nat_le when cycle then NEVER else when) }
{
    if when <= cycle { NEVER } else { when }
}
