//! How many flits are left of the packets that are injected.

ghost use Rattle.std.specs.Prelude.{◌≡◌, ◌-◌, ◌<◌, ◌&&◌, ℕ, true, false, nat_eq, if◌then◌else◌};
ghost use Rattle.noc_sets.specs.Planes.{any_from, lowered_by};
ghost use Rattle.noc_columns.specs.Sources.{left_in, planes_of};
ghost use Rattle.noc_columns.specs.Prelude.{has_bit, less};

use crate::planes::less;
use crate::words::{ROUTERS, with_router};
use noc_packet::MAX_LENGTH;

/// How many flits are left of the packet that each router injects, bit by bit: 63 at most, since
/// the first of 64 is injected where the packet begins.
#[derive(Drop)]
pub struct Left {
    /// The routers whose number has bit 0.
    pub ones: u64,
    /// The routers whose number has bit 1.
    pub twos: u64,
    /// The routers whose number has bit 2.
    pub fours: u64,
    /// The routers whose number has bit 3.
    pub eights: u64,
    /// The routers whose number has bit 4.
    pub sixteens: u64,
    /// The routers whose number has bit 5.
    pub thirty_twos: u64,
}

impl Left {
    /// In each of these routers a flit is injected, so one less is left. The answer is the routers
    /// in which it is the last.
    pub fn send(&mut self, went: u64) -> u64
        requires { (r : ℕ) → has_bit went r ≡ true → 0 < left_in self.old r }
        ensures sent { (r : ℕ) → left_in self.new r
            ≡ (if has_bit went r then left_in self.old r - 1 else left_in self.old r) }
        ensures last { (r : ℕ) → has_bit result r
            ≡ (has_bit went r && nat_eq (left_in self.old r) 1) }
    {
        let left = self.lowered(went);
        let last = less(went, left.some());
        *self = left;
        last
    }

    // One less for each router of a set. (0 becomes 63.)
    fn lowered(&self, set: u64) -> Left
        ensures { planes_of result ≡ lowered_by (planes_of self.now) set }
    {
        let twos = less(set, self.ones);
        let fours = less(twos, self.twos);
        let eights = less(fours, self.fours);
        let sixteens = less(eights, self.eights);
        let thirty_twos = less(sixteens, self.sixteens);
        Left {
            ones: self.ones ^ set,
            twos: self.twos ^ twos,
            fours: self.fours ^ fours,
            eights: self.eights ^ eights,
            sixteens: self.sixteens ^ sixteens,
            thirty_twos: self.thirty_twos ^ thirty_twos,
        }
    }

    // The routers whose number is not 0.
    fn some(&self) -> u64
        ensures { result ≡ any_from 0 (planes_of self.now) }
    {
        0 | self.ones | self.twos | self.fours | self.eights | self.sixteens | self.thirty_twos
    }

    /// So many are left in one router.
    pub fn put(&mut self, router: usize, number: u32)
        requires router { router < ROUTERS }
        requires number { number < MAX_LENGTH }
        ensures { (r : ℕ) → left_in self.new r
            ≡ (if nat_eq r router then number else left_in self.old r) }
    {
        let twos = number / 2;
        let fours = twos / 2;
        let eights = fours / 2;
        let sixteens = eights / 2;
        let thirty_twos = sixteens / 2;
        *self = Left {
            ones: with_router(self.ones, router, number % 2 == 1),
            twos: with_router(self.twos, router, twos % 2 == 1),
            fours: with_router(self.fours, router, fours % 2 == 1),
            eights: with_router(self.eights, router, eights % 2 == 1),
            sixteens: with_router(self.sixteens, router, sixteens % 2 == 1),
            thirty_twos: with_router(self.thirty_twos, router, thirty_twos % 2 == 1),
        };
    }
}
