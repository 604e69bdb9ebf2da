//! What the routers of a block keep of their channels, which is read and written one by one.

ghost use Rattle.std.specs.Prelude.{◌≡◌, ◌<◌, ◌^◌, ℕ, nat_eq, not, bit_or, slice_index, if◌then◌else◌};
ghost use Rattle.noc_columns.specs.Wants.{asks_of};
ghost use Rattle.noc_columns.specs.Prelude.{CHANNELS, ROUTERS, has_bit, one_if};

use crate::sets::CHANNELS;
use crate::words::{ROUTERS, with_router};

/// How many words the requests of a router take.
pub const REQUESTS: usize = CHANNELS + 1;

/// What the routers of a block keep of their channels.
#[derive(Drop)]
pub struct Marks {
    /// By router, the input channels that wait for an output channel.
    pub waiting: [u64; ROUTERS],
    /// By router, the output channels that these want, and maybe more.
    pub wanted: [u64; ROUTERS],
    /// By router, the idle output channels.
    pub idle: [u64; ROUTERS],
    /// The routers in which an idle output channel is wanted.
    pub asking: u64,
    /// By router and waiting input channel, the output channels that it may take.
    pub sets: [[u64; CHANNELS]; ROUTERS],
    /// By router and output channel, the input channels at or after the pointer of its arbiter.
    pub turns: [[u64; CHANNELS]; ROUTERS],
    /// By output channel, the input channels of a router that ask for it. None is left from one
    /// router to the next. Behind them stand those that ask for none.
    pub requests: [u64; REQUESTS],
    ghost unasked: { (o : ℕ) → o < CHANNELS → slice_index requests o ≡ 0 },
    ghost asks: { (r : ℕ) → r < ROUTERS → has_bit asking r
        ≡ not (nat_eq (asks_of (slice_index waiting r) (slice_index wanted r) (slice_index idle r))
        0) },
    ghost fit: { (r : ℕ) → r < ROUTERS → slice_index wanted r < 2 ^ CHANNELS },
}

impl Marks {
    /// Writes which input channels of a router wait, which output channels these want, and which
    /// are idle.
    #[inline(always)]
    pub fn put(&mut self, router: usize, waiting: u64, wanted: u64, idle: u64)
        requires { router < ROUTERS }
        ensures waiting { (r : ℕ) → slice_index self.new.waiting r
            ≡ (if nat_eq r router then waiting else slice_index self.old.waiting r) }
        ensures wanted { (r : ℕ) → slice_index self.new.wanted r
            ≡ (if nat_eq r router then wanted else slice_index self.old.wanted r) }
        ensures idle { (r : ℕ) → slice_index self.new.idle r
            ≡ (if nat_eq r router then idle else slice_index self.old.idle r) }
        ensures sets { self.new.sets ≡ self.old.sets }
        ensures turns { self.new.turns ≡ self.old.turns }
    {
        let asks = asks(waiting, wanted, idle);
        self.asking = with_router(self.asking, router, asks != 0);
        self.waiting[router] = waiting;
        self.wanted[router] = wanted;
        self.idle[router] = idle;
    }

    /// These output channels of a router are idle too.
    #[inline(always)]
    pub fn add_idle(&mut self, router: usize, channels: u64)
        requires { router < ROUTERS }
        ensures idle { (r : ℕ) → slice_index self.new.idle r
            ≡ (if nat_eq r router
            then bit_or (slice_index self.old.idle r) channels
            else slice_index self.old.idle r) }
        ensures waiting { self.new.waiting ≡ self.old.waiting }
        ensures wanted { self.new.wanted ≡ self.old.wanted }
        ensures sets { self.new.sets ≡ self.old.sets }
        ensures turns { self.new.turns ≡ self.old.turns }
    {
        let idle = self.idle[router] | channels;
        let asks = asks(self.waiting[router], self.wanted[router], idle);
        self.asking = self.asking | asks << router as u32;
        self.idle[router] = idle;
    }

    /// An input channel of a router waits too, and these output channels are wanted too.
    #[inline(always)]
    pub fn add_waiting(&mut self, router: usize, channel: usize, wanted: u64)
        requires router { router < ROUTERS }
        requires channel { channel < CHANNELS }
        ensures waiting { (r : ℕ) → slice_index self.new.waiting r
            ≡ (if nat_eq r router
            then bit_or (slice_index self.old.waiting r) (2 ^ channel)
            else slice_index self.old.waiting r) }
        ensures wanted { (r : ℕ) → slice_index self.new.wanted r
            ≡ (if nat_eq r router
            then bit_or (slice_index self.old.wanted r) wanted
            else slice_index self.old.wanted r) }
        ensures idle { self.new.idle ≡ self.old.idle }
        ensures sets { self.new.sets ≡ self.old.sets }
        ensures turns { self.new.turns ≡ self.old.turns }
    {
        let waiting = self.waiting[router] | 1 << channel as u32;
        let wanted = self.wanted[router] | wanted;
        let asks = asks(waiting, wanted, self.idle[router]);
        self.asking = self.asking | asks << router as u32;
        self.waiting[router] = waiting;
        self.wanted[router] = wanted;
    }
}

// 1 where a channel waits and an idle output channel is wanted, and else 0. (Both are looked at,
// so that the processor has nothing to guess.)
#[inline(always)]
fn asks(waiting: u64, wanted: u64, idle: u64) -> u64
    ensures { result ≡ one_if (not (nat_eq (asks_of waiting wanted idle) 0)) }
{
    u64::from(waiting != 0) & u64::from(wanted & idle != 0)
}
