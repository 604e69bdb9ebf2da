//! How many tiles run a network, and for how long: a clock says what is faster.

ghost use Rattle.std.specs.Prelude.{◌≡◌, ◌<◌, ◌≤◌};
ghost use Rattle.noc_workers.specs.declared.pace.TheConstants.{LONGEST, LONGEST_REST};

use std::time::{Clock, Instant};

// How many nanoseconds of one thread are in the first stretch of tiles. Their processors come from
// elsewhere, so nothing is made of its time but where it is more than twice as long.
const WARMING: u64 = 1_000_000;

// How many times as many cycles the stretch after it has, of which the time counts. Threads end and
// begin anew between two stretches, so each that goes well makes the next one twice as long.
const JUDGED: u32 = 4;

// How many cycles a stretch has at most. A network that is cut into tiles is joined again after as
// many.
const LONGEST: u32 = 65_536;

// After how many nanoseconds by fewer tiles more are tried again: twice as many each time, until
// all tiles go well.
const REST: u64 = 64_000_000;

// After how many they are tried again at the latest. It is time and not cycles, since to try tiles
// takes some milliseconds, in which small networks run thousands of cycles.
const LONGEST_REST: u64 = 16 * REST;

// To cut and join tiles for fewer cycles costs more than it saves.
const FEW: u32 = 512;

// How many cycles one thread runs before it is looked again whether tiles pay.
const ALONE: u32 = 256;

/// How the next cycles of a run go. What a network shows after them does not depend on it.
#[derive(Drop)]
pub(crate) struct Pace {
    // How many workers there are.
    workers: usize,
    // By how many tiles they go at most.
    tiles: usize,
    // How many of them go by tiles.
    cycles: u32,
    // Whether tiles have run since one thread did, so that the time of their next stretch counts.
    is_warm: bool,
    // How many one thread runs before tiles do, so that it is known how long it takes now.
    first: u32,
    // How many nanoseconds have to go before more tiles are tried.
    rest: u64,
    // How many have to go after the next stretch in which one thread would be faster.
    next_rest: u64,
    // How many one thread took for a cycle when it ran last, and before that.
    last: u64,
    before: u64,
    ghost some: { 0 < cycles },
    ghost few: { cycles ≤ LONGEST },
    ghost short: { next_rest ≤ LONGEST_REST },
    ghost within: { tiles ≤ workers },
}

impl Pace {
    /// By all workers, but by no more than there are blocks. One thread begins, and runs twice as
    /// long as it does later, since a network is empty at first.
    pub(crate) fn new(workers: usize, blocks: usize) -> Pace
        ensures { result.workers ≤ workers }
    {
        let workers = workers.min(blocks);
        Pace {
            workers,
            tiles: workers,
            cycles: ALONE,
            is_warm: false,
            first: 4 * ALONE,
            rest: 0,
            next_rest: REST,
            last: 0,
            before: 0,
        }
    }

    /// By how many tiles so many cycles go at most.
    pub(crate) fn tiles(&self, most: u32) -> usize
        ensures alone { self.now.workers ≤ 1 → result ≤ 1 }
    {
        if most < FEW || self.first > 0 {
            1
        } else {
            self.tiles
        }
    }

    /// How many of at most so many cycles go by so many tiles before it is looked whether they pay.
    pub(crate) fn cycles(&self, tiles: usize, most: u32) -> u32
        requires { 0 < most }
        ensures some { 0 < result }
        ensures within { result ≤ most }
    {
        let cycles = if tiles > 1 { self.cycles } else { ALONE };
        cycles.min(most)
    }

    /// The time. With one worker it is not asked for.
    pub(crate) fn time(&self, clock: &impl Clock) -> Option<Instant> {
        if self.workers > 1 {
            Instant::now(clock).ok()
        } else {
            None
        }
    }

    /// So many cycles have gone by so many tiles, and took each so many nanoseconds. The answer is
    /// whether as many tiles go on.
    pub(crate) fn heed(&mut self, tiles: usize, cycles: u32, each: u64) -> bool
        ensures { self.new.workers ≡ self.old.workers }
    {
        let took = each.saturating_mul(u64::from(cycles));
        self.rest = self.rest.saturating_sub(took);
        let counts = tiles <= 1 || self.is_warm;
        let pays = if tiles > 1 {
            self.pays(tiles, each)
        } else {
            self.time_one(cycles, each);
            true
        };
        if pays && counts && self.rest == 0 && tiles == self.tiles && tiles < self.workers {
            self.tiles = tiles.saturating_mul(2).min(self.workers);
            return false;
        }
        pays
    }

    // One thread has run so many cycles, and took for each so many nanoseconds. Of two stretches
    // the faster counts: in the other one it may have waited for its processor.
    fn time_one(&mut self, cycles: u32, each: u64)
        ensures { self.new.workers ≡ self.old.workers }
    {
        self.first = self.first.saturating_sub(cycles);
        self.before = self.last;
        self.last = each;
        let stretch = WARMING / self.last.max(1);
        self.cycles = stretch.clamp(u64::from(ALONE), u64::from(LONGEST)) as u32;
        self.is_warm = false;
    }

    // So many tiles took for a cycle so many nanoseconds. The answer is whether they are as fast as
    // one thread. If not, half as many run next.
    fn pays(&mut self, tiles: usize, each: u64) -> bool
        ensures { self.new.workers ≡ self.old.workers }
    {
        self.first = 2 * ALONE;
        let alone = self.last.min(self.before);
        let most = if self.is_warm { 1 } else { 2 };
        if each > alone.saturating_mul(most) {
            self.tiles = (tiles / 2).min(self.workers);
            self.rest = self.next_rest;
            self.next_rest = (2 * self.next_rest).min(LONGEST_REST);
            return false;
        }
        let longer = if self.is_warm { 2 } else { JUDGED };
        self.cycles = (longer * self.cycles).min(LONGEST);
        if self.is_warm && tiles == self.workers {
            self.next_rest = REST;
        }
        self.is_warm = true;
        true
    }
}

/// How many nanoseconds each of so many cycles took from the one time to the other: none where a
/// clock could not be read.
pub(crate) fn each(begin: Option<Instant>, end: Option<Instant>, cycles: u32) -> u64 {
    let (Some(begin), Some(end)) = (begin, end) else {
        return 0;
    };
    let all = end.duration_since(begin).as_nanos();
    u64::try_from(all).unwrap_or(u64::MAX) / u64::from(cycles.max(1))
}

/// How many of so many cycles tiles run at most before they are joined.
pub(crate) fn together(most: u32) -> u32
    ensures some { 0 < most → 0 < result }
    ensures within { result ≤ most }
{
    most.min(LONGEST)
}
