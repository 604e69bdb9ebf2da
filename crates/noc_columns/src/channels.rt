//! The records of the channels of a block.

ghost use Rattle.std.specs.Prelude.{◌≡◌, ◌≢◌, ◌<◌, ℕ};
ghost use Rattle.noc_columns.specs.Channels.{AreInputs, decided_by, inputs_by, links_by, standing_by, verdicts_by};
ghost use Rattle.noc_columns.specs.Words.{word};

use crate::planes::Planes;
use crate::words::{WORDS, Words};

/// What the input channels are.
#[derive(Drop)]
pub struct Inputs<T> {
    /// Those that wait for an output channel.
    pub waiting: T,
    /// Those that own an output channel.
    pub active: T,
    /// Those that have the tail of their packet in their buffer.
    pub ended: T,
    /// By input port, those at or after its pointer.
    pub ahead: T,
    /// How many flits the buffer of each has.
    pub len: Planes<T>,
}

impl Inputs<Words> {
    /// The words of one channel.
    #[inline(always)]
    pub fn at(&self, index: usize) -> Inputs<u64>
        requires { index < WORDS }
        ensures { result ≡ inputs_by (word index) self.now }
    {
        Inputs {
            waiting: self.waiting[index],
            active: self.active[index],
            ended: self.ended[index],
            ahead: self.ahead[index],
            len: self.len.at(index),
        }
    }

    /// Writes the words of one channel.
    #[inline(always)]
    pub fn put(&mut self, index: usize, deep: bool, words: &Inputs<u64>)
        requires { index < WORDS }
        ensures here { AreInputs deep (inputs_by (word index) self.new) words.now }
        ensures others { (k : ℕ) → k ≢ index
            → inputs_by (word k) self.new ≡ inputs_by (word k) self.old }
    {
        self.waiting[index] = words.waiting;
        self.active[index] = words.active;
        self.ended[index] = words.ended;
        self.ahead[index] = words.ahead;
        self.len.put(index, deep, &words.len);
    }
}

/// What the output channels are.
#[derive(Drop)]
pub struct Outputs<T> {
    /// Those whose tail has gone, and that miss a credit.
    pub draining: T,
    /// How many credits each of those that lead to a link has.
    pub credit: Planes<T>,
}

/// What the links bring, and of the local channels what the source injects.
#[derive(Drop)]
pub struct Links<T> {
    /// Channels to which a flit comes.
    pub flits: T,
    /// Those of which it is a tail.
    pub tails: T,
    /// Channels to which a credit comes.
    pub credits: T,
}

impl Links<Words> {
    /// The words of one channel.
    #[inline(always)]
    pub fn at(&self, index: usize) -> Links<u64>
        requires { index < WORDS }
        ensures { result ≡ links_by (word index) self.now }
    {
        Links {
            flits: self.flits[index],
            tails: self.tails[index],
            credits: self.credits[index],
        }
    }
}

/// What the credits that come are to the output channels.
#[derive(Drop)]
pub struct Returned<T> {
    /// Those that have a credit now.
    pub some: T,
    /// Draining ones that have all their credits now.
    pub home: T,
}

/// What the input channels can do in the cycle.
#[derive(Drop)]
pub struct Standing<T> {
    /// Active ones whose output channel leads out of the network or has a credit.
    pub supplied: T,
    /// Idle ones with a flit, which is a head.
    pub heads: T,
    /// Active ones with a flit that are supplied.
    pub ready: T,
    /// Those with one flit, which is a tail.
    pub last: T,
}

impl Standing<Words> {
    /// The words of one channel.
    #[inline(always)]
    pub fn at(&self, index: usize) -> Standing<u64>
        requires { index < WORDS }
        ensures { result ≡ standing_by (word index) self.now }
    {
        Standing {
            supplied: self.supplied[index],
            heads: self.heads[index],
            ready: self.ready[index],
            last: self.last[index],
        }
    }

    /// Writes what one channel can do. Whether it is supplied stays.
    #[inline(always)]
    pub fn put(&mut self, index: usize, words: &Standing<u64>)
        requires { index < WORDS }
        ensures here { standing_by (word index) self.new
            ≡ record words.now { supplied = word index self.old.supplied } }
        ensures others { (k : ℕ) → k ≢ index
            → standing_by (word k) self.new ≡ standing_by (word k) self.old }
    {
        self.heads[index] = words.heads;
        self.ready[index] = words.ready;
        self.last[index] = words.last;
    }
}

/// What is decided of the input channels.
#[derive(Drop)]
pub struct Decided<T> {
    /// Of each input port the one that is first in turn.
    pub picked: T,
    /// Those after it in their port.
    pub past: T,
    /// All of each input port that sends.
    pub sends: T,
}

impl Decided<Words> {
    /// The words of one channel.
    #[inline(always)]
    pub fn at(&self, index: usize) -> Decided<u64>
        requires { index < WORDS }
        ensures { result ≡ decided_by (word index) self.now }
    {
        Decided {
            picked: self.picked[index],
            past: self.past[index],
            sends: self.sends[index],
        }
    }
}

/// What verdicts of a cycle follow from on input channels that own an output channel, with those
/// that are ready and those that are picked.
#[derive(Drop)]
pub struct Verdicts<T> {
    /// Those that own an output channel.
    pub active: T,
    /// NoCredit.
    pub no_credit: T,
    /// Moved.
    pub moved: T,
}

impl Verdicts<Words> {
    /// The words of one channel.
    #[inline(always)]
    pub fn at(&self, index: usize) -> Verdicts<u64>
        requires { index < WORDS }
        ensures { result ≡ verdicts_by (word index) self.now }
    {
        Verdicts {
            active: self.active[index],
            no_credit: self.no_credit[index],
            moved: self.moved[index],
        }
    }

    /// Writes the words of one channel.
    #[inline(always)]
    pub fn put(&mut self, index: usize, words: &Verdicts<u64>)
        requires { index < WORDS }
        ensures here { verdicts_by (word index) self.new ≡ words.now }
        ensures others { (k : ℕ) → k ≢ index
            → verdicts_by (word k) self.new ≡ verdicts_by (word k) self.old }
    {
        self.active[index] = words.active;
        self.no_credit[index] = words.no_credit;
        self.moved[index] = words.moved;
    }
}
