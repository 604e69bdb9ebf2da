//! Which active input channels are supplied: their output channel leads out of the network, or has
//! a credit.

ghost use Rattle.std.specs.Prelude.{◌≡◌, ◌⊎◌, ◌<◌, ◌≤◌, ◌+◌, ◌*◌, ◌&&◌, ℕ, false, not, nat_eq, nat_lt, [], ◌∷◌, if◌then◌else◌, slice_index};
ghost use Rattle.noc_columns.specs.Supply.{DoesNotDrain, NoneIsDry, TellFed, TellFedAmong, by_four, digits_by, is_fed, is_fed_among, is_fed_word, number_in};
ghost use Rattle.noc_columns.specs.Prelude.{IsWithin, Numbering, has_bit, port_at, set_of, word};

use crate::frame::Frame;
use crate::planes::less;
use crate::ports::{PORTS, RouterPorts};
use crate::words::{GROUP, ROUTERS, WORDS, Words, bit};
use noc_packet::MAX_CHANNELS;
use noc_topo::LINKS;

/// How many numbers three bits have: as many as there are ports, or virtual channels of one.
pub const NUMBERS: usize = 8;

/// A number of each channel, bit by bit.
#[derive(Drop)]
pub struct Digits<T> {
    /// The channels whose number has bit 0.
    pub ones: T,
    /// The channels whose number has bit 1.
    pub twos: T,
    /// The channels whose number has bit 2.
    pub fours: T,
}

impl Digits<Words> {
    /// The numbers of one channel.
    #[inline(always)]
    pub fn at(&self, index: usize) -> Digits<u64>
        requires { index < WORDS }
        ensures { result ≡ digits_by (word index) self.now }
    {
        Digits {
            ones: self.ones[index],
            twos: self.twos[index],
            fours: self.fours[index],
        }
    }

    /// Writes the number of a channel of one router.
    #[inline(always)]
    pub fn put_number(&mut self, index: usize, router: usize, number: usize)
        requires index { index < WORDS }
        requires router { router < ROUTERS }
        requires number { number < NUMBERS }
        ensures { (k r : ℕ) → number_in (digits_by (word k) self.new) r
            ≡ (if nat_eq k index && nat_eq r router
            then number
            else number_in (digits_by (word k) self.old) r) }
    {
        put_digit(&mut self.ones, index, router, ONES[number]);
        put_digit(&mut self.twos, index, router, TWOS[number]);
        put_digit(&mut self.fours, index, router, FOURS[number]);
    }
}

// By number, all routers where the number has bit 0, and else none; and so for bits 1 and 2.
const ONES: [u64; NUMBERS] = [0, ALL, 0, ALL, 0, ALL, 0, ALL];

const TWOS: [u64; NUMBERS] = [0, 0, ALL, ALL, 0, 0, ALL, ALL];

const FOURS: [u64; NUMBERS] = [0, 0, 0, 0, ALL, ALL, ALL, ALL];

// All routers of a word.
const ALL: u64 = u64::MAX;

// Has a router in the word with an index where it is in this digit.
#[inline(always)]
fn put_digit(words: &mut Words, index: usize, router: usize, digit: u64)
    requires index { index < WORDS }
    requires router { router < ROUTERS }
    ensures { (k r : ℕ) → has_bit (word k words.new) r
        ≡ (if nat_eq k index && nat_eq r router
        then has_bit digit r
        else has_bit (word k words.old) r) }
{
    words[index] = either(1 << router as u32, words[index], digit);
}

impl Digits<[u64; PORTS]> {
    /// The numbers of one port.
    #[inline(always)]
    pub fn of_port(&self, port: usize) -> Digits<u64>
        requires { port < PORTS }
        ensures { result ≡ digits_by (word port) self.now }
    {
        Digits {
            ones: self.ones[port],
            twos: self.twos[port],
            fours: self.fours[port],
        }
    }
}

impl Digits<u64> {
    /// The number of the channel of one router.
    #[inline(always)]
    pub fn number(&self, router: usize) -> usize
        requires { router < ROUTERS }
        ensures is { result ≡ number_in self.now router }
        ensures few { result < NUMBERS }
    {
        let ones = bit(self.ones, router);
        let twos = bit(self.twos, router);
        let fours = bit(self.fours, router);
        (ones + 2 * twos + 4 * fours) as usize
    }

    /// Those of a set that have this number.
    #[inline(always)]
    pub fn having(&self, number: usize, set: u64) -> u64
        requires { number < NUMBERS }
        ensures { (r : ℕ)
            → has_bit result r ≡ (has_bit set r && nat_eq (number_in self.now r) number) }
    {
        let ones = having_bit(number % 2 == 1, self.ones, set);
        let twos = having_bit(number / 2 % 2 == 1, self.twos, ones);
        having_bit(number / 2 / 2 % 2 == 1, self.fours, twos)
    }
}

// Those of a set that are in another one, or those that are not.
#[inline(always)]
fn having_bit(inside: bool, digit: u64, set: u64) -> u64
    ensures { (r : ℕ)
        → has_bit result r
        ≡ (has_bit set r && (if inside then has_bit digit r else not (has_bit digit r))) }
{
    if inside {
        set & digit
    } else {
        less(set, digit)
    }
}

/// By which output channel each active input channel sends.
#[derive(Drop)]
pub struct Sends<T> {
    /// The port of the output channel.
    pub port: Digits<T>,
    /// Its virtual channel.
    pub vc: Digits<T>,
}

/// Of each input channel it is told whether the output channel by which it sends has a credit,
/// where these output channels of the link ports have one, or leads out of the network. Of one
/// that sends by a channel that drains nothing is told, since nobody owns such a channel.
#[inline(always)]
pub fn look_up(
    frame: &Frame,
    ports: &RouterPorts,
    sends: &Sends<Words>,
    some: &Words,
    draining: &Words,
    supplied: &mut Words,
)
    requires { ports.now.links.first ≡ 0 }
    ensures { (n : Numbering) (r c : ℕ) → IsWithin (GROUP * frame.now.groups) n → c < n.size
        → r < ROUTERS
        → (let port = number_in (digits_by (set_of n r) sends.now.port) c in
        let vc = number_in (digits_by (set_of n r) sends.now.vc) c in
        port ≤ ports.now.links.width → vc < ports.now.links.vcs
        → DoesNotDrain ports.now.links.width
        (λ q. set_of (port_at ports.now.links q) r draining.now) port vc
        → has_bit (set_of n r supplied.new) c ≡ is_fed ports.now.links.width
        (λ q. set_of (port_at ports.now.links q) r some.now) port vc) }
{
    let links = &ports.links;
    if links.width == 2 {
        look_up_in::<2>(frame, links.vcs, sends, some, draining, supplied);
    } else if links.width == 4 {
        look_up_in::<4>(frame, links.vcs, sends, some, draining, supplied);
    } else {
        look_up_in::<6>(frame, links.vcs, sends, some, draining, supplied);
    }
}

// Looks up who has a credit, where it is known how many link ports there are. (Such numbers are
// const parameters, so that what is not needed is not worked out. With up to four virtual channels
// all are looked at: to ask which of them are dry costs more than it gives.)
fn look_up_in<const WIDTH: usize>(
    frame: &Frame,
    vcs: usize,
    sends: &Sends<Words>,
    some: &Words,
    draining: &Words,
    supplied: &mut Words,
)
    requires { (WIDTH ≡ 2) ⊎ ((WIDTH ≡ 4) ⊎ (WIDTH ≡ 6)) }
    ensures { TellFed (GROUP * frame.now.groups) WIDTH vcs
        sends.now some.now draining.now supplied.new }
{
    if vcs > 4 {
        look_up_wide::<WIDTH>(frame, sends, some, draining, supplied);
    } else {
        look_up_of::<WIDTH, 4, 4>(frame, sends, some, supplied);
    }
}

// Looks up who has a credit, of up to eight virtual channels. Where no channel of the upper four is
// dry, these are not looked at: who sends by them is supplied.
#[inline(always)]
fn look_up_wide<const WIDTH: usize>(
    frame: &Frame,
    sends: &Sends<Words>,
    some: &Words,
    draining: &Words,
    supplied: &mut Words,
)
    requires { (WIDTH ≡ 2) ⊎ ((WIDTH ≡ 4) ⊎ (WIDTH ≡ 6)) }
    ensures { TellFed (GROUP * frame.now.groups) WIDTH MAX_CHANNELS
        sends.now some.now draining.now supplied.new }
{
    if is_one_dry(4 * WIDTH, 8 * WIDTH, some, draining) {
        look_up_of::<WIDTH, 8, 8>(frame, sends, some, supplied);
    } else {
        look_up_of::<WIDTH, 8, 4>(frame, sends, some, supplied);
    }
}

// Whether a channel of these words is dry in some router: it has no credit and does not drain. (A
// word of no link channel may make this true. Then more is looked at than has to be, and no less.)
#[inline(always)]
fn is_one_dry(first: usize, end: usize, some: &Words, draining: &Words) -> bool
    requires { end ≤ WORDS }
    ensures { result ≡ false → NoneIsDry first end some.now draining.now }
{
    let mut wet = ALL;
    for i in first..end {
        wet = wet & (some[i] | draining[i]);
    }
    wet != ALL
}

// Looks up who has a credit, by all virtual channels or by the first four. (What calls this is not
// to grow by it, or the compiler takes one word at a time.)
#[inline(never)]
fn look_up_of<const WIDTH: usize, const VCS: usize, const LOOKED: usize>(
    frame: &Frame,
    sends: &Sends<Words>,
    some: &Words,
    supplied: &mut Words,
)
    requires width { (WIDTH ≡ 2) ⊎ ((WIDTH ≡ 4) ⊎ (WIDTH ≡ 6)) }
    requires looked { (LOOKED ≡ VCS) ⊎ (LOOKED ≡ 4) }
    ensures { TellFedAmong (GROUP * frame.now.groups) WIDTH VCS LOOKED
        sends.now some.now supplied.new }
{
    // (A value of its own is none of the words that are written. So the compiler takes several
    // words at a time.)
    let fed = *some;
    for i in 0..GROUP * frame.groups {
        let port = sends.port.at(i);
        let vc = sends.vc.at(i);
        supplied[i] = fed_among(WIDTH, VCS, LOOKED, &port, &vc, &fed);
    }
}

// The routers in which the output channel with these numbers leads out of the network or has a
// credit, or has a virtual channel that is not looked at.
#[inline(always)]
fn fed_among(
    width: usize,
    vcs: usize,
    looked: usize,
    port: &Digits<u64>,
    vc: &Digits<u64>,
    some: &Words,
) -> u64
    requires width { (width ≡ 2) ⊎ ((width ≡ 4) ⊎ (width ≡ 6)) }
    requires looked { (looked ≡ vcs) ⊎ (looked ≡ 4) }
    ensures { (r : ℕ) → number_in vc.now r < vcs → number_in port.now r ≤ width
        → has_bit result r ≡ is_fed_among looked width some.now r
        (number_in port.now r) (number_in vc.now r) }
{
    fed_by(width, looked, port, vc, some) | beyond(vcs, looked, vc)
}

// The routers in which the virtual channel with this number is not looked at.
#[inline(always)]
fn beyond(vcs: usize, looked: usize, vc: &Digits<u64>) -> u64
    requires { (looked ≡ vcs) ⊎ (looked ≡ 4) }
    ensures { (r : ℕ) → number_in vc.now r < vcs
        → has_bit result r ≡ not (nat_lt (number_in vc.now r) looked) }
{
    if looked == vcs { 0 } else { vc.fours }
}

// The routers in which the output channel with these numbers leads out of the network or has a
// credit, where its virtual channel is looked at. (With a tree for two virtual channels too, this
// grows too large to be inlined, and is called for each word.)
#[inline(always)]
fn fed_by(width: usize, looked: usize, port: &Digits<u64>, vc: &Digits<u64>, some: &Words) -> u64
    requires { (width ≡ 2) ⊎ ((width ≡ 4) ⊎ (width ≡ 6)) }
    ensures { (r : ℕ) → number_in vc.now r < looked → number_in port.now r ≤ width
        → has_bit result r
        ≡ is_fed_word width some.now r (number_in port.now r) (number_in vc.now r) }
{
    if width == 2 {
        of_two(looked, port, vc, some)
    } else if width == 4 {
        of_four(looked, port, vc, some)
    } else {
        of_six(looked, port, vc, some)
    }
}

// The routers in which it does so, of two link ports: the local port has number 2.
#[inline(always)]
fn of_two(looked: usize, port: &Digits<u64>, vc: &Digits<u64>, some: &Words) -> u64
    ensures { (r : ℕ) → number_in vc.now r < looked → number_in port.now r ≤ 2
        → has_bit result r ≡ is_fed_word 2 some.now r (number_in port.now r) (number_in vc.now r) }
{
    let none = by_vc(2, looked, vc, 0, some);
    let one = by_vc(2, looked, vc, 1, some);
    either(port.ones, none, one) | port.twos
}

// The routers in which it does so, of four link ports: the local port has number 4.
#[inline(always)]
fn of_four(looked: usize, port: &Digits<u64>, vc: &Digits<u64>, some: &Words) -> u64
    ensures { (r : ℕ) → number_in vc.now r < looked → number_in port.now r ≤ 4
        → has_bit result r ≡ is_fed_word 4 some.now r (number_in port.now r) (number_in vc.now r) }
{
    by_low_port(4, looked, port, vc, some) | port.fours
}

// The routers in which it does so, of six link ports: the local port has number 6.
#[inline(always)]
fn of_six(looked: usize, port: &Digits<u64>, vc: &Digits<u64>, some: &Words) -> u64
    ensures { (r : ℕ) → number_in vc.now r < looked → number_in port.now r ≤ 6
        → has_bit result r ≡ is_fed_word 6 some.now r (number_in port.now r) (number_in vc.now r) }
{
    let low = by_low_port(6, looked, port, vc, some);
    let next = by_vc(6, looked, vc, 4, some);
    let last = by_vc(6, looked, vc, 5, some);
    either(port.fours, low, either(port.ones, next, last) | port.twos)
}

// The routers in which the virtual channel with this number is in a set, of that of the first four
// ports which the two lowest bits of the port's number tell.
#[inline(always)]
fn by_low_port(
    width: usize,
    looked: usize,
    port: &Digits<u64>,
    vc: &Digits<u64>,
    some: &Words,
) -> u64
    requires few { width ≤ LINKS }
    requires four { 4 ≤ width }
    ensures { (r : ℕ) → number_in vc.now r < looked
        → has_bit result r
        ≡ by_four (has_bit port.now.ones r) (has_bit port.now.twos r)
        (λ q. has_bit (word (number_in vc.now r * width + q) some.now) r) }
{
    let none = by_vc(width, looked, vc, 0, some);
    let one = by_vc(width, looked, vc, 1, some);
    let two = by_vc(width, looked, vc, 2, some);
    let three = by_vc(width, looked, vc, 3, some);
    four(port, none, one, two, three)
}

// The routers in which the virtual channel with this number, of one port, is in a set.
#[inline(always)]
fn by_vc(width: usize, looked: usize, vc: &Digits<u64>, port: usize, some: &Words) -> u64
    requires few { width ≤ LINKS }
    requires port { port < width }
    ensures { (r : ℕ) → number_in vc.now r < looked
        → has_bit result r ≡ has_bit (word (number_in vc.now r * width + port) some.now) r }
{
    let low = by_low_vc(0, width, vc, port, some);
    if looked == 4 {
        low
    } else {
        either(vc.fours, low, by_low_vc(4, width, vc, port, some))
    }
}

// The same of that of four virtual channels, from the first on, which the two lowest bits of the
// number tell.
#[inline(always)]
fn by_low_vc(first: usize, width: usize, vc: &Digits<u64>, port: usize, some: &Words) -> u64
    requires first { first + 4 ≤ MAX_CHANNELS }
    requires few { width ≤ LINKS }
    requires port { port < width }
    ensures { (r : ℕ)
        → has_bit result r
        ≡ by_four (has_bit vc.now.ones r) (has_bit vc.now.twos r)
        (λ v. has_bit (word ((first + v) * width + port) some.now) r) }
{
    let none = channel(some, first, width, port);
    let one = channel(some, first + 1, width, port);
    let two = channel(some, first + 2, width, port);
    let three = channel(some, first + 3, width, port);
    four(vc, none, one, two, three)
}

// The word of a virtual channel of a port.
#[inline(always)]
fn channel(words: &Words, vc: usize, width: usize, port: usize) -> u64
    requires vc { vc < MAX_CHANNELS }
    requires few { width ≤ LINKS }
    requires port { port < width }
    ensures { result ≡ word (vc * width + port) words.now }
{
    words[vc * width + port]
}

// Of four words that of each router's number, by its two lowest bits.
#[inline(always)]
fn four(number: &Digits<u64>, none: u64, one: u64, two: u64, three: u64) -> u64
    ensures { (r : ℕ)
        → has_bit result r
        ≡ by_four (has_bit number.now.ones r) (has_bit number.now.twos r)
        (λ k. has_bit (slice_index (none ∷ one ∷ two ∷ three ∷ []) k) r) }
{
    let low = either(number.ones, none, one);
    let high = either(number.ones, two, three);
    either(number.twos, low, high)
}

// Of two words the second where a bit is set, and else the first.
#[inline(always)]
fn either(bits: u64, first: u64, second: u64) -> u64
    ensures { (r : ℕ)
        → has_bit result r
        ≡ (if has_bit bits r then has_bit second r else has_bit first r) }
{
    first ^ ((first ^ second) & bits)
}
