//! What is picked goes through the switch: each output port takes one of the input ports that ask
//! for it.

ghost use Rattle.std.specs.Prelude.{◌≡◌, ◌⊎◌, ◌<◌, ◌≤◌, ◌+◌, ◌*◌, ◌&&◌, ℕ, true, false, not, nat_eq, bit_and, bit_or, slice_index, if◌then◌else◌};
ghost use Rattle.noc_sets.specs.Turns.{in_turn};
ghost use Rattle.noc_columns.specs.Supply.{digits_by, number_in};
ghost use Rattle.noc_columns.specs.Switch.{PickVcs, Traverses, TraversesAll, asks_for, picks_in, taken_in};
ghost use Rattle.noc_columns.specs.Prelude.{ROUTERS, has_bit, less, output_of, port_at, port_of, set_of, some_below, word};

use crate::channels::{Decided, Links};
use crate::picks::{Picks, pick_each};
use crate::planes::less;
use crate::ports::{PORTS, Ports, RouterPorts};
use crate::supply::Digits;
use crate::words::{WORDS, Words};
use noc_packet::MAX_CHANNELS;

/// The pointers of a switch: of each output port a word for each input port.
#[derive(Drop)]
pub struct Switch<T> {
    /// The input ports at or after the pointer of the output port.
    pub ahead: T,
}

// What goes by each output port, and which input ports send.
#[derive(Drop)]
struct Taken {
    // The routers in which the output port takes an input port.
    any: [u64; PORTS],
    // Those in which a tail goes by it.
    tail: [u64; PORTS],
    // The virtual channel by which it goes.
    vc: Digits<[u64; PORTS]>,
    // By input port.
    sends: [u64; PORTS],
}

/// Of the input ports that ask for it each output port takes the first from its pointer on and
/// around, and its pointer goes past that port. It is told which input channels are of a port that
/// sends, and by which output channels flits and tails leave. So many are link ports: as a const
/// parameter, as in `pick`.
#[inline(never)]
pub fn traverse<const WIDTH: usize>(
    ports: &RouterPorts,
    picks: &Picks,
    switch: &mut Switch<Words>,
    decided: &mut Decided<Words>,
    left: &mut Links<Words>,
)
    requires width { WIDTH ≡ ports.now.links.width }
    requires vcs { PickVcs ports.now picks.now }
    ensures { TraversesAll ports.now picks.now switch.old.ahead switch.new.ahead decided.old
        decided.new left.old left.new }
{
    let vcs = ports.links.vcs;
    let ahead = &mut switch.ahead;
    let sends = &mut decided.sends;
    if vcs == 2 {
        traverse_all(&ports.known(WIDTH, 2), picks, ahead, sends, left);
    } else if vcs == 4 {
        traverse_all(&ports.known(WIDTH, 4), picks, ahead, sends, left);
    } else if vcs == 8 {
        traverse_all(&ports.known(WIDTH, 8), picks, ahead, sends, left);
    } else {
        traverse_all(&ports.known(WIDTH, vcs), picks, ahead, sends, left);
    }
}

// What is picked goes through the switch.
#[inline(always)]
fn traverse_all(
    ports: &RouterPorts,
    picks: &Picks,
    ahead: &mut Words,
    sends: &mut Words,
    left: &mut Links<Words>,
)
    requires { PickVcs ports.now picks.now }
    ensures traversed { (r : ℕ)
        → Traverses ports.now picks.now ahead.old ahead.new sends.new left.new r }
    ensures left { left.new.credits ≡ left.old.credits }
{
    let taken = take(ports, picks, ahead);
    send(ports, &taken, sends, left);
}

// Each output port takes an input port. The answer is what goes.
#[inline(always)]
fn take(ports: &RouterPorts, picks: &Picks, ahead: &mut Words) -> Taken
    requires { PickVcs ports.now picks.now }
    ensures turns { (r q p : ℕ) → q < ports.now.links.width + 1 → p < ports.now.links.width + 1
        → has_bit (set_of (output_of ports.now q) r ahead.new) p
        ≡ (if nat_eq (asks_for (ports.now.links.width + 1) (picks_in picks.now r) q) 0
        then has_bit (set_of (output_of ports.now q) r ahead.old) p
        else some_below p (has_bit (in_turn
        (asks_for (ports.now.links.width + 1) (picks_in picks.now r) q)
        (set_of (output_of ports.now q) r ahead.old)))) }
    ensures any { (r q : ℕ) → q < ports.now.links.width + 1
        → has_bit (slice_index result.any q) r
        ≡ not (nat_eq (asks_for (ports.now.links.width + 1) (picks_in picks.now r) q) 0) }
    ensures goes { (r q p : ℕ) → q < ports.now.links.width + 1
        → has_bit (taken_in ports.now picks.now ahead.old r q) p ≡ true
        → (number_in (digits_by (word q) result.vc) r ≡ (picks_in picks.now r).vc p)
        × (has_bit (slice_index result.tail q) r ≡ (picks_in picks.now r).tail p) }
    ensures sends { (r p : ℕ) → p < ports.now.links.width + 1
        → has_bit (slice_index result.sends p) r
        ≡ some_below (ports.now.links.width + 1)
        (λ q. has_bit (taken_in ports.now picks.now ahead.old r q) p) }
{
    let outputs = ports.outputs();
    // (These are values of its own, which the compiler keeps out of memory.)
    let mut asks = [0; WORDS];
    let mut taken = [0; WORDS];
    let mut past = [0; WORDS];
    ask(&outputs, picks, &mut asks);
    let any = pick_each(&outputs, &asks, ahead, &mut taken, &mut past);
    advance(&outputs, &any, &past, ahead);
    Taken {
        any,
        tail: of_taken(&outputs, &taken, &picks.tail),
        vc: Digits {
            ones: of_taken(&outputs, &taken, &picks.vc.ones),
            twos: of_taken(&outputs, &taken, &picks.vc.twos),
            fours: fours_of(&outputs, ports.links.vcs, &taken, &picks.vc.fours),
        },
        sends: senders(&outputs, &taken),
    }
}

// The input ports that ask for each output port: those whose picked channel sends by it.
#[inline(always)]
fn ask(outputs: &RouterPorts, picks: &Picks, asks: &mut Words)
    ensures { (q p r : ℕ) → q < outputs.now.links.width + 1 → p < outputs.now.links.vcs
        → has_bit (word ((port_of outputs.now q).index p) asks.new) r
        ≡ (has_bit (slice_index picks.now.any p) r
        && nat_eq (number_in (digits_by (word p) picks.now.port) r) q) }
{
    for p in 0..outputs.links.vcs {
        let asked = asked_by(outputs.links.width + 1, picks, p);
        outputs.put(p, &asked, asks);
    }
}

// The routers in which an input port asks for each of so many output ports.
#[inline(always)]
fn asked_by(ports: usize, picks: &Picks, p: usize) -> [u64; PORTS]
    requires ports { ports ≤ PORTS }
    requires port { p < PORTS }
    ensures { (q r : ℕ) → q < ports
        → has_bit (slice_index result q) r
        ≡ (has_bit (slice_index picks.now.any p) r
        && nat_eq (number_in (digits_by (word p) picks.now.port) r) q) }
{
    let port = picks.port.of_port(p);
    let any = picks.any[p];
    let mut asked = [0; PORTS];
    for q in 0..ports {
        asked[q] = port.having(q, any);
    }
    asked
}

// The pointers go past what is taken, where something is.
#[inline(always)]
fn advance(outputs: &RouterPorts, any: &[u64; PORTS], past: &Words, ahead: &mut Words)
    ensures { (q p : ℕ) → q < outputs.now.links.width + 1 → p < outputs.now.links.vcs
        → word ((port_of outputs.now q).index p) ahead.new
        ≡ bit_or (bit_and (word ((port_of outputs.now q).index p) past.now) (slice_index any.now q))
        (less (word ((port_of outputs.now q).index p) ahead.old) (slice_index any.now q)) }
{
    for p in 0..outputs.links.vcs {
        let behind = outputs.at(p, past);
        let was = outputs.at(p, ahead);
        let next = advanced(outputs.links.width + 1, any, &behind, &was);
        outputs.put(p, &next, ahead);
    }
}

// The pointers of so many output ports go past one input port, where they take it.
#[inline(always)]
fn advanced(
    ports: usize,
    any: &[u64; PORTS],
    past: &[u64; PORTS],
    ahead: &[u64; PORTS],
) -> [u64; PORTS]
    requires { ports ≤ PORTS }
    ensures { (q : ℕ) → q < ports
        → slice_index result q
        ≡ bit_or (bit_and (slice_index past.now q) (slice_index any.now q))
        (less (slice_index ahead.now q) (slice_index any.now q)) }
{
    let mut next = [0; PORTS];
    for q in 0..ports {
        next[q] = (past[q] & any[q]) | less(ahead[q], any[q]);
    }
    next
}

// By output port the routers in which the input port that it takes is in a set.
#[inline(always)]
fn of_taken(outputs: &RouterPorts, taken: &Words, set: &[u64; PORTS]) -> [u64; PORTS]
    ensures { (q r : ℕ) → q < outputs.now.links.width + 1
        → has_bit (slice_index result q) r
        ≡ some_below outputs.now.links.vcs
        (λ p. has_bit (word ((port_of outputs.now q).index p) taken.now) r
        && has_bit (slice_index set.now p) r) }
{
    let mut all = [0; PORTS];
    for p in 0..outputs.links.vcs {
        let by_output = outputs.at(p, taken);
        add_taken(outputs.links.width + 1, &by_output, set[p], &mut all);
    }
    all
}

// The same of the third digit of numbers below so many. (Of at most four none has it.)
#[inline(always)]
fn fours_of(
    outputs: &RouterPorts,
    below: usize,
    taken: &Words,
    fours: &[u64; PORTS],
) -> [u64; PORTS]
    requires { below ≤ 4 → (q p r : ℕ) → q < outputs.now.links.width + 1
        → p < outputs.now.links.vcs → r < ROUTERS
        → has_bit (word ((port_of outputs.now q).index p) taken.now) r ≡ true
        → has_bit (slice_index fours.now p) r ≡ false }
    ensures { (q r : ℕ) → q < outputs.now.links.width + 1
        → has_bit (slice_index result q) r
        ≡ some_below outputs.now.links.vcs
        (λ p. has_bit (word ((port_of outputs.now q).index p) taken.now) r
        && has_bit (slice_index fours.now p) r) }
{
    if below <= 4 {
        [0; PORTS]
    } else {
        of_taken(outputs, taken, fours)
    }
}

// With one input port.
#[inline(always)]
fn add_taken(ports: usize, taken: &[u64; PORTS], set: u64, all: &mut [u64; PORTS])
    requires { ports ≤ PORTS }
    ensures { (q : ℕ) → q < ports
        → slice_index all.new q
        ≡ bit_or (slice_index all.old q) (bit_and (slice_index taken.now q) set) }
{
    for q in 0..ports {
        all[q] = all[q] | (taken[q] & set);
    }
}

// By input port the routers in which an output port takes it.
#[inline(always)]
fn senders(outputs: &RouterPorts, taken: &Words) -> [u64; PORTS]
    ensures { (p r : ℕ) → p < outputs.now.links.vcs
        → has_bit (slice_index result p) r
        ≡ some_below (outputs.now.links.width + 1)
        (λ q. has_bit (word ((port_of outputs.now q).index p) taken.now) r) }
{
    let mut sends = [0; PORTS];
    for p in 0..outputs.links.vcs {
        let by_output = outputs.at(p, taken);
        sends[p] = any_of(outputs.links.width + 1, &by_output);
    }
    sends
}

// The routers that are in one of so many sets.
#[inline(always)]
fn any_of(count: usize, sets: &[u64; PORTS]) -> u64
    requires { count ≤ PORTS }
    ensures { (r : ℕ)
        → has_bit result r ≡ some_below count (λ p. has_bit (slice_index sets.now p) r) }
{
    let mut any = 0;
    for p in 0..count {
        any = any | sets[p];
    }
    any
}

// What is taken leaves by the links, and all channels of the input ports that send are told so.
#[inline(always)]
fn send(ports: &RouterPorts, taken: &Taken, sends: &mut Words, left: &mut Links<Words>)
    ensures sends { (p v : ℕ) → p < ports.now.links.width + 1 → v < ports.now.links.vcs
        → word ((port_of ports.now p).index v) sends.new ≡ slice_index taken.now.sends p }
    ensures flits { (q v r : ℕ) → q < ports.now.links.width → v < ports.now.links.vcs
        → has_bit (word ((port_of ports.now q).index v) left.new.flits) r
        ≡ (has_bit (slice_index taken.now.any q) r
        && nat_eq (number_in (digits_by (word q) taken.now.vc) r) v) }
    ensures tails { (q v r : ℕ) → q < ports.now.links.width → v < ports.now.links.vcs
        → has_bit (word ((port_of ports.now q).index v) left.new.tails) r
        ≡ ((has_bit (slice_index taken.now.any q) r
        && nat_eq (number_in (digits_by (word q) taken.now.vc) r) v)
        && has_bit (slice_index taken.now.tail q) r) }
    ensures left { left.new.credits ≡ left.old.credits }
{
    for v in 0..ports.links.vcs {
        ports.put(v, &taken.sends, sends);
        send_by(&ports.links, v, taken, left);
    }
}

// What is taken leaves by virtual channel v of each link. (Both words are written at once, and so
// in vectors.)
#[inline(always)]
fn send_by(links: &Ports, v: usize, taken: &Taken, left: &mut Links<Words>)
    requires vc { v < links.now.vcs }
    requires few { links.now.vcs ≤ MAX_CHANNELS }
    ensures flits { (q r : ℕ) → q < links.now.width
        → has_bit (word ((port_at links.now q).index v) left.new.flits) r
        ≡ (has_bit (slice_index taken.now.any q) r
        && nat_eq (number_in (digits_by (word q) taken.now.vc) r) v) }
    ensures tails { (q r : ℕ) → q < links.now.width
        → has_bit (word ((port_at links.now q).index v) left.new.tails) r
        ≡ ((has_bit (slice_index taken.now.any q) r
        && nat_eq (number_in (digits_by (word q) taken.now.vc) r) v)
        && has_bit (slice_index taken.now.tail q) r) }
    ensures others { (k : ℕ)
        → (k < links.now.first + v * links.now.width)
        ⊎ (links.now.first + v * links.now.width + links.now.width ≤ k)
        → (word k left.new.flits ≡ word k left.old.flits)
        × (word k left.new.tails ≡ word k left.old.tails) }
    ensures rest { left.new.credits ≡ left.old.credits }
{
    let at = links.first + v * links.width;
    for q in 0..links.width {
        let flits = taken.vc.of_port(q).having(v, taken.any[q]);
        left.flits[at + q] = flits;
        left.tails[at + q] = flits & taken.tail[q];
    }
}
