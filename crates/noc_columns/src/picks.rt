//! Each input port picks one of its channels.

ghost use Rattle.std.specs.Prelude.{◌≡◌, ◌⊎◌, ◌<◌, ◌≤◌, ◌+◌, ◌*◌, ◌&&◌, ℕ, true, false, not, nat_eq, bit_and, bit_or, slice_index};
ghost use Rattle.noc_columns.specs.Picks.{HavePicked, IsPicked, PicksAll, SendByVcs, turn_word};
ghost use Rattle.noc_columns.specs.Supply.{digits_by, number_in};
ghost use Rattle.noc_columns.specs.Prelude.{ROUTERS, has_bit, less, port_at, port_of, set_of, some_below, word};

use crate::by_port::write_side;
use crate::channels::{Decided, Standing};
use crate::planes::less;
use crate::ports::{PORTS, Ports, RouterPorts};
use crate::supply::{Digits, NUMBERS, Sends};
use crate::words::Words;

/// What the picked channel of each input port has, with a word of each port.
#[derive(Drop)]
pub struct Picks {
    /// The routers in which the port picks a channel.
    pub any: [u64; PORTS],
    /// Those in which that has a tail in front.
    pub tail: [u64; PORTS],
    /// The port of its output channel.
    pub port: Digits<[u64; PORTS]>,
    /// The virtual channel of its output channel.
    pub vc: Digits<[u64; PORTS]>,
}

/// What the input ports of a block pick from.
#[derive(Drop)]
pub struct Candidates<'a> {
    /// What the input channels can do.
    pub standing: &'a Standing<Words>,
    /// Those at or after the pointer of their port.
    pub ahead: &'a Words,
    /// By which output channel each of them sends.
    pub sends: &'a Sends<Words>,
}

/// Of the ready channels of each input port one is picked, the first from the pointer on and
/// around. What these channels have is written where it stands, since an answer of several branches
/// would be cleared first. So many are link ports: as a const parameter, so that loops over them
/// are unrolled. (What calls this is not to grow by it, or the compiler takes one word at a time.)
#[inline(never)]
pub fn pick<const WIDTH: usize>(
    ports: &RouterPorts,
    candidates: &Candidates<'_>,
    decided: &mut Decided<Words>,
    picks: &mut Picks,
)
    requires width { WIDTH ≡ ports.now.links.width }
    requires sends { SendByVcs ports.now candidates.now.standing.now.ready
        candidates.now.sends.now.vc }
    ensures { PicksAll ports.now candidates.now.standing.now candidates.now.ahead.now
        candidates.now.sends.now decided.old decided.new picks.new }
{
    let vcs = ports.links.vcs;
    let picked = &mut decided.picked;
    let past = &mut decided.past;
    if vcs == 2 {
        pick_all(&ports.known(WIDTH, 2), candidates, picked, past, picks);
    } else if vcs == 4 {
        pick_all(&ports.known(WIDTH, 4), candidates, picked, past, picks);
    } else if vcs == 8 {
        pick_all(&ports.known(WIDTH, 8), candidates, picked, past, picks);
    } else {
        pick_all(&ports.known(WIDTH, vcs), candidates, picked, past, picks);
    }
}

// Of the ready channels of each input port one is picked, and what these have is written.
#[inline(always)]
fn pick_all(
    ports: &RouterPorts,
    candidates: &Candidates<'_>,
    picked: &mut Words,
    past: &mut Words,
    picks: &mut Picks,
)
    requires { SendByVcs ports.now candidates.now.standing.now.ready candidates.now.sends.now.vc }
    ensures { (r : ℕ) → HavePicked ports.now r candidates.now.standing.now.ready
        candidates.now.ahead.now picked.new past.new candidates.now.standing.now.last
        candidates.now.sends.now picks.new }
{
    let standing = candidates.standing;
    let sends = candidates.sends;
    let any = pick_each(ports, &standing.ready, candidates.ahead, picked, past);
    write_ports(ports.links.width + 1, &any, &mut picks.any);
    write_both(ports, picked, &standing.last, &mut picks.tail);
    write_numbers(ports, NUMBERS, picked, &sends.port, &mut picks.port);
    write_numbers(ports, ports.links.vcs, picked, &sends.vc, &mut picks.vc);
}

// By port the numbers of the channels of a set that has one of each port at most. These are below
// so many. (The third digit is written first. The compiler joins branches of `pick` that end with
// it, which costs.)
#[inline(always)]
fn write_numbers(
    ports: &RouterPorts,
    below: usize,
    set: &Words,
    of: &Digits<Words>,
    numbers: &mut Digits<[u64; PORTS]>,
)
    requires { (p c r : ℕ) → p < ports.now.links.width + 1 → c < ports.now.links.vcs → r < ROUTERS
        → has_bit (word ((port_of ports.now p).index c) set.now) r ≡ true
        → number_in (digits_by (word ((port_of ports.now p).index c)) of.now) r < below }
    ensures ones { (p r : ℕ) → p < ports.now.links.width + 1
        → has_bit (slice_index numbers.new.ones p) r
        ≡ some_below ports.now.links.vcs
        (λ c. has_bit (word ((port_of ports.now p).index c) set.now) r
        && has_bit (word ((port_of ports.now p).index c) of.now.ones) r) }
    ensures twos { (p r : ℕ) → p < ports.now.links.width + 1
        → has_bit (slice_index numbers.new.twos p) r
        ≡ some_below ports.now.links.vcs
        (λ c. has_bit (word ((port_of ports.now p).index c) set.now) r
        && has_bit (word ((port_of ports.now p).index c) of.now.twos) r) }
    ensures fours { (p r : ℕ) → p < ports.now.links.width + 1
        → has_bit (slice_index numbers.new.fours p) r
        ≡ some_below ports.now.links.vcs
        (λ c. has_bit (word ((port_of ports.now p).index c) set.now) r
        && has_bit (word ((port_of ports.now p).index c) of.now.fours) r) }
{
    write_fours(ports, below, set, &of.fours, &mut numbers.fours);
    write_both(ports, set, &of.ones, &mut numbers.ones);
    write_both(ports, set, &of.twos, &mut numbers.twos);
}

// Their third digit. (Of at most four numbers none has it, so no word is read.)
#[inline(always)]
fn write_fours(ports: &RouterPorts, below: usize, set: &Words, of: &Words, fours: &mut [u64; PORTS])
    requires { below ≤ 4 → (p c r : ℕ) → p < ports.now.links.width + 1 → c < ports.now.links.vcs
        → r < ROUTERS → has_bit (word ((port_of ports.now p).index c) set.now) r ≡ true
        → has_bit (word ((port_of ports.now p).index c) of.now) r ≡ false }
    ensures { (p r : ℕ) → p < ports.now.links.width + 1
        → has_bit (slice_index fours.new p) r
        ≡ some_below ports.now.links.vcs
        (λ c. has_bit (word ((port_of ports.now p).index c) set.now) r
        && has_bit (word ((port_of ports.now p).index c) of.now) r) }
{
    if below <= 4 {
        write_ports(ports.links.width + 1, &[0; PORTS], fours);
    } else {
        write_both(ports, set, of, fours);
    }
}

// By port the routers of which a channel is in both of two sets.
#[inline(always)]
fn write_both(ports: &RouterPorts, first: &Words, second: &Words, both: &mut [u64; PORTS])
    ensures { (p r : ℕ) → p < ports.now.links.width + 1
        → has_bit (slice_index both.new p) r
        ≡ some_below ports.now.links.vcs
        (λ c. has_bit (word ((port_of ports.now p).index c) first.now) r
        && has_bit (word ((port_of ports.now p).index c) second.now) r) }
{
    let any = any_both(ports, first, second);
    write_ports(ports.links.width + 1, &any, both);
}

// Writes the words of so many ports. (Those that a router does not have are not written.)
#[inline(always)]
fn write_ports(ports: usize, by_port: &[u64; PORTS], to: &mut [u64; PORTS])
    requires { ports ≤ PORTS }
    ensures { (p : ℕ) → p < ports → slice_index to.new p ≡ slice_index by_port.now p }
{
    for p in 0..ports {
        to[p] = by_port[p];
    }
}

/// By port the routers of which a channel is in both of two sets.
#[inline(always)]
pub(crate) fn any_both(ports: &RouterPorts, first: &Words, second: &Words) -> [u64; PORTS]
    ensures { (p r : ℕ) → p < ports.now.links.width + 1
        → has_bit (slice_index result p) r
        ≡ some_below ports.now.links.vcs
        (λ c. has_bit (word ((port_of ports.now p).index c) first.now) r
        && has_bit (word ((port_of ports.now p).index c) second.now) r) }
{
    let mut any = any_side(&ports.links, first, second);
    let local = any_side(&ports.local, first, second);
    any[ports.links.width] = local[0];
    any
}

/// Of the ready channels of each port one is picked, the first from the pointer on and around. The
/// answer is by port the routers in which one is picked.
#[inline(always)]
pub(crate) fn pick_each(
    ports: &RouterPorts,
    ready: &Words,
    ahead: &Words,
    picked: &mut Words,
    past: &mut Words,
) -> [u64; PORTS]
    ensures picked { (p r : ℕ) → p < ports.now.links.width + 1
        → IsPicked (port_of ports.now p) r ready.now ahead.now picked.new past.new }
    ensures some { (p r : ℕ) → p < ports.now.links.width + 1
        → has_bit (slice_index result p) r
        ≡ not (nat_eq (set_of (port_of ports.now p) r ready.now) 0) }
{
    let mut any = pick_side(&ports.links, ready, ahead, picked, past);
    let local = pick_side(&ports.local, ready, ahead, picked, past);
    any[ports.links.width] = local[0];
    any
}

// Of ports that stand side by side, by port the routers that have a ready channel at or after the
// pointer, and those of which a channel before this one is in turn.
#[derive(Drop)]
struct Turn {
    first: [u64; PORTS],
    before: [u64; PORTS],
}

// The ports that stand side by side pick. The answer is by port the routers in which it picks one.
#[inline(always)]
fn pick_side(
    ports: &Ports,
    ready: &Words,
    ahead: &Words,
    picked: &mut Words,
    past: &mut Words,
) -> [u64; PORTS]
    ensures picked { (j r : ℕ) → j < ports.now.width
        → IsPicked (port_at ports.now j) r ready.now ahead.now picked.new past.new }
    ensures some { (j r : ℕ) → j < ports.now.width
        → has_bit (slice_index result j) r
        ≡ not (nat_eq (set_of (port_at ports.now j) r ready.now) 0) }
    ensures others { (k : ℕ)
        → (k < ports.now.first) ⊎ (ports.now.first + ports.now.vcs * ports.now.width ≤ k)
        → (word k picked.new ≡ word k picked.old) × (word k past.new ≡ word k past.old) }
{
    let first = any_side(ports, ready, ahead);
    let mut turn = Turn {
        first,
        before: [0; PORTS],
    };
    for v in 0..ports.vcs {
        write_side(ports, v, &turn.before, past);
        pick_next(ports, v, ready, ahead, &mut turn, picked);
    }
    turn.before
}

// By port the routers of which a channel is in both of two sets, of ports that stand side by side.
#[inline(always)]
pub(crate) fn any_side(ports: &Ports, first: &Words, second: &Words) -> [u64; PORTS]
    ensures { (j r : ℕ) → j < ports.now.width
        → has_bit (slice_index result j) r
        ≡ some_below ports.now.vcs (λ c. has_bit (word ((port_at ports.now j).index c) first.now) r
        && has_bit (word ((port_at ports.now j).index c) second.now) r) }
{
    let mut any = [0; PORTS];
    for v in 0..ports.vcs {
        join_both(ports, v, first, second, &mut any);
    }
    any
}

// With virtual channel v of each port.
#[inline(always)]
fn join_both(ports: &Ports, v: usize, first: &Words, second: &Words, any: &mut [u64; PORTS])
    requires { v < ports.now.vcs }
    ensures { (j : ℕ) → j < ports.now.width
        → slice_index any.new j
        ≡ bit_or (slice_index any.old j)
        (bit_and (word ((port_at ports.now j).index v) first.now)
        (word ((port_at ports.now j).index v) second.now)) }
{
    let at = ports.first + v * ports.width;
    for j in 0..ports.width {
        any[j] = any[j] | (first[at + j] & second[at + j]);
    }
}

// Virtual channel v of each port is picked where it is the first in turn.
#[inline(always)]
fn pick_next(
    ports: &Ports,
    v: usize,
    ready: &Words,
    ahead: &Words,
    turn: &mut Turn,
    picked: &mut Words,
)
    requires { v < ports.now.vcs }
    ensures first { turn.new.first ≡ turn.old.first }
    ensures before { (j : ℕ) → j < ports.now.width
        → slice_index turn.new.before j
        ≡ bit_or (slice_index turn.old.before j)
        (turn_word (slice_index turn.old.first j) (word ((port_at ports.now j).index v) ready.now)
        (word ((port_at ports.now j).index v) ahead.now)) }
    ensures picked { (j : ℕ) → j < ports.now.width
        → word ((port_at ports.now j).index v) picked.new
        ≡ less (turn_word (slice_index turn.old.first j)
        (word ((port_at ports.now j).index v) ready.now)
        (word ((port_at ports.now j).index v) ahead.now)) (slice_index turn.old.before j) }
    ensures others { (k : ℕ)
        → (k < ports.now.first + v * ports.now.width)
        ⊎ (ports.now.first + v * ports.now.width + ports.now.width ≤ k)
        → word k picked.new ≡ word k picked.old }
{
    let at = ports.first + v * ports.width;
    // (All words are read before one is written. So the compiler takes several at a time.)
    let mut here = [0; PORTS];
    for j in 0..ports.width {
        let before = turn.before[j];
        let turns = less(ready[at + j], less(turn.first[j], ahead[at + j]));
        here[j] = less(turns, before);
        turn.before[j] = before | turns;
    }
    write_side(ports, v, &here, picked);
}
