//! What the sources inject into the local channels.

ghost use Rattle.std.specs.Prelude.{◌≡◌, ◌⊎◌, ◌+◌, ◌<◌, ◌≤◌, ℕ, bit_and, bit_or, nat_eq, nat_le, not, slice_index, if◌then◌else◌};
ghost use Rattle.noc_sets.specs.Column.{Column};
ghost use Rattle.noc_sets.specs.Passes.{lane_begins, lane_free, lane_injected};
ghost use Rattle.noc_sets.specs.Planes.{any_from, wrong_from};
ghost use Rattle.noc_columns.specs.Channels.{inputs_by};
ghost use Rattle.noc_columns.specs.Planes.{list_of, planes_by};
ghost use Rattle.noc_columns.specs.Steps.{with_source};
ghost use Rattle.noc_columns.specs.Prelude.{all_of, has_bit, less, lowest, port_at, set_alike, set_of, some_below, union_from, word};

use crate::channels::{Inputs, Links};
use crate::frame::Frame;
use crate::over_links::put_four;
use crate::planes::less;
use crate::ports::Ports;
use crate::words::{GROUP, WORDS, Words};

/// What the sources do with the local channels.
#[derive(Drop)]
pub struct Injection<T> {
    /// The channel of the packet that is being injected.
    pub injecting: T,
    /// It, where a flit is injected.
    pub went: T,
    /// The channel in which the next packet begins.
    pub begun: T,
}

/// Of a packet that is being injected a flit goes into its channel, where that is not full. Of
/// these routers, whose next packet is due, those that inject none begin it in the first local
/// channel that is free. The answer is the routers in which a flit is injected of a packet that has
/// begun, and those in which one begins.
#[inline(always)]
pub fn inject(
    frame: &Frame,
    local: &Ports,
    due: u64,
    inputs: &Inputs<Words>,
    injection: &mut Injection<Words>,
) -> (u64, u64)
    requires { local.now.width ≡ 1 }
    ensures injecting { injection.new.injecting ≡ injection.old.injecting }
    ensures went { (r : ℕ) (c : Column) → set_of (port_at local.now 0) r injection.new.went
        ≡ lane_injected
        (list_of frame.now.deep (planes_by (set_alike (port_at local.now 0) r) frame.now.places))
        (with_source frame.now.deep (inputs_by (set_of (port_at local.now 0) r) inputs.now)
        (set_of (port_at local.now 0) r injection.old.injecting) c) }
    ensures begun { (r cycle due_at : ℕ) (c : Column) → has_bit due r ≡ nat_le due_at cycle
        → set_of (port_at local.now 0) r injection.new.begun
        ≡ lowest (lane_begins (all_of (port_at local.now 0)) cycle due_at
        (with_source frame.now.deep (inputs_by (set_of (port_at local.now 0) r) inputs.now)
        (set_of (port_at local.now 0) r injection.old.injecting) c)) }
    ensures some_went { (r : ℕ) → has_bit result.0 r
        ≡ not (nat_eq (set_of (port_at local.now 0) r injection.new.went) 0) }
    ensures some_begun { (r : ℕ) → has_bit result.1 r
        ≡ not (nat_eq (set_of (port_at local.now 0) r injection.new.begun) 0) }
{
    let busy = some_of(local, &injection.injecting);
    let starts = less(due, busy);
    let went = if frame.deep {
        inject_each(frame, true, local, starts, inputs, injection)
    } else {
        inject_each(frame, false, local, starts, inputs, injection)
    };
    let begins = begin_first(local, starts, &mut injection.begun);
    (went, begins)
}

// In each local channel a flit of its packet is injected, where that is not full, and it is told
// in which of these routers it is free. The answer is the routers in which a flit is injected. (It
// is told whether counts are deep, so that each of both loops has one kind of count.)
#[inline(always)]
fn inject_each(
    frame: &Frame,
    deep: bool,
    local: &Ports,
    starts: u64,
    inputs: &Inputs<Words>,
    injection: &mut Injection<Words>,
) -> u64
    requires { local.now.width ≡ 1 }
    ensures injecting { injection.new.injecting ≡ injection.old.injecting }
    ensures went { (v : ℕ) → v < local.now.vcs
        → word (local.now.first + v) injection.new.went
        ≡ bit_and (word (local.now.first + v) injection.old.injecting) (wrong_from 0
        (list_of deep (planes_by (word (local.now.first + v)) inputs.now.len))
        (list_of deep frame.now.places)) }
    ensures free { (v : ℕ) → v < local.now.vcs
        → word (local.now.first + v) injection.new.begun
        ≡ less starts (bit_or (bit_or (word (local.now.first + v) inputs.now.waiting)
        (word (local.now.first + v) inputs.now.active)) (any_from 0
        (list_of deep (planes_by (word (local.now.first + v)) inputs.now.len)))) }
    ensures some { (r : ℕ) → has_bit result r
        ≡ some_below local.now.vcs
        (λ v. has_bit (word (local.now.first + v) injection.new.went) r) }
{
    // (Both are copied, so that the compiler takes several words at a time.)
    let places = frame.places;
    let first = local.first;
    let mut some = 0;
    for v in 0..local.vcs {
        let i = first + v;
        let had = inputs.at(i);
        let went = injection.injecting[i] & had.len.other_than(deep, &places);
        injection.went[i] = went;
        injection.begun[i] = less(starts, had.waiting | had.active | had.len.some(deep, 0));
        some = some | went;
    }
    some
}

// Of the local channels that are free in these routers the first of each router stays. The answer
// is the routers that have one. (Mostly there are none.)
fn begin_first(local: &Ports, starts: u64, begun: &mut Words) -> u64
    requires width { local.now.width ≡ 1 }
    requires none { starts ≡ 0 → (v : ℕ) → v < local.now.vcs
        → word (local.now.first + v) begun.old ≡ 0 }
    ensures begun { (v : ℕ) → v < local.now.vcs
        → word (local.now.first + v) begun.new
        ≡ less (word (local.now.first + v) begun.old)
        (union_from 0 v (λ k. word (local.now.first + k) begun.old)) }
    ensures some { result
        ≡ union_from 0 local.now.vcs (λ v. word (local.now.first + v) begun.old) }
{
    if starts == 0 {
        return 0;
    }
    let mut before = 0;
    for v in 0..local.vcs {
        let i = local.first + v;
        let free = begun[i];
        begun[i] = less(free, before);
        before = before | free;
    }
    before
}

// The routers that have a channel of the local port in these words.
#[inline(always)]
fn some_of(local: &Ports, words: &Words) -> u64
    requires { local.now.width ≡ 1 }
    ensures { (r : ℕ) → has_bit result r
        ≡ some_below local.now.vcs
        (λ c. has_bit (word ((port_at local.now 0).index c) words.now) r) }
{
    let mut some = 0;
    for v in 0..local.vcs {
        some = some | words[local.first + v];
    }
    some
}

/// What is injected comes to the local channels. In these routers it is the last flit of its
/// packet, whose channel injects no more. (Four words are taken at a time, so up to three behind
/// those of the local channels are written too.)
#[inline(always)]
pub fn bring(local: &Ports, last: u64, injection: &mut Injection<Words>, came: &mut Links<Words>)
    requires width { local.now.width ≡ 1 }
    requires room { local.now.first + local.now.vcs + GROUP ≤ WORDS }
    ensures flits { (r : ℕ) → set_of (port_at local.now 0) r came.new.flits
        ≡ bit_or (set_of (port_at local.now 0) r injection.old.went)
        (set_of (port_at local.now 0) r injection.old.begun) }
    ensures tails { (r : ℕ) → set_of (port_at local.now 0) r came.new.tails
        ≡ (if has_bit last r then set_of (port_at local.now 0) r came.new.flits else 0) }
    ensures injecting { (r : ℕ) → set_of (port_at local.now 0) r injection.new.injecting
        ≡ less (bit_or (set_of (port_at local.now 0) r injection.old.injecting)
        (set_of (port_at local.now 0) r injection.old.begun))
        (set_of (port_at local.now 0) r came.new.tails) }
    ensures rest { injection.new
        ≡ record injection.old { injecting = injection.new.injecting } }
    ensures links { (k : ℕ) → k < local.now.first
        → (word k came.new.flits ≡ word k came.old.flits)
        × (word k came.new.tails ≡ word k came.old.tails) }
    ensures credits { came.new.credits ≡ came.old.credits }
{
    for g in 0..(local.vcs + GROUP - 1) / GROUP {
        bring_four(local.first + GROUP * g, last, injection, came);
    }
}

// What is injected comes to four channels, whose words begin here.
#[inline(always)]
fn bring_four(at: usize, last: u64, injection: &mut Injection<Words>, came: &mut Links<Words>)
    requires { at + GROUP ≤ WORDS }
    ensures flits { (j : ℕ) → j < GROUP → word (at + j) came.new.flits
        ≡ bit_or (word (at + j) injection.old.went) (word (at + j) injection.old.begun) }
    ensures tails { (j : ℕ) → j < GROUP
        → word (at + j) came.new.tails ≡ bit_and (word (at + j) came.new.flits) last }
    ensures injecting { (j : ℕ) → j < GROUP → word (at + j) injection.new.injecting
        ≡ less (bit_or (word (at + j) injection.old.injecting) (word (at + j) injection.old.begun))
        (word (at + j) came.new.tails) }
    ensures others { (k : ℕ) → (k < at) ⊎ (at + GROUP ≤ k)
        → (word k came.new.flits ≡ word k came.old.flits)
        × (word k came.new.tails ≡ word k came.old.tails)
        × (word k injection.new.injecting ≡ word k injection.old.injecting) }
    ensures rest { injection.new
        ≡ record injection.old { injecting = injection.new.injecting } }
    ensures credits { came.new.credits ≡ came.old.credits }
{
    let four = brought_four(at, last, injection);
    put_four(&mut came.flits, at, &four.flits);
    put_four(&mut came.tails, at, &four.tails);
    put_four(&mut injection.injecting, at, &four.injecting);
}

// What comes to four channels, and which of them still inject.
#[derive(Drop)]
struct Brought {
    flits: [u64; GROUP],
    tails: [u64; GROUP],
    injecting: [u64; GROUP],
}

// What is injected into four channels, whose words begin here.
#[inline(always)]
fn brought_four(at: usize, last: u64, injection: &Injection<Words>) -> Brought
    requires { at + GROUP ≤ WORDS }
    ensures flits { (j : ℕ) → j < GROUP → slice_index result.flits j
        ≡ bit_or (word (at + j) injection.now.went) (word (at + j) injection.now.begun) }
    ensures tails { (j : ℕ) → j < GROUP
        → slice_index result.tails j ≡ bit_and (slice_index result.flits j) last }
    ensures injecting { (j : ℕ) → j < GROUP → slice_index result.injecting j
        ≡ less (bit_or (word (at + j) injection.now.injecting) (word (at + j) injection.now.begun))
        (slice_index result.tails j) }
{
    let mut four = Brought {
        flits: [0; GROUP],
        tails: [0; GROUP],
        injecting: [0; GROUP],
    };
    for j in 0..GROUP {
        let i = at + j;
        let begun = injection.begun[i];
        let flits = injection.went[i] | begun;
        let tails = flits & last;
        four.flits[j] = flits;
        four.tails[j] = tails;
        four.injecting[j] = less(injection.injecting[i] | begun, tails);
    }
    four
}
