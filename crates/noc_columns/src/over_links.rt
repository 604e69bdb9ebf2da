//! What comes over the links: a word of the channel at the other end, turned and masked.

ghost use Rattle.std.specs.Prelude.{◌≡◌, ◌≢◌, ◌⊎◌, ◌<◌, ◌≤◌, ◌+◌, ◌-◌, ◌*◌, ◌%◌, ◌&&◌, ◌||◌, ℕ, List, bit_or, slice_index};
ghost use Rattle.noc_topo.specs.Shape.{opposite};
ghost use Rattle.noc_columns.specs.Channels.{links_by};
ghost use Rattle.noc_columns.specs.Near.{comes_from, comes_near};
ghost use Rattle.noc_columns.specs.Prelude.{has_bit, port_at, word};

use crate::channels::Links;
use crate::frame::Frame;
use crate::neighbours::{Far, Near, Neighbours};
use crate::ports::{PORTS, Ports};
use crate::words::{GROUP, ROUTERS, WORDS, Words};

/// What has left the routers of a block comes over the links within it.
#[inline(always)]
pub fn gather(frame: &Frame, near: &Near, left: &Links<Words>, came: &mut Links<Words>)
    ensures flits { (k r : ℕ) → k < GROUP * frame.now.link_groups → r < ROUTERS
        → has_bit (word k came.new.flits) r ≡ comes_near near.now left.now.flits k r }
    ensures tails { (k r : ℕ) → k < GROUP * frame.now.link_groups → r < ROUTERS
        → has_bit (word k came.new.tails) r ≡ comes_near near.now left.now.tails k r }
    ensures credits { (k r : ℕ) → k < GROUP * frame.now.link_groups → r < ROUTERS
        → has_bit (word k came.new.credits) r ≡ comes_near near.now left.now.credits k r }
{
    // (All three stand in one loop, with one test for rings in it. Else the compiler takes the same
    // word of four groups at a time, and moves words about. And all are read before one is written,
    // so that where neighbours stand is read once.)
    let rings = near.rings;
    for g in 0..frame.link_groups {
        let at = GROUP * g;
        let four = near_four(near, rings, left, at);
        put_four(&mut came.flits, at, &four.flits);
        put_four(&mut came.tails, at, &four.tails);
        put_four(&mut came.credits, at, &four.credits);
    }
}

/// What has left another block comes over the links to these neighbours, besides what has come to
/// them already.
#[inline(always)]
pub fn gather_far(links: &Ports, far: &Far, left: &Links<Words>, came: &mut Links<Words>)
    requires first { links.now.first ≡ 0 }
    requires port { far.now.port < links.now.width }
    requires opposite { opposite far.now.port < links.now.width }
    ensures flits { (v r : ℕ) → v < links.now.vcs → r < ROUTERS
        → has_bit (word ((port_at links.now far.now.port).index v) came.new.flits) r
        ≡ (has_bit (word ((port_at links.now far.now.port).index v) came.old.flits) r
        || comes_from far.now.distance far.now.mask
        (word ((port_at links.now (opposite far.now.port)).index v) left.now.flits) r) }
    ensures tails { (v r : ℕ) → v < links.now.vcs → r < ROUTERS
        → has_bit (word ((port_at links.now far.now.port).index v) came.new.tails) r
        ≡ (has_bit (word ((port_at links.now far.now.port).index v) came.old.tails) r
        || comes_from far.now.distance far.now.mask
        (word ((port_at links.now (opposite far.now.port)).index v) left.now.tails) r) }
    ensures credits { (v r : ℕ) → v < links.now.vcs → r < ROUTERS
        → has_bit (word ((port_at links.now far.now.port).index v) came.new.credits) r
        ≡ (has_bit (word ((port_at links.now far.now.port).index v) came.old.credits) r
        || comes_from far.now.distance far.now.mask
        (word ((port_at links.now (opposite far.now.port)).index v) left.now.credits) r) }
    ensures others { (k : ℕ)
        → ((v : ℕ) → v < links.now.vcs → k ≢ (port_at links.now far.now.port).index v)
        → links_by (word k) came.new ≡ links_by (word k) came.old }
{
    // (All three stand in one loop, so that where a channel stands is worked out once. Where the
    // neighbours stand is read before it, since the compiler takes it that what is written may be
    // just that.)
    let width = links.width;
    let port = far.port;
    let other = opposite(port);
    let distance = far.distance;
    let mask = far.mask;
    for v in 0..links.vcs {
        let from = v * width + other;
        let to = v * width + port;
        join_far(distance, mask, &left.flits, from, &mut came.flits, to);
        join_far(distance, mask, &left.tails, from, &mut came.tails, to);
        join_far(distance, mask, &left.credits, from, &mut came.credits, to);
    }
}

// The words of the channels at the other ends of four links.
#[inline(always)]
fn opposite_four(from: &Words, at: usize) -> [u64; GROUP]
    requires fit { at + GROUP ≤ WORDS }
    requires even { at % 2 ≡ 0 }
    ensures { (j : ℕ) → j < GROUP → slice_index result j ≡ word (opposite (at + j)) from.now }
{
    [from[at + 1], from[at], from[at + 3], from[at + 2]]
}

// What comes by four links from neighbours at both distances.
#[inline(always)]
fn near_four(near: &Near, rings: bool, left: &Links<Words>, at: usize) -> Links<[u64; GROUP]>
    requires rings { rings ≡ near.now.rings }
    requires fit { at + GROUP ≤ WORDS }
    requires even { at % 2 ≡ 0 }
    ensures { (j r : ℕ) → j < GROUP → r < ROUTERS
        → links_by (λ (four : List ℕ). has_bit (slice_index four j) r) result
        ≡ links_by (λ (sent : List ℕ). comes_near near.now sent (at + j) r) left.now }
{
    let sent = Links {
        flits: opposite_four(&left.flits, at),
        tails: opposite_four(&left.tails, at),
        credits: opposite_four(&left.credits, at),
    };
    let straight = turned_links(&near.straight, &sent, at);
    if rings {
        let round = turned_links(&near.round, &sent, at);
        Links {
            flits: join_four(&straight.flits, &round.flits),
            tails: join_four(&straight.tails, &round.tails),
            credits: join_four(&straight.credits, &round.credits),
        }
    } else {
        straight
    }
}

// What comes by four links from neighbours at one distance.
#[inline(always)]
fn turned_links(
    neighbours: &Neighbours,
    sent: &Links<[u64; GROUP]>,
    at: usize,
) -> Links<[u64; GROUP]>
    requires { at + GROUP ≤ WORDS }
    ensures { (j r : ℕ) → j < GROUP → r < ROUTERS
        → links_by (λ (four : List ℕ). has_bit (slice_index four j) r) result
        ≡ links_by (λ (four : List ℕ). comes_from (word (at + j) neighbours.now.distance)
        (word (at + j) neighbours.now.mask) (slice_index four j) r) sent.now }
{
    Links {
        flits: turned_four(neighbours, &sent.flits, at),
        tails: turned_four(neighbours, &sent.tails, at),
        credits: turned_four(neighbours, &sent.credits, at),
    }
}

// What so comes of the words of one kind.
#[inline(always)]
fn turned_four(neighbours: &Neighbours, sent: &[u64; GROUP], at: usize) -> [u64; GROUP]
    requires { at + GROUP ≤ WORDS }
    ensures { (j r : ℕ) → j < GROUP → r < ROUTERS
        → has_bit (slice_index result j) r
        ≡ comes_from (word (at + j) neighbours.now.distance) (word (at + j) neighbours.now.mask)
        (slice_index sent.now j) r }
{
    let mut all = [0; GROUP];
    for j in 0..GROUP {
        all[j] = turned(
            sent[j],
            neighbours.distance[at + j],
            neighbours.back[at + j],
            neighbours.mask[at + j],
        );
    }
    all
}

// Four words that are joined.
#[inline(always)]
fn join_four(first: &[u64; GROUP], second: &[u64; GROUP]) -> [u64; GROUP]
    ensures { (j : ℕ) → j < GROUP
        → slice_index result j ≡ bit_or (slice_index first.now j) (slice_index second.now j) }
{
    let mut all = [0; GROUP];
    for j in 0..GROUP {
        all[j] = first[j] | second[j];
    }
    all
}

// Writes four words, from this index on.
#[inline(always)]
pub(crate) fn put_four(words: &mut Words, at: usize, four: &[u64; GROUP])
    requires { at + GROUP ≤ WORDS }
    ensures here { (j : ℕ) → j < GROUP → word (at + j) words.new ≡ slice_index four.now j }
    ensures others { (k : ℕ) → (k < at) ⊎ (at + GROUP ≤ k) → word k words.new ≡ word k words.old }
{
    for j in 0..GROUP {
        words[at + j] = four[j];
    }
}

// A word of one kind with the one of a channel at the other end of a link, from another block.
#[inline(always)]
fn join_far(distance: u64, mask: u64, from: &Words, other: usize, to: &mut Words, index: usize)
    requires near { distance < ROUTERS }
    requires other { other < WORDS }
    requires index { index < WORDS }
    ensures here { (r : ℕ) → r < ROUTERS → has_bit (word index to.new) r
        ≡ (has_bit (word index to.old) r
        || comes_from distance mask (word other from.now) r) }
    ensures others { (k : ℕ) → k ≢ index → word k to.new ≡ word k to.old }
{
    to[index] = to[index] | turned_alone(from[other], distance, mask);
}

/// The port at the other end of a link.
#[inline(always)]
pub fn opposite(port: usize) -> usize
    requires { port < PORTS }
    ensures { result ≡ opposite port }
{
    port ^ 1
}

// Each of these routers gets what the one has that stands so far from it.
#[inline(always)]
fn turned_alone(word: u64, distance: u64, mask: u64) -> u64
    requires { distance < ROUTERS }
    ensures { (r : ℕ) → r < ROUTERS → has_bit result r ≡ comes_from distance mask word r }
{
    word.rotate_right(distance as u32) & mask
}

// Each of these routers gets what the one has that stands so far from it. (Of four words at a time
// there is no turn at once, so they go forth and back.)
#[inline(always)]
fn turned(word: u64, distance: u64, back: u64, mask: u64) -> u64
    requires near { distance < ROUTERS }
    requires back { back ≡ (ROUTERS - distance) % ROUTERS }
    ensures { (r : ℕ) → r < ROUTERS → has_bit result r ≡ comes_from distance mask word r }
{
    ((word >> distance) | (word << back)) & mask
}
