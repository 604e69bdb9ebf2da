//! A tile of a network: some of its blocks, side by side.

ghost use Rattle.std.specs.Prelude.{◌≡◌, ℕ, ◌+◌, ◌<◌, ◌≤◌, ◌||◌, Bool, false, true, length, nat_eq, vec_capacity, if◌then◌else◌};
ghost use Rattle.noc_engine.specs.Prelude.{AreNear, HasRunTile, HasStepped, HasTurnedTile, IsTold, MayRunTile, Router, Setup, Turn, has_block};

use crate::exchange::Told;
use crate::passes::{arrive_blocks, count_all, gather_all, keep, tell_all, turn_all};
use crate::plan::Plan;
use crate::turn::Cycle;
use noc_columns::{Links, Words};
use noc_counts::Counts;
use noc_cycles::{Block, Note, Work, hear};
use noc_route::Relation;

/// Some blocks of a network, side by side, as one thread runs them.
#[derive(Drop)]
pub struct Tile {
    /// The number of the first of its blocks.
    pub first: usize,
    /// What each of them holds.
    pub blocks: Vec<Block>,
    /// What each works out in a cycle, and what its links have brought it for the next one.
    pub works: Vec<Work>,
    /// What was counted of each.
    pub counts: Vec<Counts>,
    /// What each has told in the last cycle.
    pub notes: Vec<Vec<Note>>,
    /// What has left each block of the network in it, as far as it was told.
    pub left: Vec<Links<Words>>,
    /// By packet of the network, the cycle in which its tail was out, `NEVER` before that: of
    /// those that end in these blocks.
    pub arrivals: Vec<u32>,
    /// The cycle after the one in which something last happened in these blocks, 0 before the
    /// first such.
    pub last: u32,
    /// How many cycles have run.
    pub cycle: u32,
}

impl Tile {
    /// Has its blocks go through a cycle, by the relation that the network was made for. What they
    /// tell is noted, and nobody has heard it.
    pub fn turn(&mut self, plan: &Plan, relation: &Relation)
        requires { (net : Setup) × (n : ℕ) × (words : ℕ → Router)
            × MayRunTile net relation.now plan.now n words self.old }
        ensures { (net : Setup) (n : ℕ) (words : ℕ → Router)
            → MayRunTile net relation.now plan.now n words self.old → (turns : ℕ → Turn)
            × HasTurnedTile net plan.now n words turns self.old self.new }
    {
        let blocks = self.blocks.as_mut_slice();
        let works = self.works.as_mut_slice();
        let left = self.left.as_mut_slice();
        let cycle = Cycle {
            plan,
            relation,
            number: self.cycle,
        };
        let happened = turn_all(&cycle, self.first, blocks, works, left);
        arrive_blocks(&cycle, blocks, works, self.arrivals.as_mut_slice());
        tell_all(plan, self.first, blocks, self.notes.as_mut_slice());
        count_all(plan, blocks, works, self.counts.as_mut_slice());
        self.cycle += 1;
        self.last = last_after(happened, self.cycle, self.last);
    }

    /// Its blocks hear what they have told each other.
    pub fn hear_own(&mut self)
        ensures { (net : Setup) (plan : Plan) (n : ℕ) (words : ℕ → Router) (turns : ℕ → Turn)
            (was : Tile) → HasRunTile net plan n (λ b. false) words turns was self.old
            → HasRunTile net plan n (has_block self.old) words turns was self.new }
    {
        let blocks = self.blocks.as_mut_slice();
        for number in 0..self.notes.len() {
            hear(self.first, &self.notes[number], blocks);
        }
    }

    /// Writes what one of its blocks, by its number in the network, tells the others in the cycle
    /// that it has run.
    pub fn tell(&self, block: usize, told: &mut Told)
        requires block { has_block self.now block ≡ true }
        requires ran { (net : Setup) × (plan : Plan) × (n : ℕ) × (from : ℕ → Bool)
            × (words : ℕ → Router) × (turns : ℕ → Turn) × (was : Tile)
            × HasRunTile net plan n from words turns was self.now }
        ensures block { told.new.block ≡ block }
        ensures told { (net : Setup) (plan : Plan) (n : ℕ) (from : ℕ → Bool) (words : ℕ → Router)
            (turns : ℕ → Turn) (was : Tile) → HasRunTile net plan n from words turns was self.now
            → IsTold net plan n told.new }
    {
        told.block = block;
        keep(&self.left[block], &mut told.left);
        copy(&self.notes[block - self.first], &mut told.notes);
    }

    /// Its blocks hear what another block tells in the cycle that they have run.
    pub fn hear(&mut self, told: &Told)
        requires { (net : Setup) × (plan : Plan) × (n : ℕ) × (from : ℕ → Bool)
            × (words : ℕ → Router) × (turns : ℕ → Turn) × (was : Tile)
            × HasRunTile net plan n from words turns was self.old
            × IsTold net plan n told.now }
        ensures { (net : Setup) (plan : Plan) (n : ℕ) (from : ℕ → Bool) (words : ℕ → Router)
            (turns : ℕ → Turn) (was : Tile)
            → HasRunTile net plan n from words turns was self.old → IsTold net plan n told.now
            → HasRunTile net plan n (λ b. from b || nat_eq b told.now.block) words turns was
            self.new }
    {
        keep(&told.left, &mut self.left[told.block]);
        hear(self.first, &told.notes, self.blocks.as_mut_slice());
    }

    /// What has left its blocks, and those near it, comes over the links.
    pub fn gather(&mut self, plan: &Plan)
        requires { (net : Setup) × (n : ℕ) × (from : ℕ → Bool) × (words : ℕ → Router)
            × (turns : ℕ → Turn) × (was : Tile)
            × HasRunTile net plan.now n from words turns was self.old }
        ensures { (net : Setup) (n : ℕ) (from : ℕ → Bool) (words : ℕ → Router) (turns : ℕ → Turn)
            (was : Tile) → HasRunTile net plan.now n from words turns was self.old
            → ((b : ℕ) → has_block self.old b ≡ true → from b ≡ true)
            → AreNear net self.old from
            → (next : ℕ → Router) × HasStepped net plan.now n words next was self.new }
    {
        gather_all(plan, self.first, &self.left, self.works.as_mut_slice());
    }

    /// Whether something has happened in it in the last cycle.
    pub fn is_busy(&self) -> bool
        ensures { result ≡ nat_eq self.now.last self.now.cycle }
    {
        self.last == self.cycle
    }
}

// The cycle after the last event: this one, where something has happened.
fn last_after(happened: bool, cycle: u32, last: u32) -> u32
    ensures { result ≡ (if happened then cycle else last) }
{
    if happened { cycle } else { last }
}

// Notes are copied to where there is room for them.
fn copy(from: &[Note], to: &mut Vec<Note>)
    requires { length from.now ≤ vec_capacity to.old }
    ensures same { to.new.items ≡ from.now }
    ensures room { vec_capacity to.old ≤ vec_capacity to.new }
{
    to.clear();
    let _ = to.extend_from_slice(from);
}
