//! Blocks before the first cycle.

ghost use Rattle.std.specs.Prelude.{◌≡◌, ℕ, ◌+◌, ◌-◌, ◌*◌, ◌^◌, ◌<◌, ◌≤◌, IfOk, [], replicate, slice_index, slice_index_or};
ghost use Rattle.noc_columns.specs.Channels.{inputs_by, outputs_by};
ghost use Rattle.noc_columns.specs.Sources.{AreDue, source_in};
ghost use Rattle.noc_cycles.specs.Opened.{AreEmptyWorks, AreOpened, IsOpened, first_in, free_outputs, no_inputs};

use crate::block::{Block, Work};
use crate::first::First;
use crate::nothing::{NO_BLOCK, NO_WORK, NONE_LEFT};
use crate::pattern::Pattern;
use noc_columns::{CHANNELS, Frame, Inputs, Marks, NEVER, Outputs, ROUTERS, Sources, WORDS, Words};
use noc_packet::Memory;
use noc_topo::MAX_NODES;
use std::alloc::Global;

// Room for so many blocks takes more than 2 MiB, so that the list is mapped by itself.
const LEAST_BLOCKS: usize = 18;

// As much room for what so many blocks work out.
const LEAST_WORKS: usize = 203;

/// So many blocks before the first cycle, where these are the first packets of all routers. (Each
/// is opened where it stands, since it takes 118 kB.)
pub fn open_blocks(
    alloc: Global,
    pattern: &Pattern,
    firsts: &[First],
    count: usize,
) -> Result<Vec<Block>, Memory>
    requires { ROUTERS * count ≤ MAX_NODES }
    ensures { IfOk result (λ blocks. AreOpened pattern.now firsts.now count blocks.items) }
{
    let mut blocks = Vec::with_capacity(alloc, count.max(LEAST_BLOCKS))?;
    for number in 0..count {
        blocks.push_reserved(NO_BLOCK);
        blocks[number].open(pattern, firsts, number);
    }
    Ok(blocks)
}

/// What so many blocks work out before the first cycle: nothing, and nothing comes to them.
pub fn empty_works(alloc: Global, count: usize) -> Result<Vec<Work>, Memory>
    ensures { IfOk result (λ works. AreEmptyWorks count works.items) }
{
    let mut works = Vec::with_capacity(alloc, count.max(LEAST_WORKS))?;
    for _ in 0..count {
        works.push_reserved(NO_WORK);
    }
    Ok(works)
}

impl Block {
    /// Opens the block with a number: no packet is in its routers, and each source is at its first
    /// one. (What was in the block does not matter.)
    pub fn open(&mut self, pattern: &Pattern, firsts: &[First], number: usize)
        requires { ROUTERS * number < MAX_NODES }
        ensures { IsOpened pattern.now firsts.now number self.new }
    {
        let ports = &pattern.table.ports;
        let channels = (ports.links.width + 1) * ports.links.vcs;
        open_inputs(&mut self.inputs);
        open_outputs(&pattern.frame, &mut self.outputs);
        self.switch.ahead = [u64::MAX; WORDS];
        self.injection.injecting = [0; WORDS];
        open_marks(channels, &mut self.marks);
        open_sources(firsts, ROUTERS * number, &mut self.sources);
    }
}

// No flit, and each pointer at the first channel.
fn open_inputs(inputs: &mut Inputs<Words>)
    ensures { inputs.new ≡ inputs_by (replicate WORDS) (no_inputs (2 ^ 64 - 1)) }
{
    inputs.waiting = [0; WORDS];
    inputs.active = [0; WORDS];
    inputs.ended = [0; WORDS];
    inputs.ahead = [u64::MAX; WORDS];
    inputs.len.ones = [0; WORDS];
    inputs.len.twos = [0; WORDS];
    inputs.len.fours = [0; WORDS];
    inputs.len.eights = [0; WORDS];
    inputs.len.sixteens = [0; WORDS];
}

// All credits.
fn open_outputs(frame: &Frame, outputs: &mut Outputs<Words>)
    ensures { outputs.new ≡ outputs_by (replicate WORDS) (free_outputs frame.now.places) }
{
    outputs.draining = [0; WORDS];
    outputs.credit.ones = [frame.places.ones; WORDS];
    outputs.credit.twos = [frame.places.twos; WORDS];
    outputs.credit.fours = [frame.places.fours; WORDS];
    outputs.credit.eights = [frame.places.eights; WORDS];
    outputs.credit.sixteens = [frame.places.sixteens; WORDS];
}

// Of so many channels none waits and all are idle, and each pointer is at the first channel.
fn open_marks(channels: usize, marks: &mut Marks)
    requires { channels < CHANNELS }
    ensures waiting { (r : ℕ) → r < ROUTERS → slice_index marks.new.waiting r ≡ 0 }
    ensures wanted { (r : ℕ) → r < ROUTERS → slice_index marks.new.wanted r ≡ 0 }
    ensures idle { (r : ℕ) → r < ROUTERS → slice_index marks.new.idle r ≡ 2 ^ channels - 1 }
    ensures turns { (r o : ℕ) → r < ROUTERS → o < CHANNELS
        → slice_index (slice_index_or marks.new.turns r []) o ≡ 2 ^ 64 - 1 }
{
    marks.waiting = [0; ROUTERS];
    marks.wanted = [0; ROUTERS];
    marks.idle = [(1 << channels as u32) - 1; ROUTERS];
    marks.asking = 0;
    open_turns(&mut marks.turns);
}

// Each pointer at the first channel.
fn open_turns(turns: &mut [[u64; CHANNELS]; ROUTERS])
    ensures { (r o : ℕ) → r < ROUTERS → o < CHANNELS
        → slice_index (slice_index_or turns.new r []) o ≡ 2 ^ 64 - 1 }
{
    for r in 0..ROUTERS {
        turns[r] = [u64::MAX; CHANNELS];
    }
}

// The sources of these routers, from the first on, are at their first packets.
fn open_sources(firsts: &[First], first: usize, sources: &mut Sources)
    requires { first < MAX_NODES }
    ensures sources { (r : ℕ) → r < ROUTERS → source_in sources.new r
        ≡ record {
          due = (first_in firsts.now (first + r)).due;
          left = 0;
          queue = (first_in firsts.now (first + r)).place;
        } }
    ensures due { AreDue 0 sources.new.due }
{
    sources.left = NONE_LEFT;
    open_queues(firsts, first, &mut sources.queue, &mut sources.due.at);
    sources.due.look(0);
}

// Where these packets are, and when they are due.
fn open_queues(firsts: &[First], first: usize, queue: &mut [u32; ROUTERS], due: &mut [u32; ROUTERS])
    requires { first < MAX_NODES }
    ensures queue { (r : ℕ) → r < ROUTERS
        → slice_index queue.new r ≡ (first_in firsts.now (first + r)).place }
    ensures due { (r : ℕ) → r < ROUTERS
        → slice_index due.new r ≡ (first_in firsts.now (first + r)).due }
{
    for r in 0..ROUTERS {
        let one = first_at(firsts, first + r);
        queue[r] = one.place;
        due[r] = one.due;
    }
}

// The first packet of a router, or none.
fn first_at(firsts: &[First], router: usize) -> First
    ensures { result ≡ first_in firsts.now router }
{
    if router < firsts.len() {
        firsts[router]
    } else {
        First {
            place: 0,
            due: NEVER,
        }
    }
}
