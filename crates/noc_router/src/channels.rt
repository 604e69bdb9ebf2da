//! The buffers, input channels and output channels of one router.

ghost use Rattle.std.specs.Prelude.{◌≡◌, ◌≤◌, ◌<◌, ◌-◌, ◌++◌, ◌&&◌, true, false, find, None, IfOk, length, nat_lt, not, Some, slice_get, vec_len, if◌then◌else◌, replicate};
ghost use Rattle.noc_topo.specs.Shape.{nodes as nodes_of, ports as ports_of};
ghost use Rattle.noc_topo.specs.Lists.{below};
ghost use Rattle.noc_packet.specs.Set.{has_bit};
ghost use Rattle.noc_packet.specs.declared.limits.TheConstants.{INDICES};
ghost use Rattle.noc_ring.specs.Buffers.{buffer_at};
ghost use Rattle.noc_vc.specs.Input.{idle_input, is_idle_phase, is_empty, fits};
ghost use Rattle.noc_vc.specs.Output.{ejection_output, link_output, is_free, is_owned, has_credit, credit_fits, output_after_spend};
ghost use Rattle.noc_router.specs.Members.{is_within};
ghost use Rattle.noc_router.specs.Sound.{nth_input, nth_output, CanHold, CanInject, CanRoute, CanSend, KeepsAwaiting, AreSizes, AreSound};
ghost use Rattle.noc_router.specs.Settled.{finding_by};

use crate::plan::Plan;
use noc_packet::{ChannelSet, Flit, Memory};
use noc_ring::Bank;
use noc_vc::{InputChannel, InputState, Landing, OutputChannel, OutputState};
use noc_view::Finding;
use std::alloc::Global;

/// The channels of one router, by index: port * V + virtual channel.
#[derive(Drop)]
pub(crate) struct Channels {
    size: usize,
    pub(crate) bank: Bank,
    inputs: Vec<InputChannel>,
    outputs: Vec<OutputChannel>,
    ghost few: { size ≤ INDICES },
    ghost a_ring_each: { length bank.rings ≡ size },
    ghost an_input_each: { vec_len inputs ≡ size },
    ghost an_output_each: { vec_len outputs ≡ size },
    ghost some_depth: { 0 < bank.capacity },
    ghost sound: { AreSound size bank.rings inputs.items outputs.items },
}

impl Channels {
    ghost use Rattle.noc_router.specs.Parts.{opening_states, states_after_credit, states_after_grant, states_after_land, states_after_route, states_after_send, states_in};

    // Empty channels with buffers of this depth: the first `links` output channels go on links, the
    // others are ejection channels.
    pub(crate) fn new(
        alloc: Global,
        size: usize,
        links: usize,
        depth: usize,
    ) -> Result<Channels, Memory>
        requires { AreSizes size links depth }
        ensures { IfOk result (λ channels. states_in channels ≡ opening_states size links depth) }
    {
        let inputs = idle_inputs(alloc, size)?;
        let outputs = idle_outputs(alloc, size, links, depth)?;
        let bank = Bank::new(alloc, size, depth)?;
        Ok(Channels {
            size,
            bank,
            inputs,
            outputs,
        })
    }

    // Whether an input channel is idle with an empty buffer.
    pub(crate) fn is_vacant(&self, index: usize) -> bool
        requires { index < self.now.size }
        ensures { result ≡ (is_idle_phase (nth_input self.now.inputs.items index).phase
            && is_empty (buffer_at self.now.bank index)) }
    {
        match self.inputs[index].state() {
            InputState::Idle => !self.has_flit(index),
            _ => false,
        }
    }

    // Whether the buffer of an input channel holds a flit.
    pub(crate) fn has_flit(&self, index: usize) -> bool
        requires { index < self.now.size }
        ensures { result ≡ not (is_empty (buffer_at self.now.bank index)) }
    {
        self.bank.len(index) > 0
    }

    // Whether a flit can leave by an output channel: it has a credit, or is an ejection channel.
    pub(crate) fn has_credit(&self, index: usize) -> bool
        requires { index < self.now.size }
        ensures { result ≡ has_credit (nth_output self.now.outputs.items index) }
    {
        self.outputs[index].credit() != Some(0)
    }

    // A flit comes to the input channel with this index, which `landing` names. False where it does
    // not fit, and then nothing has changed.
    pub(crate) fn land(&mut self, index: usize, landing: &Landing<'_>, flit: &Flit) -> bool
        requires exists { index < self.old.size }
        requires router { landing.now.router < nodes_of landing.now.relation.now.grid }
        requires port { landing.now.port < ports_of landing.now.relation.now.grid }
        requires vc { landing.now.vc < landing.now.relation.now.vcs }
        ensures fits { result ≡ fits landing.now.relation.now landing.now.router landing.now.port
            landing.now.vc self.old.bank.capacity (buffer_at self.old.bank index)
            (nth_input self.old.inputs.items index) flit.now }
        ensures states { states_in self.new ≡ (if result
            then states_after_land index flit.now (states_in self.old) else states_in self.old) }
    {
        self.inputs[index]
            .land(&mut self.bank, index, landing, *flit)
            .is_ok()
    }

    // The source puts its next flit into the buffer of a local channel that has room: the head into
    // an empty one, and then the flits that the channel awaits.
    pub(crate) fn inject(&mut self, index: usize, flit: Flit)
        requires { CanInject self.old.size self.old.bank.capacity self.old.bank.rings
            self.old.inputs.items index }
        ensures { states_in self.new ≡ states_after_land index flit (states_in self.old) }
    {
        self.inputs[index].inject(&mut self.bank, index, flit);
    }

    // A credit arrives at an output channel. False where it does not fit, and
    // then nothing has changed.
    pub(crate) fn credit_back(&mut self, index: usize) -> bool
        requires { index < self.old.size }
        ensures fits { result ≡ credit_fits (nth_output self.old.outputs.items index) }
        ensures states { states_in self.new ≡ (if result
            then states_after_credit index (states_in self.old) else states_in self.old) }
    {
        self.outputs[index].credit_back().is_ok()
    }

    // The state of an input channel.
    pub(crate) fn state(&self, index: usize) -> InputState
        requires { index < self.now.size }
        ensures value { result ≡ (nth_input self.now.inputs.items index).phase }
        ensures within { is_within self.now.size result ≡ true }
    {
        self.inputs[index].state()
    }

    // The idle output channel of a set with the least index.
    pub(crate) fn least_idle(&self, set: ChannelSet) -> Option<usize>
        ensures { result
            ≡ find (λ o. has_bit set o && is_free (nth_output self.now.outputs.items o).holder)
            (below self.now.size) }
    {
        for output in 0..self.size {
            if self.is_idle_in(set, output) {
                return Some(output);
            }
        }
        None
    }

    // Whether an output channel is in a set, and idle.
    fn is_idle_in(&self, set: ChannelSet, output: usize) -> bool
        requires { output < self.now.size }
        ensures { result
            ≡ (has_bit set output && is_free (nth_output self.now.outputs.items output).holder) }
    {
        set.contains(output) && self.outputs[output].state() == OutputState::Idle
    }

    // Writes what is found of an input channel by a plan of these channels.
    pub(crate) fn find(&self, plan: &Plan, index: usize, vcs: usize, finding: &mut Finding)
        requires some { 0 < vcs }
        requires index { index < self.now.size }
        requires asks { length plan.now.asks ≡ self.now.size }
        requires verdicts { length plan.now.verdicts ≡ self.now.size }
        ensures { finding.new ≡ finding_by plan.now vcs self.now.inputs.items index }
    {
        let input = &self.inputs[index];
        *finding = Finding {
            verdict: plan.verdict(index),
            packet: input.packet(),
            out: None,
        };
        let out = match input.state() {
            InputState::Idle => None,
            InputState::Waiting(_) => plan.ask(index),
            InputState::Active(next) => Some(next),
        };
        if let Some(next) = out {
            finding.out = Some((next / vcs, next % vcs));
        }
    }

    // Whether the buffer of an input channel has room for a flit.
    pub(crate) fn has_room(&self, index: usize) -> bool
        requires { index < self.now.size }
        ensures { result ≡ nat_lt (length (buffer_at self.now.bank index)) self.now.bank.capacity }
    {
        !self.bank.is_full(index)
    }

    // The head in the buffer of an idle input channel gets its set of output channels.
    pub(crate) fn route(&mut self, index: usize, set: ChannelSet)
        requires { CanRoute self.old.size self.old.bank.rings self.old.inputs.items index }
        ensures states { states_in self.new ≡ states_after_route index set (states_in self.old) }
        ensures awaits { KeepsAwaiting self.old.inputs.items self.new.inputs.items }
    {
        self.inputs[index].route(set);
    }

    // A waiting input channel gets an idle output channel.
    pub(crate) fn grant(&mut self, index: usize, next: usize)
        requires { CanHold self.old.size self.old.inputs.items self.old.outputs.items index next }
        ensures states { states_in self.new ≡ states_after_grant index next (states_in self.old) }
        ensures awaits { KeepsAwaiting self.old.inputs.items self.new.inputs.items }
    {
        let input = &mut self.inputs[index];
        self.outputs[next].hold(index, input.packet().unwrap_or(0));
        input.grant(next);
    }

    // The first flit of an input channel leaves by the output channel that its packet
    // owns, which has a credit.
    pub(crate) fn send(&mut self, index: usize, next: usize) -> Flit
        requires { CanSend self.old.size self.old.bank.rings self.old.inputs.items
            self.old.outputs.items index next }
        ensures value { slice_get (buffer_at self.old.bank index) 0 ≡ Some result }
        ensures states { states_in self.new
            ≡ states_after_send index next result (states_in self.old) }
        ensures awaits { KeepsAwaiting self.old.inputs.items self.new.inputs.items }
    {
        let flit = self.inputs[index].send(&mut self.bank, index);
        spend(&mut self.outputs[next], flit.last);
        flit
    }
}

// A flit leaves by an owned output channel that has a credit, the tail or another.
fn spend(output: &mut OutputChannel, last: bool)
    requires owned { is_owned output.old.holder ≡ true }
    requires credit { has_credit output.old ≡ true }
    ensures { output.new ≡ output_after_spend last output.old }
{
    if output.credit().is_some() {
        output.spend(last);
    } else if last {
        output.release();
    }
}

// So many idle input channels.
fn idle_inputs(alloc: Global, size: usize) -> Result<Vec<InputChannel>, Memory>
    ensures { IfOk result (λ inputs. inputs.items ≡ replicate size idle_input) }
{
    let mut inputs = Vec::new(alloc);
    inputs.resize(size, InputChannel::new())?;
    Ok(inputs)
}

// Idle output channels, of which the first `links` go on links.
fn idle_outputs(
    alloc: Global,
    size: usize,
    links: usize,
    depth: usize,
) -> Result<Vec<OutputChannel>, Memory>
    requires { AreSizes size links depth }
    ensures { IfOk result (λ outputs. outputs.items
        ≡ replicate links (link_output depth) ++ replicate (size - links) ejection_output) }
{
    let mut outputs = Vec::new(alloc);
    outputs.resize(links, OutputChannel::link(depth))?;
    outputs.resize(size, OutputChannel::ejection())?;
    Ok(outputs)
}
