//! The arbiters of one router.

ghost use Rattle.std.specs.Prelude.{◌≡◌, ◌*◌, ◌<◌, ◌≤◌, All, IfOk, replicate, vec_len};
ghost use Rattle.noc_packet.specs.declared.limits.TheConstants.{INDICES};
ghost use Rattle.noc_alloc.specs.Arbiter.{RoundRobin};
ghost use Rattle.noc_router.specs.Decided.{IsDecidedFor};
ghost use Rattle.noc_view.specs.Verdict.{arbiters_after, opening_arbiters};

use crate::plan::Plan;
use noc_alloc::{Arbiter, advance_channels, advance_switch};
use noc_packet::Memory;
use std::alloc::Global;

/// An arbiter over all input channels for each output channel, one over its channels for each input
/// port, and one over the input ports for each output port (Dally and Towles, chapters 18 and 19).
#[derive(Drop)]
pub(crate) struct Arbiters {
    pub(crate) ports: usize,
    pub(crate) vcs: usize,
    pub(crate) channels: Vec<Arbiter>,
    pub(crate) inputs: Vec<Arbiter>,
    pub(crate) outputs: Vec<Arbiter>,
    ghost one_each_channel: { vec_len channels ≡ ports * vcs },
    ghost one_each_input: { vec_len inputs ≡ ports },
    ghost one_each_output: { vec_len outputs ≡ ports },
    ghost over_channels: { All (λ arbiter. arbiter.size ≡ ports * vcs) channels.items },
    ghost over_vcs: { All (λ arbiter. arbiter.size ≡ vcs) inputs.items },
    ghost over_ports: { All (λ arbiter. arbiter.size ≡ ports) outputs.items },
}

impl Arbiters {
    ghost use Rattle.noc_router.specs.Arbiters.{IsSizedRouter, arbiter_states_in, sized_arbiters_in};

    pub(crate) fn new(alloc: Global, ports: usize, vcs: usize) -> Result<Arbiters, Memory>
        requires { IsSizedRouter ports vcs }
        ensures { IfOk result (λ arbiters. sized_arbiters_in arbiters
            ≡ record { ports = ports; vcs = vcs; states = opening_arbiters ports vcs }) }
    {
        let channels = opening(alloc, ports * vcs, ports * vcs)?;
        let inputs = opening(alloc, ports, vcs)?;
        let outputs = opening(alloc, ports, ports)?;
        Ok(Arbiters {
            ports,
            vcs,
            channels,
            inputs,
            outputs,
        })
    }

    // The pointers go on past those who have won.
    pub(crate) fn advance(&mut self, plan: &Plan)
        requires { IsDecidedFor self.old.ports self.old.vcs plan.now }
        ensures { sized_arbiters_in self.new
            ≡ record (sized_arbiters_in self.old) {
              states = arbiters_after plan.now.round (arbiter_states_in self.old);
            } }
    {
        advance_channels(plan.grants(), &mut self.channels);
        advance_switch(
            plan.picks(),
            plan.wins(),
            &mut self.inputs,
            &mut self.outputs,
        );
    }
}

// So many arbiters, each over so many requesters, with its pointer at 0.
fn opening(alloc: Global, count: usize, size: usize) -> Result<Vec<Arbiter>, Memory>
    requires some { 0 < size }
    requires few { size ≤ INDICES }
    ensures { let one : RoundRobin = record { size = size; pointer = 0 } in
        IfOk result (λ made. made.items ≡ replicate count one) }
{
    Ok(vec![in alloc; Arbiter::new(size); count]?)
}
