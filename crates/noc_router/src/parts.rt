//! The parts of a new router.

ghost use Rattle.std.specs.Prelude.{◌≡◌, ◌*◌, ◌-◌, ◌<◌, ◌≤◌, IfOk};
ghost use Rattle.noc_packet.specs.declared.limits.TheConstants.{MAX_BUFFER};
ghost use Rattle.noc_router.specs.Arbiters.{IsSizedRouter, SizedArbiters, sized_arbiters_in};
ghost use Rattle.noc_router.specs.Parts.{opening_states, states_in};
ghost use Rattle.noc_router.specs.Tally.{empty_tally};
ghost use Rattle.noc_view.specs.Verdict.{opening_arbiters};

use crate::arbiters::Arbiters;
use crate::channels::Channels;
use crate::tally::VerdictTally;
use noc_packet::Memory;
use std::alloc::Global;

// The channels, the counts and the arbiters of a router before its first cycle.
pub(crate) fn new_parts(
    alloc: Global,
    ports: usize,
    vcs: usize,
    depth: usize,
) -> Result<(Channels, VerdictTally, Arbiters), Memory>
    requires sized { IsSizedRouter ports vcs }
    requires some_depth { 0 < depth }
    requires depth { depth ≤ MAX_BUFFER }
    ensures channels { IfOk result (λ parts. states_in parts.0
        ≡ opening_states (ports * vcs) ((ports - 1) * vcs) depth) }
    ensures tally { IfOk result (λ parts. parts.1 ≡ empty_tally (ports * vcs)) }
    ensures arbiters { let sized : SizedArbiters =
        record { ports = ports; vcs = vcs; states = opening_arbiters ports vcs } in
        IfOk result (λ parts. sized_arbiters_in parts.2 ≡ sized) }
{
    let channels = Channels::new(alloc, ports * vcs, (ports - 1) * vcs, depth)?;
    let tally = VerdictTally::new(alloc, ports * vcs)?;
    let arbiters = Arbiters::new(alloc, ports, vcs)?;
    Ok((channels, tally, arbiters))
}
