//! What a router decides in one cycle, on one frozen state.

ghost use Rattle.std.specs.Prelude.{◌≡◌, ℕ, ◌<◌, List, Option, not, length, take, true};
ghost use Rattle.noc_topo.specs.Shape.{ports as ports_of};
ghost use Rattle.noc_topo.specs.Lists.{tabulate};
ghost use Rattle.noc_vc.specs.Input.{is_empty};
ghost use Rattle.noc_vc.specs.Output.{has_credit};
ghost use Rattle.noc_router.specs.Decided.{verdict_at};
ghost use Rattle.noc_view.specs.View.{IsRelationOf, size_of, view_buffer, plan_contents, route_for, route_of, view_claim, view_output, view_round, view_stands, first_flit};
ghost use Rattle.noc_alloc.specs.Requests.{AllBelow};
ghost use Rattle.noc_view.specs.Verdict.{Holds, Round, ask_of, asks_of, ready_of, ready_port, verdict_of};

use crate::plan::Plan;
use crate::router::Router;
use noc_alloc::{allocate_channels, allocate_switch};
use noc_packet::{ChannelSet, INDICES, MAX_PORTS};
use noc_route::Relation;
use noc_vc::InputState;
use noc_view::Verdict;

impl Router {
    /// Writes into `plan` what every input channel asks for and what the arbiters
    /// decide. Nothing changes here.
    pub fn plan(&self, relation: &Relation, plan: &mut Plan)
        requires { IsRelationOf relation.now self.now }
        ensures value { plan.new ≡ plan_contents relation.now self.now }
        ensures picks { AllBelow self.now.site.vcs plan.new.round.picks }
    {
        let ports = self.ports;
        let size = ports * self.vcs;
        plan.ports = ports;
        plan.size = size;
        self.find_requests(relation, &mut plan.routes, &mut plan.asks, &mut plan.ready);
        self.grant_channels(&plan.asks[..size], &mut plan.grants);
        self.grant_ports(&plan.ready[..size], &mut plan.picks, &mut plan.wins);
        self.find_verdicts(
            &plan.asks[..size],
            &plan.grants[..size],
            &plan.picks[..ports],
            &plan.wins[..ports],
            &mut plan.verdicts,
        );
    }

    // What each input channel asks for: the set for its head, an output channel or an output port.
    fn find_requests(
        &self,
        relation: &Relation,
        routes: &mut [ChannelSet; INDICES],
        asks: &mut [Option<usize>; INDICES],
        ready: &mut [Option<usize>; INDICES],
    )
        requires relation { IsRelationOf relation.now self.now }
        ensures routes { take (size_of self.now.site) routes.new
            ≡ tabulate (size_of self.now.site) (route_of relation.now self.now) }
        ensures asks { take (size_of self.now.site) asks.new ≡ asks_of (view_stands self.now) }
        ensures ready { take (size_of self.now.site) ready.new
            ≡ ready_of self.now.site.vcs (view_stands self.now) }
    {
        for index in 0..self.ports * self.vcs {
            self.find_request(
                relation,
                index,
                &mut routes[index],
                &mut asks[index],
                &mut ready[index],
            );
        }
    }

    // What one input channel asks for: a head that is not routed a set, a packet that waits an
    // output channel, and a flit whose packet owns an output channel the port of that one.
    fn find_request(
        &self,
        relation: &Relation,
        index: usize,
        route: &mut ChannelSet,
        ask: &mut Option<usize>,
        ready: &mut Option<usize>,
    )
        requires relation { IsRelationOf relation.now self.now }
        requires index { index < size_of self.now.site }
        ensures route { route.new ≡ route_of relation.now self.now index }
        ensures ask { ask.new ≡ ask_of (view_claim self.now index) }
        ensures ready { ready.new
            ≡ ready_port self.now.site.vcs (view_claim self.now index)
            (not (is_empty (view_buffer self.now index))) }
    {
        *route = ChannelSet::empty();
        *ask = None;
        *ready = None;
        match self.channels.state(index) {
            InputState::Idle => {
                if self.channels.has_flit(index) {
                    *route = self.route_for(relation, index);
                }
            }
            InputState::Waiting(set) => *ask = self.channels.least_idle(set),
            InputState::Active(next) => *ready = self.ready_port(index, next),
        }
    }

    // The set for the first flit in the buffer of an input channel: none where its class or
    // destination does not exist. (The loop over all channels is not to grow by it.)
    #[inline(never)]
    fn route_for(&self, relation: &Relation, index: usize) -> ChannelSet
        requires relation { IsRelationOf relation.now self.now }
        requires index { index < size_of self.now.site }
        ensures { result ≡ route_for relation.now self.now index (first_flit self.now index) }
    {
        let Some(flit) = self.channels.bank.front(index) else {
            return ChannelSet::empty();
        };
        let class = usize::from(flit.class);
        let destination = usize::from(flit.dst);
        if class < relation.classes() && destination < relation.shape().nodes() {
            let (port, vc) = self.split(index);
            relation.permitted(class, self.node, port, vc, destination)
        } else {
            ChannelSet::empty()
        }
    }

    // The output port to which an input channel can send: its flit is there, and the output channel
    // that its packet owns has a credit.
    fn ready_port(&self, index: usize, next: usize) -> Option<usize>
        requires index { index < size_of self.now.site }
        requires next { next < size_of self.now.site }
        ensures { result
            ≡ ready_port self.now.site.vcs (Holds next (has_credit (view_output self.now next)))
            (not (is_empty (view_buffer self.now index))) }
    {
        if self.channels.has_flit(index) & self.channels.has_credit(next) {
            Some(next / self.vcs)
        } else {
            None
        }
    }

    // Each output channel goes to one of the input channels that ask for it.
    fn grant_channels(&self, asks: &[Option<usize>], grants: &mut [Option<usize>; INDICES])
        requires { asks.now ≡ asks_of (view_stands self.now) }
        ensures { take (size_of self.now.site) grants.new ≡ (view_round self.now).grants }
    {
        let size = self.ports * self.vcs;
        allocate_channels(asks, &self.arbiters.channels, &mut grants[..size]);
    }

    // Each input port picks one of its channels that can send, and each output port goes to one of
    // the input ports whose pick sends to it.
    fn grant_ports(
        &self,
        ready: &[Option<usize>],
        picks: &mut [Option<usize>; MAX_PORTS],
        wins: &mut [Option<usize>; MAX_PORTS],
    )
        requires { ready.now ≡ ready_of self.now.site.vcs (view_stands self.now) }
        ensures picks { take (ports_of self.now.site.grid) picks.new ≡ (view_round self.now).picks }
        ensures wins { take (ports_of self.now.site.grid) wins.new ≡ (view_round self.now).wins }
        ensures vcs { AllBelow self.now.site.vcs (take (ports_of self.now.site.grid) picks.new) }
    {
        let arbiters = &self.arbiters;
        allocate_switch(
            ready,
            self.vcs,
            &arbiters.inputs,
            &arbiters.outputs,
            &mut picks[..self.ports],
            &mut wins[..self.ports],
        );
    }

    // The verdict on each input channel, once the arbiters have decided.
    fn find_verdicts(
        &self,
        asks: &[Option<usize>],
        grants: &[Option<usize>],
        picks: &[Option<usize>],
        wins: &[Option<usize>],
        verdicts: &mut [Verdict; INDICES],
    )
        requires asks { asks.now ≡ asks_of (view_stands self.now) }
        requires grants { length grants.now ≡ size_of self.now.site }
        requires picks { length picks.now ≡ ports_of self.now.site.grid }
        requires wins { length wins.now ≡ ports_of self.now.site.grid }
        ensures { let round : Round =
            record { grants = grants.now; picks = picks.now; wins = wins.now } in
            take (size_of self.now.site) verdicts.new
            ≡ tabulate (size_of self.now.site) (verdict_at round self.now) }
    {
        for index in 0..self.ports * self.vcs {
            verdicts[index] = self.verdict(index, asks[index], grants, picks, wins);
        }
    }

    // The verdict on an input channel, which asks for this output channel: the first condition that
    // fails, as `verdict_of` has them (docs/MODEL.md, "Verdicts").
    fn verdict(
        &self,
        index: usize,
        asked: Option<usize>,
        grants: &[Option<usize>],
        picks: &[Option<usize>],
        wins: &[Option<usize>],
    ) -> Verdict
        requires index { index < size_of self.now.site }
        requires asked { asked ≡ ask_of (view_claim self.now index) }
        requires grants { length grants.now ≡ size_of self.now.site }
        requires picks { length picks.now ≡ ports_of self.now.site.grid }
        requires wins { length wins.now ≡ ports_of self.now.site.grid }
        ensures { let round : Round =
            record { grants = grants.now; picks = picks.now; wins = wins.now } in
            result ≡ verdict_at round self.now index }
    {
        match self.channels.state(index) {
            InputState::Idle => {
                if self.channels.has_flit(index) {
                    Verdict::Routed
                } else {
                    Verdict::Empty
                }
            }
            InputState::Waiting(_) => match asked {
                None => Verdict::NoIdleChannel,
                Some(output) => {
                    if grants[output] == Some(index) {
                        Verdict::Granted
                    } else {
                        Verdict::LostChannel
                    }
                }
            },
            InputState::Active(next) => {
                if !self.channels.has_flit(index) {
                    Verdict::NoFlit
                } else if !self.channels.has_credit(next) {
                    Verdict::NoCredit
                } else {
                    self.switch_verdict(index, next, picks, wins)
                }
            }
        }
    }

    // The verdict on an input channel whose flit can leave by this output channel. (The loop over
    // all channels is not to grow by it.)
    #[inline(never)]
    fn switch_verdict(
        &self,
        index: usize,
        next: usize,
        picks: &[Option<usize>],
        wins: &[Option<usize>],
    ) -> Verdict
        requires index { index < size_of self.now.site }
        requires next { next < size_of self.now.site }
        requires picks { length picks.now ≡ ports_of self.now.site.grid }
        requires wins { length wins.now ≡ ports_of self.now.site.grid }
        ensures { (grants : List (Option ℕ)) → let round : Round =
            record { grants = grants; picks = picks.now; wins = wins.now } in
            result ≡ verdict_of self.now.site.vcs round index (Holds next true) true }
    {
        let (port, vc) = self.split(index);
        if picks[port] != Some(vc) {
            Verdict::LostInput
        } else if wins[next / self.vcs] != Some(port) {
            Verdict::LostSwitch
        } else {
            Verdict::Moved
        }
    }
}
