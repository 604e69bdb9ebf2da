//! The verdicts of one router take effect.

ghost use Rattle.std.specs.Prelude.{◌≡◌, ◌<◌, Some, length, false, if◌then◌else◌};
ghost use Rattle.noc_view.specs.View.{size_of, decisions_of, plan_contents, view_after_commit, idle_beats, first_flit};
ghost use Rattle.noc_router.specs.Settled.{AreContentsFor, CanGrant, CanTakeEffect, decisions_by, effect_of, planned_verdict, view_after_tally, view_after_verdicts, view_after_route, view_after_grant, moved_by};
ghost use Rattle.noc_router.specs.Sound.{CanRoute, CanSend};
ghost use Rattle.noc_route.specs.Routes.{Routes};

use crate::plan::Plan;
use crate::router::Router;
use noc_packet::{Beat, ChannelSet};
use noc_topo::LINKS;
use noc_vc::InputState;
use noc_view::Verdict;

impl Router {
    /// Lets the verdicts of the plan of this state take effect, and keeps its findings.
    pub fn commit(&mut self, plan: &Plan)
        requires { AreContentsFor plan.now self.old }
        ensures view { (relation : Routes) → plan.now ≡ plan_contents relation self.old
            → self.new ≡ view_after_commit (decisions_of relation self.old) self.old }
        ensures site { self.new.site ≡ self.old.site }
    {
        self.note(plan);
        self.apply_verdicts(plan);
        self.arbiters.advance(plan);
        self.end_cycle();
    }

    // The verdicts are counted, the findings kept, and every beat is idle again.
    fn note(&mut self, plan: &Plan)
        requires { AreContentsFor plan.now self.old }
        ensures { self.new ≡ view_after_tally (decisions_by plan.now self.old) self.old }
    {
        self.tally.note(&self.channels, self.vcs, plan);
        self.to_put = [Beat::idle(); LINKS];
    }

    // The verdict of every input channel takes effect.
    fn apply_verdicts(&mut self, plan: &Plan)
        requires plan { AreContentsFor plan.now self.old }
        requires beats { self.old.to_put ≡ idle_beats self.old.site }
        ensures { self.new ≡ view_after_verdicts (decisions_by plan.now self.old) self.old }
    {
        for index in 0..self.ports * self.vcs {
            self.apply_verdict(plan, index);
        }
    }

    // The verdict of one input channel takes effect.
    fn apply_verdict(&mut self, plan: &Plan, index: usize)
        requires index { index < size_of self.old.site }
        requires asks { index < length plan.now.asks }
        requires verdicts { index < length plan.now.verdicts }
        requires routes { index < length plan.now.routes }
        requires can { CanTakeEffect plan.now self.old index (planned_verdict plan.now index) }
        ensures { self.new ≡ effect_of plan.now index self.old (planned_verdict plan.now index) }
    {
        match plan.verdict(index) {
            Verdict::Routed => self.route_head(index, plan.route(index)),
            Verdict::Granted => {
                if let Some(next) = plan.ask(index) {
                    self.grant(index, next);
                }
            }
            Verdict::Moved => {
                if let InputState::Active(next) = self.channels.state(index) {
                    self.move_flit(index, next);
                }
            }
            _ => {}
        }
    }

    // The head of an idle input channel gets its set of output channels.
    fn route_head(&mut self, index: usize, set: ChannelSet)
        requires { CanRoute (size_of self.old.site) self.old.buffers self.old.inputs index }
        ensures { self.new ≡ view_after_route index set self.old }
    {
        self.channels.route(index, set);
        self.had_event = true;
    }

    // A waiting input channel gets an idle output channel.
    fn grant(&mut self, index: usize, next: usize)
        requires index { index < size_of self.old.site }
        requires can { CanGrant self.old index next }
        ensures { self.new ≡ view_after_grant index next self.old }
    {
        self.channels.grant(index, next);
        self.had_event = true;
    }

    // The first flit of an input channel leaves by its output channel, and a credit goes back.
    fn move_flit(&mut self, index: usize, next: usize)
        requires { CanSend (size_of self.old.site) self.old.buffers self.old.inputs
            self.old.outputs index next }
        ensures { self.new ≡ moved_by index next (first_flit self.old index) self.old }
    {
        let (port, vc) = self.split(index);
        let (output, next_vc) = self.split(next);
        let flit = self.channels.send(index, next);
        self.had_event = true;
        self.put_credit(port, vc);
        self.put_flit(output, next_vc, flit);
    }

    // The cycle ends.
    fn end_cycle(&mut self)
        ensures { self.new ≡ record self.old {
          last_event = (if self.old.had_event then Some self.old.given else self.old.last_event);
          had_event = false;
        } }
    {
        if self.had_event {
            self.last_event = Some(self.cycle);
            self.had_event = false;
        }
    }
}
