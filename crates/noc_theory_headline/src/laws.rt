//! The laws of every network, whatever packets it has to send.

ghost use Rattle.std.specs.Prelude.{◌≤◌, ℕ, List};
ghost use Rattle.noc_theory_headline.specs.Effects.{IsRightStep};
ghost use Rattle.noc_theory_headline.specs.Headline.{IsRightCycle};
ghost use Rattle.noc_theory_headline.specs.Pending.{HappensIn, IsPendingIn};
ghost use Rattle.noc_theory_headline.specs.Steps.{IsRightCore};
ghost use Rattle.noc_theory.specs.Core.{after_events, opening_core};
ghost use Rattle.noc_theory.specs.Good.{IsGoodSetup, IsWellFormedSetup};
ghost use Rattle.noc_theory.specs.Network.{Run, Setup};
ghost use Rattle.noc_theory.specs.Order.{happening};
ghost use Rattle.noc_theory.specs.declared.event.Event.{Event as EventValue};
ghost use Rattle.noc_theory.specs.declared.limits.TheConstants.{CYCLE_LIMIT};
ghost use Rattle.noc_route.specs.Ranks.{IsRankedBy, Ranking};

/// In every cycle the verdict of each input channel says what holds there. It is granted an output
/// channel exactly where its packet waits, that channel is the first idle one that the relation
/// permits, and its request comes first in turn. Its flit moves exactly where its packet owns the
/// next channel, a credit is there, and the flit wins its input port and its output port. Each
/// stall names the first condition that fails. No buffer holds more flits than its depth, or flits
/// of two packets, and no channel has two owners. The credits of a channel are the slots that are
/// free, and the flits of a packet go out in order.
pub fn every_cycle_is_right()
    ensures { (net : Setup) (n : ℕ) → IsWellFormedSetup net → IsRightCycle net n }
{}

/// The verdicts are what happens, and with what comes before them they are all that happens. Before
/// them each flit on a wire lands, each credit arrives, and a link channel becomes idle exactly
/// where the tail of its owner has passed it. A source injects a flit exactly where its packet is
/// the first of the node that waits, and can go on or begin. It can go on where it has begun and
/// finds room, and begin where it is due and finds an idle injection channel, of which it comes to
/// own the least. Then an input channel is routed from its verdict Routed until the tail of its
/// packet is sent. A packet comes to own an idle channel exactly where it is granted, and then owns
/// it until its tail has gone. A flit leaves its buffer exactly where it is sent, onto the wire of
/// its next channel or out. A credit goes back exactly for each flit that leaves the buffer of a
/// link channel. Nothing but an input channel of some router is routed or has a credit on its way.
/// The pointer of an arbiter goes one past its winner, and without one it stays.
pub fn verdicts_take_effect()
    ensures { (net : Setup) (n : ℕ) → IsWellFormedSetup net → IsRightStep net n }
{}

/// Routers that take their steps in any order show the network. A core is opened on a network, and
/// any list of Takes, Decides and Puts is applied to it, of which those that are not permitted do
/// not happen. Then each router has the view, the buffers and the findings that the state of the
/// network gives it after as many cycles as it has decided, in mid-cycle too. Each wire holds the
/// network's beats that were put and not taken, at most two. Where all routers are between their
/// cycles at one count, the core is the one that opens on the network at that count.
pub fn after_any_list_of_steps()
    ensures { (u : Run) (events : List EventValue) → IsGoodSetup u.net → u.count ≤ CYCLE_LIMIT
        → IsRightCore u.net u.count (happening CYCLE_LIMIT events (opening_core u))
        (after_events CYCLE_LIMIT events (opening_core u)) }
{}

/// With ranks that the check of ranks accepts, something happens in every cycle in which a packet
/// waits that was due. A flit lands, a credit arrives, a source injects a flit, or some packet is
/// routed, is granted a channel or moves a flit.
pub fn accepted_ranks_leave_no_pending_cycle_without_an_event()
    ensures { (net : Setup) (ranks : Ranking) (n : ℕ) → IsWellFormedSetup net
        → IsRankedBy net.relation ranks → IsPendingIn net n → HappensIn net n }
{}
