//! The allocation of the switch, input ports first (Dally and Towles, chapter 19).

ghost use Rattle.std.specs.Prelude.{◌≡◌, ℕ, ◌+◌, ◌*◌, ◌<◌, ◌≤◌, List, Option, length, All, IfSome, is_some, slice_index_or, None};
ghost use Rattle.noc_topo.specs.Lists.{tabulate};
ghost use Rattle.noc_alloc.specs.Arbiter.{RoundRobin, first_in_turn, pointers_of, arbiter_at};
ghost use Rattle.noc_alloc.specs.Allocation.{pick_of, winner_of, winning_pick, moving_pick, arbiters_after_winners, AreWins};
ghost use Rattle.noc_alloc.specs.Steps.{arbiters_after_winner};
ghost use Rattle.noc_alloc.specs.Switch.{AreChoices, AreOfSwitch};

use crate::arbiter::Arbiter;
use crate::channels::offer;

/// For each input channel that is ready, `ready` has the output port of its output channel; input
/// port `port` has the input channels from `port * vcs` on. Each input port picks one of its
/// `vcs` virtual channels that are ready, and each output port is won by one of the input ports
/// whose pick goes to it. `picks` gets the virtual channel of each input port, and `wins` the
/// input port of each output port.
pub fn allocate_switch(
    ready: &[Option<usize>],
    vcs: usize,
    inputs: &[Arbiter],
    outputs: &[Arbiter],
    picks: &mut [Option<usize>],
    wins: &mut [Option<usize>],
)
    requires ready { length ready.now ≡ length inputs.now * vcs }
    requires picks { length picks.old ≡ length inputs.now }
    requires wins { length wins.old ≡ length outputs.now }
    requires arbiters { AreOfSwitch vcs inputs.now outputs.now }
    ensures picks { picks.new
        ≡ tabulate (length inputs.now) (pick_of ready.now vcs (pointers_of inputs.now)) }
    ensures wins { wins.new ≡ tabulate (length outputs.now)
        (winner_of ready.now vcs (length inputs.now) picks.new (pointers_of outputs.now)) }
    ensures vcs { All (λ pick. IfSome pick (λ v. v < vcs)) picks.new }
    ensures inputs { All (λ win. IfSome win (λ q. q < length inputs.now)) wins.new }
{
    wins.fill(None);
    for port in 0..inputs.len() {
        let first = port * vcs;
        let pick = first_of_those_ready(ready, first, &inputs[port]);
        picks[port] = pick;
        if let Some(vc) = pick {
            offer(outputs, ready[first + vc], port, wins);
        }
    }
}

// The virtual channel that the arbiter of an input port puts first, of those that are ready;
// `first` is the index of the first input channel of the port.
fn first_of_those_ready(ready: &[Option<usize>], first: usize, arbiter: &Arbiter) -> Option<usize>
    requires within { first + arbiter.now.size ≤ length ready.now }
    ensures within { IfSome result (λ v. v < arbiter.now.size) }
    ensures first { result ≡ first_in_turn arbiter.now.size arbiter.now.pointer
        (λ v. is_some (slice_index_or ready.now (first + v) None)) }
{
    let mut held = None;
    for vc in 0..arbiter.size() {
        if ready[first + vc].is_some() {
            held = Some(arbiter.earlier(held, vc));
        }
    }
    held
}

/// Moves the pointers past the winners: those of the output ports that were won, and those of the
/// input ports whose pick also won an output port.
pub fn advance_switch(
    picks: &[Option<usize>],
    wins: &[Option<usize>],
    inputs: &mut [Arbiter],
    outputs: &mut [Arbiter],
)
    requires picks { length picks.now ≡ length inputs.old }
    requires wins { length wins.now ≡ length outputs.old }
    requires choices { AreChoices picks.now wins.now inputs.old outputs.old }
    ensures inputs { inputs.new
        ≡ arbiters_after_winners (winning_pick picks.now wins.now) inputs.old }
    ensures by_requests { (ready : List (Option ℕ)) (vcs ports : ℕ) (pointers : List ℕ)
        → AreWins ready vcs ports pointers picks.now wins.now
        → inputs.new
        ≡ arbiters_after_winners (moving_pick ready vcs picks.now wins.now) inputs.old }
    ensures outputs { outputs.new
        ≡ arbiters_after_winners (λ p. slice_index_or wins.now p None) outputs.old }
    ensures input_sizes { (n : ℕ) → All (λ (t : RoundRobin). t.size ≡ n) inputs.old
        → All (λ (t : RoundRobin). t.size ≡ n) inputs.new }
    ensures output_sizes { (n : ℕ) → All (λ (t : RoundRobin). t.size ≡ n) outputs.old
        → All (λ (t : RoundRobin). t.size ≡ n) outputs.new }
{
    for output in 0..wins.len() {
        advance_winner(wins[output], picks, inputs);
        outputs[output].advance(wins[output]);
    }
}

// Moves the pointer of the input port that won an output port, if any, past its pick.
fn advance_winner(winner: Option<usize>, picks: &[Option<usize>], inputs: &mut [Arbiter])
    requires picks { length picks.now ≡ length inputs.old }
    requires vcs { (k : ℕ) → k < length inputs.old
        → IfSome (slice_index_or picks.now k None) (λ v. v < (arbiter_at inputs.old k).size) }
    requires winner { IfSome winner (λ q. q < length inputs.old) }
    ensures { inputs.new ≡ arbiters_after_winner winner picks.now inputs.old }
{
    if let Some(input) = winner {
        inputs[input].advance(picks[input]);
    }
}
