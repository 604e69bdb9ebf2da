//! The allocation of output channels (Dally and Towles, chapter 19).

ghost use Rattle.std.specs.Prelude.{◌≡◌, ℕ, ◌<◌, length, All, IfSome, slice_index_or, None};
ghost use Rattle.noc_topo.specs.Lists.{tabulate};
ghost use Rattle.noc_alloc.specs.Arbiter.{RoundRobin, pointers_of, arbiter_at};
ghost use Rattle.noc_alloc.specs.Allocation.{grant_of, arbiters_after_winners};
ghost use Rattle.noc_alloc.specs.Steps.{firsts_after_request};

use crate::arbiter::Arbiter;

/// For each input channel `asks` has the output channel that it asks for, and `arbiters` has an
/// arbiter over the input channels for each output channel. Each output channel that is asked for
/// is granted to the input channel that its arbiter puts first; `grants` gets that input channel.
pub fn allocate_channels(asks: &[Option<usize>], arbiters: &[Arbiter], grants: &mut [Option<usize>])
    requires lengths { length grants.old ≡ length arbiters.now }
    requires sizes { All (λ (t : RoundRobin). t.size ≡ length asks.now) arbiters.now }
    ensures grants { grants.new ≡ tabulate (length arbiters.now)
        (grant_of asks.now (length asks.now) (pointers_of arbiters.now)) }
    ensures inputs { All (λ grant. IfSome grant (λ i. i < length asks.now)) grants.new }
{
    grants.fill(None);
    for input in 0..asks.len() {
        offer(arbiters, asks[input], input, grants);
    }
}

// Offers a requester, whose number is higher than those of all before, to the arbiter that it asks
// for, if there is one. `held` has the requester that each arbiter puts first so far.
pub(crate) fn offer(
    arbiters: &[Arbiter],
    asked: Option<usize>,
    requester: usize,
    held: &mut [Option<usize>],
)
    requires { length held.old ≡ length arbiters.now }
    ensures { held.new ≡ firsts_after_request arbiters.now asked requester held.old }
{
    if let Some(asked) = asked {
        if asked < arbiters.len() {
            held[asked] = Some(arbiters[asked].earlier(held[asked], requester));
        }
    }
}

/// Moves the pointer of each output channel's arbiter past the input channel that was granted.
pub fn advance_channels(grants: &[Option<usize>], arbiters: &mut [Arbiter])
    requires lengths { length grants.now ≡ length arbiters.old }
    requires grants { (k : ℕ) → k < length arbiters.old
        → IfSome (slice_index_or grants.now k None) (λ w. w < (arbiter_at arbiters.old k).size) }
    ensures pointers { arbiters.new
        ≡ arbiters_after_winners (λ o. slice_index_or grants.now o None) arbiters.old }
    ensures sizes { (n : ℕ) → All (λ (t : RoundRobin). t.size ≡ n) arbiters.old
        → All (λ (t : RoundRobin). t.size ≡ n) arbiters.new }
{
    for output in 0..grants.len() {
        arbiters[output].advance(grants[output]);
    }
}
