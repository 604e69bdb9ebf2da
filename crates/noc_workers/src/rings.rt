//! The rings between two tiles of a run, when it begins.

ghost use Rattle.std.specs.Prelude.{◌≡◌, ℕ, ◌∷◌, [], Bool, true, All, IfOk, length};
ghost use Rattle.rtrb.specs.Ring.{received, sent};
ghost use Rattle.noc_workers.specs.Prelude.{IsReadyPost, near_in, start_by};

use crate::mail::Mail;
use crate::origin::Run;
use crate::post::{Post, Rounds};
use noc_exchange::ring_with;
use noc_packet::Memory;
use rtrb::{Consumer, Producer};
use std::alloc::Global;

// How many mails a ring has room for. At most two are on their way, but who sends looks how many
// have been taken only where it knows of no room, and for that it waits for the other's memory.
const ROOM: usize = 8;

// The ends of a ring through which its first mail has gone, and this mail.
type Greeted = (
    Producer<Mail, Global, Rounds>,
    Consumer<Mail, Global, Rounds>,
    Mail,
);

// A ring through which this mail has gone.
fn greet(alloc: Global, hello: Mail) -> Result<Greeted, Memory>
    ensures mail { IfOk result (λ ring. ring.2 ≡ hello) }
    ensures ends { IfOk result (λ ring. (sent ring.0 ≡ hello ∷ [])
        × (received ring.1 ≡ hello ∷ [])) }
{
    let (mut out, mut back) = ring_with(alloc, ROOM, hello)?;
    back.slots_beside(&mut out);
    let mail = back.pop_known();
    Ok((out, back, mail))
}

/// The rings between two tiles of a run: the blocks `from` of the one tell by them, and as many of
/// the other, `back`.
pub(crate) fn meet(
    alloc: Global,
    from: Vec<usize>,
    back: Vec<usize>,
    run: &Run<'_>,
) -> Result<(Post, Post), Memory>
    requires as_many { length from.items ≡ length back.items }
    ensures near { IfOk result (λ posts. (near_in posts.0 ≡ back.items)
        × (near_in posts.1 ≡ from.items)) }
    ensures one { IfOk result (λ posts. (own : ℕ → Bool) → All (λ b. own b ≡ true) from.items
        → IsReadyPost (start_by run.now) own 0 posts.0) }
    ensures other { IfOk result (λ posts. (own : ℕ → Bool) → All (λ b. own b ≡ true) back.items
        → IsReadyPost (start_by run.now) own 0 posts.1) }
{
    let (out, there, mail) = greet(alloc, Mail::new(alloc, from.as_slice(), run)?)?;
    let (answers, here, answer) = greet(alloc, Mail::new(alloc, back.as_slice(), run)?)?;
    Ok((
        Post {
            blocks: from,
            mail: Some(answer),
            out,
            back: here,
        },
        Post {
            blocks: back,
            mail: Some(mail),
            out: answers,
            back: there,
        },
    ))
}
