//! Rings between two workers, and waiting at their ends.

ghost use Rattle.std.specs.Prelude.{◌≡◌, ◌<◌, ◌++◌, ◌∷◌, [], length, true, IfOk, IsFalse, IsTrue};
ghost use Rattle.rtrb.specs.Ring.{IsPair, SameConsumer, SameProducer, known_items, received, sent};

use crate::patience::Patience;
use noc_waiting::rested;
use rtrb::{Consumer, Producer, Protocol, RingBuffer};
use std::alloc::{AllocError, Global};
use std::sync::Wait;

/// The two ends of a ring.
pub type Ends<M, P> = (Producer<M, Global, P>, Consumer<M, Global, P>);

/// A ring with room for so many items, and one in it.
pub fn ring_with<M: Drop, P: Protocol<M>>(
    alloc: Global,
    room: usize,
    first: M,
) -> Result<Ends<M, P>, AllocError>
    requires { (0 < room) × P.allows [] first }
    ensures pair { IfOk result (λ ends. IsPair ends.0 ends.1) }
    ensures sent { IfOk result (λ ends. sent ends.0 ≡ first ∷ []) }
    ensures received { IfOk result (λ ends. received ends.1 ≡ []) }
{
    let (mut out, back) = RingBuffer::with_protocol::<Global, P>(alloc, room)?;
    out.push_reserved(first);
    Ok((out, back))
}

/// Waits until a ring has room for an item, and puts it there. False where it gave up.
pub fn put<M: Drop, P: Protocol<M>, E: Patience>(
    rt: &impl Wait,
    out: &mut Producer<M, Global, P>,
    item: M,
    patience: &E,
) -> bool
    requires { P.allows (sent out.old) item }
    ensures ring { SameProducer out.old out.new }
    ensures put { IsTrue result → sent out.new ≡ sent out.old ++ item ∷ [] }
    ensures ended { IsFalse result → E.can_end patience.now ≡ true }
{
    let mut looks = 0u32;
    for _ in rt.forever() {
        if !out.is_full() {
            out.push_reserved(item);
            return true;
        }
        if patience.ends(out.is_abandoned()) {
            return false;
        }
        looks = rested(rt, looks);
    }
    unreachable!()
}

/// Waits until an item of a ring is there. False where it gave up, and none is.
pub fn arrived<M, P: Protocol<M>, E: Patience>(
    rt: &impl Wait,
    back: &mut Consumer<M, Global, P>,
    patience: &E,
) -> bool
    ensures ring { SameConsumer back.old back.new }
    ensures received { received back.new ≡ received back.old }
    ensures there { IsTrue result → 0 < length (known_items back.new) }
    ensures ended { IsFalse result → E.can_end patience.now ≡ true }
{
    let mut looks = 0u32;
    for _ in rt.forever() {
        if !back.is_empty() {
            return true;
        }
        if patience.ends(back.is_abandoned()) {
            // (the other end may have sent one since, and be gone for that reason)
            return !back.is_empty();
        }
        looks = rested(rt, looks);
    }
    unreachable!()
}
