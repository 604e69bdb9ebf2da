//! Letters, which tell something where they arrive, and are then written anew.

ghost use Rattle.std.specs.Prelude.{◌≡◌, ◌++◌, ◌∷◌, [], Some, true, IsFalse, IsTrue};
ghost use Rattle.rtrb.specs.Ring.{received};

use crate::patience::Patience;
use crate::rings::arrived;
use rtrb::{Consumer, Protocol};
use std::alloc::Global;
use std::sync::Wait;

/// What one worker sends another one, to tell it something.
pub trait Letter<H> {
    // Whether it can be told to this one.
    ghost can_tell: { Self → H → Type 0 };

    // What this one is when it has heard it.
    ghost tells: { Self → H → H → Type 0 };

    /// Has one hear what it says.
    fn tell(&self, hearer: &mut H)
        requires { can_tell self.now hearer.old }
        ensures { tells self.now hearer.old hearer.new };
}

/// Waits for the next letter of a ring, has one hear what it says, and keeps it, to be written
/// anew. False where it gave up.
pub fn hear_next<H, M: Letter<H> + Drop, P: Protocol<M>, E: Patience>(
    rt: &impl Wait,
    back: &mut Consumer<M, Global, P>,
    kept: &mut Option<M>,
    hearer: &mut H,
    patience: &E,
) -> bool
    requires { (letter : M) → P.allows (received back.old) letter → M.can_tell letter hearer.old }
    ensures heard { IsTrue result → (letter : M) × P.allows (received back.old) letter
        × (received back.new ≡ received back.old ++ letter ∷ []) × (kept.new ≡ Some letter)
        × M.tells letter hearer.old hearer.new }
    ensures ended { IsFalse result → (received back.new ≡ received back.old)
        × (hearer.new ≡ hearer.old) × (E.can_end patience.now ≡ true) }
{
    if !arrived(rt, back, patience) {
        return false;
    }
    let letter = back.pop_known();
    letter.tell(hearer);
    *kept = Some(letter);
    true
}
