//! One wire of a core.

ghost use Rattle.std.specs.Prelude.{◌≡◌, ◌<◌, ◌++◌, ◌∷◌, [], drop, if◌then◌else◌, length, slice_get};
ghost use Rattle.noc_wires.specs.Room.{wire_beats};

use noc_packet::Beat;

/// The beats on a wire, the oldest first: at most two.
#[derive(Clone, Copy)]
pub enum Wire {
    Empty,
    One(Beat),
    Two(Beat, Beat),
}

impl Wire {
    // One beat, where there is a link.
    pub(crate) fn opened(linked: bool, beat: Beat) -> Wire
        ensures { wire_beats result ≡ (if linked then beat ∷ [] else []) }
    {
        if linked { Wire::One(beat) } else { Wire::Empty }
    }

    // How many beats are on it.
    pub(crate) fn len(&self) -> usize
        ensures { result ≡ length (wire_beats self.now) }
    {
        match self {
            Wire::Empty => 0,
            Wire::One(_) => 1,
            Wire::Two(_, _) => 2,
        }
    }

    // Takes the oldest beat, if there is one.
    pub(crate) fn pop(&mut self) -> Option<Beat>
        ensures beat { result ≡ slice_get (wire_beats self.old) 0 }
        ensures rest { wire_beats self.new ≡ drop 1 (wire_beats self.old) }
    {
        match *self {
            Wire::Empty => None,
            Wire::One(first) => {
                *self = Wire::Empty;
                Some(first)
            }
            Wire::Two(first, second) => {
                *self = Wire::One(second);
                Some(first)
            }
        }
    }

    // A beat comes to its end.
    pub(crate) fn push(&mut self, beat: Beat)
        requires { length (wire_beats self.old) < 2 }
        ensures { wire_beats self.new ≡ wire_beats self.old ++ beat ∷ [] }
    {
        match *self {
            Wire::Empty => *self = Wire::One(beat),
            Wire::One(first) => *self = Wire::Two(first, beat),
            Wire::Two(_, _) => unreachable!(),
        }
    }
}
