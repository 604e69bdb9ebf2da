//! The events of a core.

/// What can happen to one router in a core.
#[derive(Clone, Copy, Debug, PartialEq, Eq)]
pub enum Event {
    /// The router takes the oldest beat of the wire that arrives at a link port.
    Take(usize, usize),
    /// The router makes its cycle over the beats that it has taken.
    Decide(usize),
    /// The router puts its beat on the wire that leaves by a link port.
    Put(usize, usize),
}

/// The event is not permitted now.
#[derive(Clone, Copy, Debug, PartialEq, Eq)]
pub struct NotReady;
