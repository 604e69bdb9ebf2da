//! The packets that start at the routers.

ghost use Rattle.std.specs.Prelude.{◌≡◌, ◌<◌, ◌≤◌, ⊤};
ghost use Rattle.noc_packet.specs.declared.limits.TheConstants.{MAX_LENGTH};

use std::alloc::AllocError;

/// A packet that starts at a router.
#[derive(Copy)]
pub struct Start {
    /// The number of the packet.
    pub number: u32,
    /// Its length in flits.
    pub length: u32,
    /// The cycle in which it is due.
    pub due: u32,
    ghost some: { 0 < length },
    ghost few: { length ≤ MAX_LENGTH },
}

impl Clone for Start {
    ghost is_clone = { λ x y. y ≡ x };

    ghost is_infallible = { λ _. ⊤ };

    fn clone(&self) -> Result<Start, AllocError> {
        Ok(*self)
    }
}
