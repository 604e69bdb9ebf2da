//! The first packets of routers.

/// The first packet of a router.
#[derive(Clone, Copy)]
pub struct First {
    /// Its place in the list of all, or that of the end where the router has none.
    pub place: u32,
    /// When it is due.
    pub due: u32,
}
