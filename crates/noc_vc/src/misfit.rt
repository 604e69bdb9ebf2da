//! The answer where a flit or a credit does not fit.

/// A flit or a credit does not fit the channel that it came to, and has changed nothing.
#[derive(Clone, Copy, Debug, PartialEq, Eq)]
pub struct Misfit;
