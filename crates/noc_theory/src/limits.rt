//! How long a network runs.

/// The greatest number of cycles that a network runs.
pub const CYCLE_LIMIT: u64 = 1_000_000_000;
