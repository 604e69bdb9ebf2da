//! Runs by workers: how many there may be, and why one of them gave no network.

ghost use Rattle.std.specs.Prelude.{◌≡◌, ◌≤◌, Some, length, ⊤};
ghost use Rattle.noc_net.specs.Titles.{run_title};

use crate::net_fault::LONGEST_TITLE;
use std::alloc::AllocError;
use std::error::Error;
use std::fmt;

/// The most workers of one run.
pub const MAX_WORKERS: usize = 16;

/// Why a run by workers gave no network.
#[derive(Copy, Debug, PartialEq, Eq)]
pub enum RunFault {
    /// Memory was refused.
    Memory,
    /// A worker could not be started.
    NoWorker,
    /// A worker came back without its cycles.
    LostWorker,
}

impl RunFault {
    /// The number and the name of the fault, as its fault line has them; at most `LONGEST_TITLE`
    /// bytes (docs/FORMATS.md, "Fault lines").
    pub fn title(&self) -> &'static str
        ensures title { result.now ≡ run_title self.now }
        ensures short { length result.now ≤ LONGEST_TITLE }
    {
        match self {
            RunFault::Memory => "1 Memory",
            RunFault::NoWorker => "2 NoWorker",
            RunFault::LostWorker => "3 LostWorker",
        }
    }
}

impl Clone for RunFault {
    ghost is_clone = { λ x y. y ≡ x };

    ghost is_infallible = { λ _. ⊤ };

    fn clone(&self) -> Result<RunFault, AllocError> {
        Ok(*self)
    }
}

/// Its title.
impl fmt::Display for RunFault {
    ghost output = { λ fault. Some (run_title fault) };

    fn fmt<W: fmt::Write>(&self, f: &mut fmt::Formatter<W>) -> fmt::Result {
        f.write_str(self.title())
    }
}

impl Error for RunFault {}
