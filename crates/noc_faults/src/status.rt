//! How a request that was answered has ended.

ghost use Rattle.std.specs.Prelude.{◌≡◌};
ghost use Rattle.noc_faults.specs.Status.{status_code};

/// How a request that was answered has ended.
#[derive(Clone, Copy, Debug, PartialEq, Eq)]
pub enum Status {
    /// All was done.
    Done,
    /// The network is stuck: its last cycle was pending and had no event.
    Stuck,
}

impl Status {
    /// The exit status of the program: 0 or 5.
    pub fn code(self) -> u8
        ensures { result ≡ status_code self }
    {
        match self {
            Status::Done => 0,
            Status::Stuck => 5,
        }
    }
}
