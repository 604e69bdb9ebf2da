//! Why a network cannot be made of its packets.

ghost use Rattle.std.specs.Prelude.{◌≡◌, ◌≤◌, Some, length};
ghost use Rattle.noc_net.specs.Titles.{net_title};
ghost use Rattle.noc_net.specs.declared.net_fault.NetFault.TheVariants.{Memory as memory_fault};

use noc_packet::Memory;
use std::error::Error;
use std::fmt;

/// The most bytes of the title of a fault.
pub const LONGEST_TITLE: usize = 20;

/// The first fault of a network's packets. Rows are packet numbers, from 0
/// (docs/FORMATS.md, "Fault lines").
#[derive(Clone, Copy, Debug, PartialEq, Eq)]
pub enum NetFault {
    /// Its source is its destination.
    SelfPacket { row: usize },
    /// Its source or its destination is no node.
    BadNode { row: usize },
    /// Its message class does not exist.
    BadClass { row: usize },
    /// It has no flit, or more than 64.
    BadLength { row: usize },
    /// There are more than 20,000 packets.
    TooMany,
    /// Memory was refused.
    Memory,
    /// It is due after cycle 1,000,000.
    BadDue { row: usize },
}

impl NetFault {
    /// The number and the name of the fault, as its fault line has them; at most `LONGEST_TITLE`
    /// bytes (docs/FORMATS.md, "Fault lines").
    pub fn title(&self) -> &'static str
        ensures title { result.now ≡ net_title self.now }
        ensures short { length result.now ≤ LONGEST_TITLE }
    {
        match self {
            NetFault::SelfPacket { .. } => "1 SelfPacket",
            NetFault::BadNode { .. } => "2 BadNode",
            NetFault::BadClass { .. } => "3 BadClass",
            NetFault::BadLength { .. } => "4 BadLength",
            NetFault::TooMany => "5 TooMany",
            NetFault::Memory => "6 Memory",
            NetFault::BadDue { .. } => "7 BadDue",
        }
    }
}

impl From<Memory> for NetFault {
    ghost from_gives = { λ _ e. e ≡ memory_fault };

    fn from(_memory: Memory) -> NetFault {
        NetFault::Memory
    }
}

/// Its title.
impl fmt::Display for NetFault {
    ghost output = { λ fault. Some (net_title fault) };

    fn fmt<W: fmt::Write>(&self, f: &mut fmt::Formatter<W>) -> fmt::Result {
        f.write_str(self.title())
    }
}

impl Error for NetFault {}
