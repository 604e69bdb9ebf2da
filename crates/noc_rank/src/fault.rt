//! What can be wrong with ranks.

ghost use Rattle.std.specs.Prelude.{◌≡◌, ◌≤◌, Some, length};
ghost use Rattle.noc_rank.specs.Titles.{rank_title};

use crate::channel::LinkChannel;
use noc_route::Entry;
use std::alloc::AllocError;
use std::error::Error;
use std::fmt;

/// Why there are no ranks, or why a relation is not accepted.
#[derive(Clone, Copy, Debug, PartialEq, Eq)]
pub enum RankFault {
    /// The rule has no ranks by formula, or does not fit the numbers of channels
    /// and classes or the shape.
    NoGenerated,
    /// Each link channel has a rank, and a packet at this entry may go on by this link channel. Its
    /// rank `next` is not greater than `rank`, that of the channel on which the packet is.
    NotRising {
        entry: Entry,
        out_port: usize,
        out_vc: usize,
        rank: u32,
        next: u32,
    },
    /// Some link channels are adaptive, and a packet may come on from one channel with a rank to
    /// another, directly or through adaptive channels. The rank `next` of the other is not greater
    /// than `rank`, that of the first.
    NotRisingTo {
        from: LinkChannel,
        to: LinkChannel,
        rank: u32,
        next: u32,
    },
    /// Some link channels are adaptive, and a packet comes to this entry, away from its
    /// destination, and may go on by no channel with a rank.
    NoEscape(Entry),
    /// Memory was refused.
    Memory,
    /// The row, counted from 0, names no link channel of the shape.
    UnknownChannel {
        row: usize,
    },
    /// A row before this one, counted from 0, names the same channel.
    DoubleChannel {
        row: usize,
    },
    /// The rank of this row, counted from 0, is not 1 to 1,000,000.
    BadRank {
        row: usize,
    },
    /// No row names this link channel.
    MissingChannel {
        router: usize,
        port: usize,
        vc: usize,
    },
}

impl RankFault {
    /// The number and the name of the fault, as its fault line has them; at most 20 bytes
    /// (docs/FORMATS.md, "Fault lines").
    pub fn title(&self) -> &'static str
        ensures title { result.now ≡ rank_title self.now }
        ensures short { length result.now ≤ 20 }
    {
        match self {
            RankFault::NoGenerated => "1 NoGenerated",
            RankFault::NotRising { .. } | RankFault::NotRisingTo { .. } => "2 NotRising",
            RankFault::Memory => "3 Memory",
            RankFault::NoEscape(_) => "4 NoEscape",
            RankFault::UnknownChannel { .. } => "5 UnknownChannel",
            RankFault::DoubleChannel { .. } => "6 DoubleChannel",
            RankFault::MissingChannel { .. } => "7 MissingChannel",
            RankFault::BadRank { .. } => "8 BadRank",
        }
    }
}

impl From<AllocError> for RankFault {
    ghost use Rattle.noc_rank.specs.declared.fault.RankFault.TheVariants.{Memory};

    ghost from_gives = { λ _ e. e ≡ Memory };

    fn from(_e: AllocError) -> RankFault {
        RankFault::Memory
    }
}

/// Its title.
impl fmt::Display for RankFault {
    ghost output = { λ fault. Some (rank_title fault) };

    fn fmt<W: fmt::Write>(&self, f: &mut fmt::Formatter<W>) -> fmt::Result {
        f.write_str(self.title())
    }
}

impl Error for RankFault {}
