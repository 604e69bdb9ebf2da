//! Ranks that are given row by row.

ghost use Rattle.std.specs.Prelude.{◌≡◌, ℕ, ◌<◌, ◌≤◌, IfErr, IfSome, IfNone, IsOk, OnOk, OnErr, length, slice_index_or, true, false, Some};
ghost use Rattle.noc_route.specs.Ranks.{is_port_channel, is_channel, rank_count, rank_index};
ghost use Rattle.noc_rank.specs.Rows.{is_rank, rank_row_fault, IsFirstRowFault};
ghost use Rattle.noc_rank.specs.Entered.{AreEntered, IsWhole, IsFirstGap};

use crate::channel::{is_channel, link_ports, rank_index};
use crate::fault::RankFault;
use noc_topo::Shape;

// The greatest rank.
pub(crate) const MAX_RANK: usize = 1_000_000;

/// A link channel with its rank.
#[derive(Clone, Copy, Debug, PartialEq, Eq)]
pub struct RankRow {
    /// The router that sends on the channel.
    pub router: usize,
    /// Its port there.
    pub port: usize,
    /// Which of the link's virtual channels it is.
    pub vc: usize,
    /// Its rank, 1 to 1,000,000; None says that the channel is adaptive.
    pub rank: Option<usize>,
}

// Writes the ranks of the rows over a list without ranks, and notes the channels that they name; or
// answers the fault of the first bad row.
pub(crate) fn enter(
    shape: &Shape,
    vcs: usize,
    rows: &[RankRow],
    ranks: &mut [Option<u32>],
    named: &mut [bool],
) -> Result<(), RankFault>
    requires few { rank_count shape.now vcs < 18446744073709551616 }
    requires blank { AreEntered shape.now vcs rows.now 0 ranks.old named.old }
    ensures err { IfErr result (IsFirstRowFault shape.now vcs rows.now) }
    ensures ok { OnOk result (AreEntered shape.now vcs rows.now
        (length rows.now) ranks.new named.new) }
{
    for (number, row) in rows.iter().enumerate() {
        if let Some(fault) = row_fault(shape, vcs, named, number, row) {
            return Err(fault);
        }
        let index = rank_index(shape, vcs, row.router, row.port, row.vc);
        ranks[index] = stored(row.rank);
        named[index] = true;
    }
    Ok(())
}

// What is wrong with a row, where `named` says which channels the rows before it name.
fn row_fault(
    shape: &Shape,
    vcs: usize,
    named: &[bool],
    number: usize,
    row: &RankRow,
) -> Option<RankFault>
    requires few { rank_count shape.now vcs < 18446744073709551616 }
    requires long { length named.now ≡ rank_count shape.now vcs }
    ensures { result ≡ rank_row_fault shape.now vcs
        (slice_index_or named.now
        (rank_index shape.now vcs row.now.router row.now.port row.now.vc) false) number row.now }
{
    if !is_channel(shape, vcs, row.router, row.port, row.vc) {
        return Some(RankFault::UnknownChannel { row: number });
    }
    if !is_rank(row.rank) {
        return Some(RankFault::BadRank { row: number });
    }
    if named[rank_index(shape, vcs, row.router, row.port, row.vc)] {
        return Some(RankFault::DoubleChannel { row: number });
    }
    None
}

// Whether a rank, if there is one, is 1 to 1,000,000.
fn is_rank(rank: Option<usize>) -> bool
    ensures { result ≡ is_rank rank }
{
    match rank {
        Some(rank) => 1 <= rank && rank <= MAX_RANK,
        None => true,
    }
}

// A rank as it is stored.
fn stored(rank: Option<usize>) -> Option<u32>
    requires { is_rank rank ≡ true }
    ensures { result ≡ rank }
{
    match rank {
        Some(rank) => Some(rank as u32),
        None => None,
    }
}

// The first link channel that no row names, in the order of router, port and channel.
pub(crate) fn missing(shape: &Shape, vcs: usize, named: &[bool]) -> Option<RankFault>
    requires { length named.now ≡ rank_count shape.now vcs }
    ensures none { IfNone result (IsWhole shape.now vcs named.now (length named.now)) }
    ensures some { IfSome result (IsFirstGap shape.now vcs named.now) }
{
    let ports = link_ports(shape);
    for index in 0..named.len() {
        let router = index / vcs / ports;
        let port = index / vcs % ports;
        let vc = index % vcs;
        if !named[index] && is_channel(shape, vcs, router, port, vc) {
            return Some(RankFault::MissingChannel { router, port, vc });
        }
    }
    None
}
