//! The words of a group of four channels, verdict by verdict.

ghost use Rattle.std.specs.Prelude.{◌≡◌, ◌≢◌, ◌<◌, ℕ, slice_index};
ghost use Rattle.noc_columns.specs.Prelude.{word};
ghost use Rattle.noc_counts.specs.Rows.{row_of, waiting_in};
ghost use Rattle.noc_counts.specs.Told.{told_by};

use crate::verdicts::words_at;
use noc_columns::GROUP;
use noc_cycles::{Block, Work};

// How many groups of channels there are room for.
pub(crate) const GROUPS: usize = 18;

// How many verdicts are counted: all but Empty, and Granted, which follows from Routed.
pub(crate) const COUNTED: usize = 8;

// How many words a group has: of each of these verdicts one for each of its channels.
pub(crate) const ROW: usize = 32;

// Where in a row the words of each verdict begin. (Those that follow from others stand first, so
// that the compiler takes all of them four at a time.)
pub(crate) const NO_FLIT: usize = 0;

pub(crate) const NO_IDLE_CHANNEL: usize = 4;

pub(crate) const ROUTED: usize = 8;

pub(crate) const MOVED: usize = 12;

pub(crate) const LOST_CHANNEL: usize = 16;

pub(crate) const NO_CREDIT: usize = 20;

pub(crate) const LOST_INPUT: usize = 24;

pub(crate) const LOST_SWITCH: usize = 28;

// The words of a group. Bit `r` of one is router `r` of the block.
pub(crate) type Row = [u64; ROW];

// The routers in which the channels of a group had each verdict, once the cycle has taken effect.
#[inline(always)]
pub(crate) fn row_at(block: &Block, work: &Work, group: usize) -> Row
    requires { group < GROUPS }
    ensures { result ≡ row_of (λ j. told_by (word j) block.now work.now) group }
{
    let a = words_at(block, work, GROUP * group).list();
    let b = words_at(block, work, GROUP * group + 1).list();
    let c = words_at(block, work, GROUP * group + 2).list();
    let d = words_at(block, work, GROUP * group + 3).list();
    [
        a[3], b[3], c[3], d[3], a[4], b[4], c[4], d[4], a[0], b[0], c[0], d[0], a[2], b[2], c[2],
        d[2], a[5], b[5], c[5], d[5], a[6], b[6], c[6], d[6], a[7], b[7], c[7], d[7], a[8], b[8],
        c[8], d[8],
    ]
}

// The words of the three verdicts that channels have in which nothing happens.
pub(crate) fn waiting_in(row: &Row) -> Row
    ensures { result ≡ waiting_in row.now }
{
    [
        row[0], row[1], row[2], row[3], row[4], row[5], row[6], row[7], 0, 0, 0, 0, 0, 0, 0, 0, 0,
        0, 0, 0, row[20], row[21], row[22], row[23], 0, 0, 0, 0, 0, 0, 0, 0,
    ]
}

// Writes the word at a place.
#[inline(always)]
pub(crate) fn put(row: &mut Row, place: usize, word: u64)
    requires { place < ROW }
    ensures here { slice_index row.new place ≡ word }
    ensures others { (k : ℕ) → k ≢ place → slice_index row.new k ≡ slice_index row.old k }
{
    row[place] = word;
}
