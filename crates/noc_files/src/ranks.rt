//! Rank files (docs/FORMATS.md).

ghost use Rattle.std.specs.Prelude.{◌≡◌, ◌≤◌, Ok};
ghost use Rattle.noc_files.specs.Prelude.{fields_of, Grid, IsGrid, local_port, Gives, IsReadAs, Wrote};
ghost use Rattle.noc_packet.specs.declared.limits.TheConstants.{MAX_CHANNELS as CHANNELS};
ghost use Rattle.noc_route.specs.Ranks.{Ranking};
ghost use Rattle.noc_rank.specs.Ranking.{IsRanking};
ghost use Rattle.noc_files.specs.Ranks.{rank_line, rank_of, rank_row, rank_row_of, rank_rows, ranks_of, ranks_text, IsRankFile, IsRankFileFault, ListsRanks};

use crate::listing::{Lines, ListedChannels, write_lines};
use crate::page::Page;
use crate::ports::known_name;
use crate::rows::{number, number_in, port_in, want_fields};
use crate::sheet::read_sheet;
use csv::ByteRecord;
use noc_bytes::{InputFault, Sink, WriteFault};
use noc_packet::MAX_CHANNELS;
use noc_rank::{RankRow, Ranks};
use noc_topo::Shape;
use std::alloc::Global;

static HEADER: [&str; 4] = ["router", "port", "vc", "rank"];

// The text in the column of ranks where a channel is adaptive.
const ADAPTIVE: &str = "adaptive";

// The rank that a field writes: a number, or none by that text.
fn rank(field: &[u8]) -> Option<Option<usize>>
    ensures { result ≡ rank_of field.now }
{
    if field == ADAPTIVE.as_bytes() {
        return Some(None);
    }
    match number(field) {
        Some(number) => Some(Some(number as usize)),
        None => None,
    }
}

// The channel and the rank that a row of fields says.
#[tactic(auto, unfolding(crate::specs::Ranks::rank_row_of))]
fn rank_row_in(shape: &Shape, row: &ByteRecord, index: usize) -> Result<RankRow, InputFault>
    ensures { result ≡ rank_row_of shape.now index (fields_of row.now) }
{
    want_fields(row, index, 4)?;
    let router = number_in(row, index, 0)?;
    let port = port_in(shape, row, index, 1)?;
    let vc = number_in(row, index, 2)?;
    let fault = InputFault::BadNumber {
        row: index,
        column: 3,
    };
    let rank = row.get(3).and_then(rank).ok_or(fault)?;
    Ok(RankRow {
        router: router as usize,
        port,
        vc: vc as usize,
        rank,
    })
}

/// The rows of a rank file, or its first fault: `BadHeader`, and then row by row
/// `BadCount`, `BadNumber` and `BadPort` from left to right; `Memory` where a growth
/// was refused (docs/FORMATS.md). Ports have the names of the shape; a rank is a
/// number, or the text `adaptive`.
pub fn read_ranks(alloc: Global, shape: &Shape, text: &[u8]) -> Result<Vec<RankRow>, InputFault>
    ensures { Gives (λ v. v.items) result (ranks_of shape.now text.now) }
{
    read_sheet(alloc, text, &HEADER, |row, index| {
        rank_row_in(shape, row, index)
    })
}

// Some ranks with their shape and how many channels a link has.
#[derive(Drop)]
struct Listed<'a> {
    ranks: &'a Ranks,
    shape: &'a Shape,
    vcs: usize,
    ghost same: { ranks.now.grid ≡ shape.now },
    ghost numbers: { ranks.now.vcs ≡ vcs },
    ghost few: { vcs ≤ CHANNELS },
}

impl<'a> Lines for Listed<'a> {
    ghost grid = { λ s. s.ranks.now.grid };

    ghost listed = { λ s. local_port s.ranks.now.grid };

    ghost vcs = { λ s. s.ranks.now.vcs };

    ghost said = { λ s router port vc. rank_line s.ranks.now.grid
        (rank_row s.ranks.now router port vc) };

    fn channels(&self) -> ListedChannels<'_> {
        ListedChannels {
            shape: self.shape,
            listed: self.shape.ports() - 1,
            vcs: self.vcs,
        }
    }

    fn add_line(&self, router: usize, port: usize, vc: usize, page: &mut Page) {
        page.add_column(router as u64);
        page.add(known_name(self.shape, port));
        page.add_byte(b',');
        page.add_column(vc as u64);
        let rank = self.ranks.rank(router, port, vc).map(u64::from);
        page.add_or(rank, ADAPTIVE);
        page.add_byte(b'\n');
    }
}

/// Writes a rank file, with a row for each router, each of its ports that has a link, and
/// each of `vcs` virtual channels, in rising order. A row has the rank of that channel, or
/// the text `adaptive` where it has none. The shape and `vcs` are those of the ranks, at most
/// as many as a relation has.
pub fn write_ranks<W: Sink>(
    ranks: &Ranks,
    shape: &Shape,
    vcs: usize,
    sink: &mut W,
) -> Result<(), WriteFault>
    requires shape { ranks.now.grid ≡ shape.now }
    requires vcs { ranks.now.vcs ≡ vcs }
    requires few { vcs ≤ MAX_CHANNELS }
    ensures { Wrote W.contents W.has_failed sink.old sink.new (ranks_text ranks.now) result }
{
    let lines = Listed { ranks, shape, vcs };
    write_lines("router,port,vc,rank\n", &lines, None, sink)
}

/// A text is read as these rows of ranks exactly where its first row is the header and the rows
/// below it write them. Each of these has four fields: numerals, the name of a port of the shape,
/// and a numeral or the text `adaptive`.
///
/// It is refused with this fault exactly where it is the first one. Either there is no header, or
/// the fault is that of the first row that is no row of ranks. Such a row has not four fields, or
/// has four, of which this is the first that may not stand there.
pub fn rank_file_is_read_exactly()
    ensures { (g : Grid) → IsGrid g → IsReadAs (IsRankFile g) (IsRankFileFault g) (ranks_of g) }
{}

/// The rank file of some ranks is read back as rows that name each link channel once with its rank,
/// in rising order of router, port and virtual channel.
pub fn written_ranks_are_read_back()
    ensures { (k : Ranking) → IsRanking k → k.vcs ≤ MAX_CHANNELS
        → (ranks_of k.grid (ranks_text k) ≡ Ok (rank_rows k)) × ListsRanks k (rank_rows k) }
{}
