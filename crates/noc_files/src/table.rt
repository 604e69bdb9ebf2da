//! Table files (docs/FORMATS.md).

ghost use Rattle.std.specs.Prelude.{◌≡◌, List, Ok};
ghost use Rattle.noc_files.specs.Prelude.{fields_of, Grid, IsGrid, Each, Gives, IsReadAs};
ghost use Rattle.noc_route.specs.declared.rule.RouteRow.{RouteRow as Route};
ghost use Rattle.noc_files.specs.Table.{route_row_of, table_of, table_text, IsTable, IsTableFault, IsWritableRow};

use crate::rows::{number_in, port_in, want_fields};
use crate::sheet::read_sheet;
use csv::ByteRecord;
use noc_bytes::InputFault;
use noc_route::RouteRow;
use noc_topo::Shape;
use std::alloc::Global;

static HEADER: [&str; 7] = [
    "class", "router", "in_port", "in_vc", "dst", "out_port", "out_vc",
];

// The row of a table that a row of fields says.
#[tactic(auto, unfolding(crate::specs::Table::route_row_of))]
fn route_row_in(shape: &Shape, row: &ByteRecord, index: usize) -> Result<RouteRow, InputFault>
    ensures { result ≡ route_row_of shape.now index (fields_of row.now) }
{
    want_fields(row, index, 7)?;
    let class = number_in(row, index, 0)?;
    let router = number_in(row, index, 1)?;
    let in_port = port_in(shape, row, index, 2)?;
    let in_vc = number_in(row, index, 3)?;
    let dst = number_in(row, index, 4)?;
    let out_port = port_in(shape, row, index, 5)?;
    let out_vc = number_in(row, index, 6)?;
    Ok(RouteRow {
        class: class as usize,
        router: router as usize,
        in_port,
        in_vc: in_vc as usize,
        dst: dst as usize,
        out_port,
        out_vc: out_vc as usize,
    })
}

/// The rows of a table file, or its first fault: `BadHeader`, and then row by row `BadCount`,
/// `BadNumber` and `BadPort` from left to right; `Memory` where a growth was refused
/// (docs/FORMATS.md). Ports have the names of the shape.
pub fn read_table(alloc: Global, shape: &Shape, text: &[u8]) -> Result<Vec<RouteRow>, InputFault>
    ensures { Gives (λ v. v.items) result (table_of shape.now text.now) }
{
    read_sheet(alloc, text, &HEADER, |row, index| {
        route_row_in(shape, row, index)
    })
}

/// A text is read as these rows of a table exactly where its first row is the header and the rows
/// below it write them. Each of these has seven fields, numerals and names of ports of the shape.
///
/// It is refused with this fault exactly where it is the first one. Either there is no header, or
/// the fault is that of the first row that is no row of a table. Such a row has not seven fields,
/// or has seven, of which this is the first that is no numeral or names no port of the shape.
pub fn table_is_read_exactly()
    ensures { (g : Grid) → IsGrid g → IsReadAs (IsTable g) (IsTableFault g) (table_of g) }
{}

/// The plainest table file of some rows is read back as these rows, where their numbers are at most
/// 4294967295 and the shape has their ports.
pub fn written_table_is_read_back()
    ensures { (g : Grid) → IsGrid g → (rows : List Route) → Each (IsWritableRow g) rows
        → table_of g (table_text g rows) ≡ Ok rows }
{}
