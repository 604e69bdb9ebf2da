//! The rows of a file of comma-separated fields.

ghost use Rattle.csv.specs.declared.parser.State.TheVariants as st;
ghost use Rattle.std.specs.Prelude.{ℕ, List, ◌≡◌, ◌==◌, ◌∷◌, [], true, false, is_ok, length, map, IfOk, IfErr};
ghost use Rattle.std.specs.Cmp.Lexicographic.{pointwise};
ghost use Rattle.std.specs.Str.{bytes_eq};
ghost use Rattle.noc_files.specs.Prelude.{fields_of, Each};
ghost use Rattle.csv.specs.Reading.{AreRecords, default_config, strip_bom};
ghost use Rattle.noc_files.specs.Plain.{IsPlainRow, plain_text};
ghost use Rattle.noc_files.specs.Ports.{port_at};
ghost use Rattle.noc_files.specs.Rows.{Fields, IsBetweenRows, number_of, number_at, rows_left, text_rows};

use crate::ports::port_named;
use csv::{ByteRecord, ErrorKind, Reader, ReaderBuilder};
use noc_bytes::InputFault;
use noc_topo::Shape;
use std::alloc::Global;

// A reader of all the rows of a text, the header too.
pub(crate) fn rows(alloc: Global, text: &[u8]) -> Reader<&[u8]>
    ensures ready { IsBetweenRows result }
    ensures left { rows_left result ≡ text_rows text.now }
{
    ReaderBuilder::new()
        .has_headers(false)
        .flexible(true)
        .from_reader(alloc, text)
}

// Reads the next row into `row`, if there is one. Rows have any length and a slice never fails, so
// memory was refused where none is read.
pub(crate) fn next_row(reader: &mut Reader<&[u8]>, row: &mut ByteRecord) -> Result<bool, InputFault>
    requires { IsBetweenRows reader.old }
    ensures ready { IfOk result (λ found. found ≡ true → IsBetweenRows reader.new) }
    ensures row { IfOk result (λ found. found ≡ true
        → rows_left reader.old ≡ fields_of row.new ∷ rows_left reader.new) }
    ensures end { IfOk result (λ found. found ≡ false → rows_left reader.old ≡ []) }
    ensures err { IfErr result (λ e. e ≡ InputFault.Memory) }
{
    match reader.read_byte_record(row) {
        Ok(found) => Ok(found),
        Err(error) => match error.into_kind() {
            ErrorKind::OutOfMemory | ErrorKind::Io(_) => Err(InputFault::Memory),
            _ => unreachable!(),
        },
    }
}

// Whether the row has just these fields.
pub(crate) fn has_fields(row: &ByteRecord, names: &[&str]) -> bool
    ensures { result ≡ pointwise bytes_eq (fields_of row.now) (map (λ n. n.now) names.now) }
{
    if row.len() != names.len() {
        return false;
    }
    for i in 0..names.len() {
        let Some(field) = row.get(i) else {
            return false;
        };
        if field != names[i].as_bytes() {
            return false;
        }
    }
    true
}

// Refuses the row by `BadCount`, unless it has so many fields.
pub(crate) fn want_fields(row: &ByteRecord, index: usize, count: usize) -> Result<(), InputFault>
    ensures so_many { is_ok result ≡ (length (fields_of row.now) == count) }
    ensures fault { IfErr result (λ e. e ≡ InputFault.BadCount index) }
{
    if row.len() != count {
        return Err(InputFault::BadCount { row: index });
    }
    Ok(())
}

// The number that a field writes: 1 to 10 decimal digits, with a value below 2 ^ 32.
pub(crate) fn number(field: &[u8]) -> Option<u32>
    ensures { result ≡ number_of field.now }
{
    if field.is_empty() || 10 < field.len() {
        return None;
    }
    let mut value = 0u64;
    for digit in field {
        if !digit.is_ascii_digit() {
            return None;
        }
        value = value * 10 + u64::from(*digit - b'0');
    }
    u32::try_from(value).ok()
}

// The number in a column of a row.
pub(crate) fn number_in(row: &ByteRecord, index: usize, column: usize) -> Result<u32, InputFault>
    ensures { result ≡ number_at index column (fields_of row.now) }
{
    row.get(column)
        .and_then(number)
        .ok_or(InputFault::BadNumber { row: index, column })
}

// The port in a column of a row.
pub(crate) fn port_in(
    shape: &Shape,
    row: &ByteRecord,
    index: usize,
    column: usize,
) -> Result<usize, InputFault>
    ensures { result ≡ port_at shape.now index column (fields_of row.now) }
{
    row.get(column)
        .and_then(|field| port_named(shape, field))
        .ok_or(InputFault::BadPort { row: index, column })
}

/// The rows of a text are its records, all of them and in order.
pub fn rows_are_records()
    ensures { (text : List ℕ) → AreRecords default_config st.StartRecord (strip_bom text)
        (text_rows text) }
{}

/// The lines of rows are read back as these rows, where the fields are ASCII without commas, quotes
/// and ends of lines and no row begins with an empty field.
pub fn plain_rows_are_read_back()
    ensures { (rows : List Fields) → Each IsPlainRow rows → text_rows (plain_text rows) ≡ rows }
{}
