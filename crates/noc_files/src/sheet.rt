//! Files of rows under a header.

ghost use Rattle.std.specs.Prelude.{◌≡◌, ℕ, [], Result, map, vec_len};
ghost use Rattle.noc_files.specs.Prelude.{InputFault as Fault, Gives};
ghost use Rattle.noc_files.specs.Rows.{Fields, IsBetweenRows, rows_left, text_rows};
ghost use Rattle.noc_files.specs.Sheet.{ReadsRows, sheet};

use crate::rows::{has_fields, next_row, rows};
use csv::{ByteRecord, Reader};
use noc_bytes::InputFault;
use std::alloc::Global;

// What the rows under this header say, by what each row is read as, or the first fault.
pub(crate) fn read_sheet<V: Drop, F: Fn(&ByteRecord, usize) -> Result<V, InputFault> + Drop>(
    alloc: Global,
    text: &[u8],
    header: &[&str],
    read: F,
) -> Result<Vec<V>, InputFault>
    requires { F.IsAlwaysCallable read }
    ensures { (said : ℕ → Fields → Result V Fault) → ReadsRows (F.post read) said
        → Gives (λ v. v.items) result
        (sheet said (map (λ n. n.now) header.now) (text_rows text.now)) }
{
    let mut reader = rows(alloc, text);
    let mut row = ByteRecord::new(alloc);
    let mut values = Vec::new(alloc);
    read_left(&mut reader, &mut row, header, &read, &mut values)?;
    Ok(values)
}

// What the rows that a reader has left say, the header first. Each is read into `row`.
fn read_left<V: Drop, F: Fn(&ByteRecord, usize) -> Result<V, InputFault>>(
    reader: &mut Reader<&[u8]>,
    row: &mut ByteRecord,
    header: &[&str],
    read: &F,
    values: &mut Vec<V>,
) -> Result<(), InputFault>
    requires ready { IsBetweenRows reader.old }
    requires callable { F.IsAlwaysCallable read.now }
    requires empty { (values.old.items ≡ []) × (vec_len values.old ≡ 0) }
    ensures { (said : ℕ → Fields → Result V Fault) → ReadsRows (F.post read.now) said
        → Gives (λ _. values.new.items) result
        (sheet said (map (λ n. n.now) header.now) (rows_left reader.old)) }
{
    if !next_row(reader, row)? {
        return Err(InputFault::BadHeader);
    }
    if !has_fields(row, header) {
        return Err(InputFault::BadHeader);
    }
    'rows: while next_row(reader, row)? {
        let value = read(row, values.len())?;
        values.push(value)?;
    }
    Ok(())
}
