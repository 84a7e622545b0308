ghost use Rattle.std.specs.Prelude.{◌≡◌, ◌∷◌, ◌≤◌, ℕ, List, length, IfErr, IfOk};
ghost use Rattle.csv.specs.Records.{fields_of};
ghost use Rattle.text_reading.specs.Reading.{Gives};
ghost use Rattle.row_source.specs.Progress.{outcome};
ghost use Rattle.row_source.specs.Rows.{AreRowsOf, input_records, rows_of};
ghost use Rattle.row_source.specs.declared.faults.RowFault.TheVariants as fault;

use crate::faults::RowFault;
use crate::record::{is_header_row, row_in};
use crate::records::{next_record, open};
use csv::ByteRecord;
use report_lines::RowWhy;
use std::alloc::Global;
use table_schema::{Row, Schema};

// Takes a record as a row, unless a bad record came before it.
#[tactic(auto, using(crate::proofs::ReadLaws::good_row, crate::proofs::ReadLaws::bad_row))]
fn take_row(
    schema: &Schema,
    line: &ByteRecord,
    rows: &mut Vec<Row>,
    bad: Option<RowWhy>,
) -> Result<Option<RowWhy>, RowFault>
    ensures taken { IfOk result (λ after. (rs : List (List (List ℕ)))
        → outcome schema.now rows.new.items after rs ≡ outcome schema.now rows.old.items bad (fields_of line.now ∷ rs)) }
    ensures memory { IfErr result (λ e. e ≡ fault.Memory) }
{
    if bad.is_some() {
        return Ok(bad);
    }
    match row_in(schema, line) {
        Ok(row) => {
            rows.push(row)?;
            Ok(None)
        }
        Err(why) => Ok(Some(why)),
    }
}

// All rows of an input, or its first fault.
fn all_rows(
    alloc: Global,
    schema: &Schema,
    capacity: u32,
    bytes: &[u8],
) -> Result<Vec<Row>, RowFault>
    ensures { Gives fault.Memory (λ v. v.items) result (rows_of schema.now capacity (input_records bytes.now)) }
{
    let mut reader = open(alloc, bytes);
    let mut line = ByteRecord::new(alloc);
    if !next_record(&mut reader, &mut line)? {
        return Err(RowFault::Header);
    }
    if !is_header_row(schema, &line) {
        return Err(RowFault::Header);
    }
    let mut rows = Vec::new(alloc);
    let mut bad = None;
    let mut count = 0;
    'records: while next_record(&mut reader, &mut line)? {
        if count == capacity {
            return Err(RowFault::TooMany { capacity });
        }
        count += 1;
        bad = take_row(schema, &line, &mut rows, bad)?;
    }
    match bad {
        None => Ok(rows),
        Some(why) => Err(RowFault::BadRecord {
            number: rows.len() as u64 + 1,
            why,
        }),
    }
}

/// The rows of an input, or its first fault. The records are those that `csv` reads from the whole input
/// under its default settings, but without headers and with records of any length. The first is the header,
/// and each further one is a row: a number with a bucket for each column in order, then the value.
pub fn read_rows(
    alloc: Global,
    schema: &Schema,
    capacity: u32,
    bytes: &[u8],
) -> Result<Vec<Row>, RowFault>
    // The meaning, or the first fault.
    ensures exact { Gives fault.Memory (λ v. v.items) result (rows_of schema.now capacity (input_records bytes.now)) }

    // So the widths of the schema hold each row.
    ensures held { IfOk result (λ v. AreRowsOf schema.now v.items) }

    // There are at most as many as the capacity.
    ensures few { IfOk result (λ v. length v.items ≤ capacity) }
{
    let _count = schema.count();
    all_rows(alloc, schema, capacity, bytes)
}
