//! Rows that are made by a number.
ghost use Rattle.std.specs.Prelude.{◌≡◌, ◌≤◌, ◌<◌, ◌+◌, ◌*◌, ◌%◌, ◌^◌, All, IfOk, get_or, length};
ghost use Rattle.table_schema.specs.Widths.{Holds, column_bits};
ghost use Rattle.waldo_run.specs.Made.{made_row, made_rows};

use ring128::Memory;
use std::alloc::Global;
use table_schema::{Row, Widths};

// The bucket of column c in row i; past the columns it is 0.
fn made_bucket(widths: &Widths, number: u32, i: u32, c: u8) -> u8
    requires { c < 6 }
    ensures value { result ≡ (number + i * (c + 1)) % 2 ^ get_or (column_bits widths.now) c 0 }
    ensures held { result < 2 ^ get_or widths.now.bits c 0 }
{
    let buckets = 1u64 << widths.bits[c as usize];
    ((u64::from(number) + u64::from(i) * (u64::from(c) + 1)) % buckets) as u8
}

// Row i.
fn made_row(widths: &Widths, number: u32, i: u32) -> Row
    ensures row { result ≡ made_row (column_bits widths.now) number i }
    ensures held { Holds widths.now result }
{
    Row {
        columns: widths.columns,
        buckets: [
            made_bucket(widths, number, i, 0),
            made_bucket(widths, number, i, 1),
            made_bucket(widths, number, i, 2),
            made_bucket(widths, number, i, 3),
            made_bucket(widths, number, i, 4),
            made_bucket(widths, number, i, 5),
        ],
        value: ((1000 * u64::from(number) + u64::from(i)) % (1 << 32)) as i64,
    }
}

/// `count` rows, made by a number. The only error is out of memory.
pub(crate) fn made_rows(
    alloc: Global,
    widths: &Widths,
    number: u32,
    count: u32,
) -> Result<Vec<Row>, Memory>
    ensures rows { IfOk result (λ rows. rows.items ≡ made_rows (column_bits widths.now) number count) }
    ensures held { IfOk result (λ rows. All (Holds widths.now) rows.items) }
{
    let mut rows = Vec::with_capacity(alloc, count as usize)?;
    for i in 0..count {
        rows.push_reserved(made_row(widths, number, i));
    }
    Ok(rows)
}
