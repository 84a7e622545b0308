ghost use Rattle.std.specs.Prelude.{◌≡◌, ◌<◌, Some, length};
ghost use Rattle.std.specs.Str.{is_utf8};
ghost use Rattle.csv.specs.Records.{field_at, fields_of};
ghost use Rattle.text_reading.specs.Reading.{Reads};
ghost use Rattle.row_source.specs.Rows.{number_field, row_of, is_header, sign_of, value_field, value_of};

use csv::ByteRecord;
use report_lines::RowWhy;
use std::str;
use table_schema::{Row, Schema};
use text_reading::number;

// The field with this place.
#[tactic(auto, using(crate::proofs::FieldLaws::past_fields))]
fn field(line: &ByteRecord, i: usize) -> &[u8]
    requires { i < length (fields_of line.now) }
    ensures { field_at (fields_of line.now) i ≡ Some result.now }
{
    match line.get(i) {
        Some(field) => field,
        None => unreachable!(),
    }
}

#[tactic(auto, using(crate::proofs::FieldLaws::no_text, crate::proofs::FieldLaws::is_text))]
fn is_text(field: &[u8]) -> bool
    ensures { result ≡ is_utf8 field.now }
{
    match str::from_utf8(field) {
        Ok(_) => true,
        Err(_) => false,
    }
}

// The number of a field, or its first fault.
#[tactic(auto, unfolding(crate::specs::Rows::number_field))]
fn number_in(field: &[u8]) -> Result<u64, RowWhy>
    ensures { Reads (λ n. n) result (number_field field.now) }
{
    if !is_text(field) {
        return Err(RowWhy::Text);
    }
    match number(field) {
        Some(n) => Ok(n),
        None => Err(RowWhy::Number),
    }
}

// Whether a text begins with `-`, and what follows that.
fn sign(text: &[u8]) -> (bool, &[u8])
    ensures below { result.0 ≡ (sign_of text.now).0 }
    ensures size { result.1.now ≡ (sign_of text.now).1 }
{
    match text {
        [first, rest @ ..] => {
            if *first == b'-' {
                (true, rest)
            } else {
                (false, text)
            }
        }
        [] => (false, text),
    }
}

// The value of a size, below zero or not, where it is within the limits.
fn value(is_below: bool, size: u64) -> Result<i64, RowWhy>
    ensures { Reads (λ v. v) result (value_of is_below size) }
{
    if size > 4_294_967_295 {
        return Err(RowWhy::Value);
    }
    let size = size as i64;
    Ok(if is_below { -size } else { size })
}

// The value of the last field, or its first fault.
#[tactic(auto, unfolding(crate::specs::Rows::value_field))]
fn value_in(field: &[u8]) -> Result<i64, RowWhy>
    ensures { Reads (λ v. v) result (value_field field.now) }
{
    if !is_text(field) {
        return Err(RowWhy::Text);
    }
    let (is_below, digits) = sign(field);
    match number(digits) {
        Some(size) => value(is_below, size),
        None => Err(RowWhy::Number),
    }
}

/// The row of a record, or its first fault.
#[tactic(auto, using(crate::proofs::RowLaws::other_fields, crate::proofs::RowLaws::row_start, crate::proofs::RowLaws::bad_number, crate::proofs::RowLaws::bad_domain, crate::proofs::RowLaws::next_bucket, crate::proofs::RowLaws::last_value, crate::proofs::RowLaws::bad_value))]
pub(crate) fn row_in(schema: &Schema, line: &ByteRecord) -> Result<Row, RowWhy>
    ensures { Reads (λ r. r) result (row_of schema.now (fields_of line.now)) }
{
    let columns = schema.count();
    if line.len() != columns as usize + 1 {
        return Err(RowWhy::Fields);
    }
    let mut buckets = [0; 6];
    for c in 0..columns {
        let raw = match number_in(field(line, c as usize)) {
            Ok(raw) => raw,
            Err(why) => return Err(why),
        };
        let Some(bucket) = schema.bucket(c, raw) else {
            return Err(RowWhy::Domain);
        };
        buckets[c as usize] = bucket;
    }
    match value_in(field(line, columns as usize)) {
        Ok(value) => Ok(Row {
            columns,
            buckets,
            value,
        }),
        Err(why) => Err(why),
    }
}

/// Whether a record is the columns' names in order and then `value`.
#[tactic(auto, using(crate::proofs::HeaderLaws::other_length, crate::proofs::HeaderLaws::header_next, crate::proofs::HeaderLaws::header_last))]
pub(crate) fn is_header_row(schema: &Schema, line: &ByteRecord) -> bool
    ensures { result ≡ is_header schema.now (fields_of line.now) }
{
    let columns = schema.count();
    if line.len() != columns as usize + 1 {
        return false;
    }
    for c in 0..columns {
        if field(line, c as usize) != schema.column(c).name.as_bytes() {
            return false;
        }
    }
    field(line, columns as usize) == b"value".as_slice()
}
