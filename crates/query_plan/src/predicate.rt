ghost use Rattle.std.specs.Prelude.{◌≡◌, ◌<◌, IfOk, IfSome, length, map};
ghost use Rattle.table_schema.specs.declared.schema.Column.{Column};
ghost use Rattle.text_reading.specs.Reading.{Reads};
ghost use Rattle.query_plan.specs.Query.{has_column, IsNext};
ghost use Rattle.query_plan.specs.Reading.{column_named, predicate_of};

use crate::form::said;
use crate::query::{Predicate, QueryWhy};
use table_schema::{Kind, Schema};

/// The place of the column with the name.
#[tactic(auto, using(crate::proofs::QueryLaws::column_hit, crate::proofs::QueryLaws::column_miss))]
pub(crate) fn named(schema: &Schema, name: &[u8]) -> Option<u8>
    ensures value { result ≡ column_named name.now schema.now }
    ensures there { IfSome result (λ c. c < length schema.now) }
{
    let columns = schema.count();
    for c in 0..columns {
        if schema.column(c).name.as_bytes() == name {
            return Some(c);
        }
    }
    None
}

// Whether one of the predicates has the column.
pub(crate) fn is_taken(c: u8, earlier: &[Predicate]) -> bool
    ensures { result ≡ has_column c earlier.now }
{
    for p in earlier {
        if p.column == c {
            return true;
        }
    }
    false
}

/// The predicate of a piece behind earlier ones, or its first fault.
#[tactic(auto, using(crate::proofs::QueryLaws::bucket_below, crate::proofs::QueryLaws::buckets_in_order), unfolding(crate::specs::Reading::predicate_of))]
pub(crate) fn predicate(
    schema: &Schema,
    earlier: &[Predicate],
    piece: &[u8],
) -> Result<Predicate, QueryWhy>
    ensures exact { Reads (λ p. p) result (predicate_of schema.now earlier.now piece.now) }
    ensures next { IfOk result (λ p. IsNext (length schema.now) (map (λ (c : Column). c.bits) schema.now) earlier.now p) }
{
    let Some((name, kind, first, last)) = said(piece) else {
        return Err(QueryWhy::Form);
    };
    let Some(column) = named(schema, name) else {
        return Err(QueryWhy::Unknown);
    };
    if is_taken(column, earlier) {
        return Err(QueryWhy::Repeated);
    }
    let Some(bucket) = schema.bucket(column, first) else {
        return Err(QueryWhy::Domain);
    };
    let Some(high) = schema.bucket(column, last) else {
        return Err(QueryWhy::Domain);
    };
    if first > last {
        return Err(QueryWhy::Order);
    }
    let low = match kind {
        Kind::AtMost => 0,
        Kind::Point | Kind::Interval => bucket,
    };
    Ok(Predicate {
        column,
        kind,
        low,
        high,
    })
}
