// Rows and queries over one column with four buckets, which the tests share.
ghost use Rattle.table_schema.specs.Widths.{Holds};
ghost use Rattle.query_plan.specs.Query.{Suits};

use prg_chacha::Seed;
use query_plan::{Predicate, Query};
use std::process::Abort;
use table_schema::{Aggregate, Kind, Row, Widths};

pub const WIDTHS: Widths = Widths {
    columns: 1,
    bits: [2, 0, 0, 0, 0, 0],
};

const BLANK: Predicate = Predicate {
    column: 0,
    kind: Kind::Point,
    low: 0,
    high: 0,
};

// The seed from which those of rows and queries are derived.
pub fn master() -> Seed {
    Seed { words: [0; 8] }
}

// A row with this bucket and this value.
pub fn row<R: Abort>(rt: &R, widths: &Widths, bucket: u8, value: u32) -> Row
    ensures { Holds widths.now result }
{
    let row = Row {
        columns: 1,
        buckets: [bucket, 0, 0, 0, 0, 0],
        value: i64::from(value),
    };
    assert!(rt; widths.holds(&row));
    row
}

// How many rows have bucket 3, or the sum of their values.
pub fn query<R: Abort>(rt: &R, widths: &Widths, aggregate: Aggregate) -> Query
    ensures { Suits widths.now.columns widths.now.bits result }
{
    let bucket = Predicate {
        column: 0,
        kind: Kind::Point,
        low: 3,
        high: 3,
    };
    let query = Query {
        aggregate,
        count: 1,
        predicates: [bucket, BLANK, BLANK, BLANK],
    };
    assert!(rt; query.suits(widths));
    query
}
