ghost use Rattle.std.specs.Prelude.{◌≡◌, ◌<◌, IfOk, codes, length};
ghost use Rattle.table_schema.specs.declared.widths.Widths.{Widths};
ghost use Rattle.query_plan.specs.Query.{AreWidthsOf, Suits};
ghost use Rattle.text_reading.specs.Reading.{Reads};
ghost use Rattle.text_reading.specs.Cut.{pieces_left};
ghost use Rattle.std.specs.Str.{bytes_eq};
ghost use Rattle.std.specs.Option.{option_copied};
ghost use Rattle.query_plan.specs.Grouping.{group_of};
ghost use Rattle.query_plan.specs.Reading.{query_of_pieces};

use crate::predicate::named;
use crate::query::{Query, QueryFault};
use crate::read::read_bytes;
use table_schema::Schema;
use text_reading::cut_last;

/// A query, and the column by whose buckets its answers are given.
#[derive(Clone, Copy, Debug)]
pub struct GroupQuery {
    pub query: Query,
    pub column: u8,
}

/// Why a text is no such query: it does not end with ` by ` and a column's name, or what stands before that is no query.
#[derive(Clone, Copy, Debug, PartialEq, Eq)]
pub enum GroupFault {
    By,
    Query { fault: QueryFault },
}

// Whether a piece is the word before a column's name.
fn is_by(word: &[u8]) -> bool
    ensures { result ≡ bytes_eq word.now (codes "by") }
{
    word == b"by".as_slice()
}

// The query of what stands before ` by `, if anything does.
fn query_before(schema: &Schema, text: Option<&[u8]>) -> Result<Query, QueryFault>
    ensures exact { Reads (λ q. q) result (query_of_pieces schema.now (pieces_left 32 (option_copied text.entry))) }
    ensures suits { IfOk result (λ q. (w : Widths) → AreWidthsOf schema.now w → Suits w.columns w.bits q) }
{
    match text {
        None => Err(QueryFault::Aggregate),
        Some(bytes) => read_bytes(schema, bytes),
    }
}

/// The query by the buckets of a column that a text describes: a query's text, ` by ` and a column's name; or its fault. Costs no
/// memory.

pub fn read_group(schema: &Schema, text: &str) -> Result<GroupQuery, GroupFault>
    ensures exact { Reads (λ g. g) result (group_of schema.now text.now) }
    ensures suits { IfOk result (λ g. (w : Widths) → AreWidthsOf schema.now w → Suits w.columns w.bits g.query) }
    ensures there { IfOk result (λ g. g.column < length schema.now) }
{
    let (front, name) = cut_last(text.as_bytes(), b' ');
    let Some(front) = front else {
        return Err(GroupFault::By);
    };
    let (before, word) = cut_last(front, b' ');
    if !is_by(word) {
        return Err(GroupFault::By);
    }
    let Some(column) = named(schema, name) else {
        return Err(GroupFault::By);
    };
    match query_before(schema, before) {
        Ok(query) => Ok(GroupQuery { query, column }),
        Err(fault) => Err(GroupFault::Query { fault }),
    }
}
