//! How much servers see of a query, from numbers that are not secret.
ghost use Rattle.std.specs.Prelude.{◌≡◌, ◌≤◌, ◌^◌, All, IfOk, map};
ghost use Rattle.query_plan.specs.KeyMessages.{message_length};
ghost use Rattle.query_plan.specs.Query.{Suits, shaped};
ghost use Rattle.table_schema.specs.Widths.{column_bits};
ghost use Rattle.visit_trace.specs.Counts.{value_columns};
ghost use Rattle.waldo_run.specs.Traces.{noted_over};

use query_plan::{Query, message_length, shape_of};
use ring128::Memory;
use std::alloc::Global;
use table_schema::{Aggregate, Widths};

/// How much a server saw of a query: how many chunks it visited, and how many words the messages have that it sent or received.
#[derive(Clone, Copy)]
pub(crate) struct Counts {
    pub(crate) visits: u64,
    pub(crate) words: u64,
}

/// How much each of the three servers saw of a query.
#[derive(Clone, Copy)]
pub(crate) struct Noted {
    pub(crate) zero: Counts,
    pub(crate) one: Counts,
    pub(crate) two: Counts,
}

// How many columns of values a query reads.
fn value_columns(aggregate: Aggregate) -> u64
    ensures value { result ≡ value_columns aggregate }
    ensures few { result ≤ 1 }
{
    match aggregate {
        Aggregate::Count => 0,
        Aggregate::Sum => 1,
    }
}

// How many words the key message of a query to each server has.
fn message_words(widths: &Widths, query: &Query) -> u64
    requires suits { Suits widths.now.columns widths.now.bits query.now }
    ensures value { result ≡ message_length (shaped query.now) (column_bits widths.now) }
    ensures few { result ≤ 2 ^ 16 }
{
    message_length(&shape_of(query), widths)
}

// How much each server sees of a query over this many rows of these widths.
fn seen_by_all(widths: &Widths, rows: u64, query: &Query) -> Noted
    requires rows { rows ≤ 65536 }
    requires suits { Suits widths.now.columns widths.now.bits query.now }
    ensures { result ≡ noted_over (column_bits widths.now) rows (shaped query.now) }
{
    let count = u64::from(query.count);
    let counts = Counts {
        visits: 2 * (rows.div_ceil(64) * (count + value_columns(query.aggregate))),
        words: message_words(widths, query) + 2 * (2 * rows * (2 * count - 1) + 1),
    };
    Noted {
        zero: counts,
        one: counts,
        two: counts,
    }
}

/// How much each server sees of queries over this many rows of these widths. The only error is out of memory.
pub(crate) fn all_noted(
    alloc: Global,
    widths: &Widths,
    rows: u64,
    queries: &[Query],
) -> Result<Vec<Noted>, Memory>
    requires rows { rows ≤ 65536 }
    requires suits { All (λ q. Suits widths.now.columns widths.now.bits q) queries.now }
    ensures { IfOk result (λ seen. seen.items ≡ map (λ q. noted_over (column_bits widths.now) rows (shaped q)) queries.now) }
{
    let mut seen = Vec::with_capacity(alloc, queries.len())?;
    for query in queries {
        seen.push_reserved(seen_by_all(widths, rows, query));
    }
    Ok(seen)
}
