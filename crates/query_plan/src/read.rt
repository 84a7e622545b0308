ghost use Rattle.std.specs.Prelude.{◌≡◌, IfOk, length};
ghost use Rattle.table_schema.specs.declared.widths.Widths.{Widths};
ghost use Rattle.query_plan.specs.Query.{AreWidthsOf, Suits};
ghost use Rattle.text_reading.specs.Reading.{Reads};
ghost use Rattle.text_reading.specs.Cut.{pieces_left};
ghost use Rattle.std.specs.Option.{option_copied};
ghost use Rattle.query_plan.specs.Reading.{aggregate_of, query_of};

use crate::predicate::predicate;
use crate::query::{MOST_PREDICATES, NO_PREDICATE, Query, QueryFault};
use table_schema::{Aggregate, Schema};
use text_reading::{count_pieces, cut};

// What the first piece asks for.
#[tactic(auto, unfolding(crate::specs::Reading::aggregate_of))]
fn aggregate(word: &[u8]) -> Option<Aggregate>
    ensures { result ≡ aggregate_of word.now }
{
    if word == b"count".as_slice() {
        Some(Aggregate::Count)
    } else if word == b"sum".as_slice() {
        Some(Aggregate::Sum)
    } else {
        None
    }
}

// How many pieces are left.
fn count_left(rest: Option<&[u8]>) -> usize
    ensures { result ≡ length (pieces_left 32 (option_copied rest.entry)) }
{
    match rest {
        None => 0,
        Some(bytes) => count_pieces(bytes, b' '),
    }
}

/// The query that a text describes: `count` or `sum`, then 1 to 4 predicates, cut at each space; or the first
/// fault from the left. A query that is read is legal over the schema's widths. Costs no memory.
pub fn read_query(schema: &Schema, text: &str) -> Result<Query, QueryFault>
    ensures exact { Reads (λ q. q) result (query_of schema.now text.now) }
    ensures suits { IfOk result (λ q. (w : Widths) → AreWidthsOf schema.now w → Suits w.columns w.bits q) }
    ensures places { IfOk result (λ q. length q.predicates ≡ 4) }
{
    read_bytes(schema, text.as_bytes())
}

// The same, of the bytes of a text.
#[tactic(auto, using(crate::proofs::QueryLaws::no_aggregate, crate::proofs::QueryLaws::too_few, crate::proofs::QueryLaws::too_many, crate::proofs::QueryLaws::begins, crate::proofs::QueryLaws::good_predicate, crate::proofs::QueryLaws::bad_predicate, crate::proofs::QueryLaws::no_more, crate::proofs::QueryLaws::fewer_left, crate::proofs::Legal::suits_widths))]
pub(crate) fn read_bytes(schema: &Schema, text: &[u8]) -> Result<Query, QueryFault>
    ensures exact { Reads (λ q. q) result (query_of schema.now text.now) }
    ensures suits { IfOk result (λ q. (w : Widths) → AreWidthsOf schema.now w → Suits w.columns w.bits q) }
    ensures places { IfOk result (λ q. length q.predicates ≡ 4) }
{
    let (word, after) = cut(text, b' ');
    let Some(aggregate) = aggregate(word) else {
        return Err(QueryFault::Aggregate);
    };
    let had = count_left(after);
    if had < 1 || had > MOST_PREDICATES {
        return Err(QueryFault::Count { had: had as u64 });
    }
    let mut query = Query {
        aggregate,
        count: 0,
        predicates: [NO_PREDICATE; 4],
    };
    let mut rest = after;
    while let Some(bytes) = rest {
        let (piece, more) = cut(bytes, b' ');
        let index = query.count;
        match predicate(schema, &query.predicates[..index as usize], piece) {
            Ok(p) => {
                query.predicates[index as usize] = p;
                query.count = index + 1;
            }
            Err(why) => return Err(QueryFault::Predicate { index, why }),
        }
        rest = more;
    }
    Ok(query)
}
