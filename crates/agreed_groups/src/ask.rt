//! A query by the buckets of a column over rows that were agreed on.
ghost use Rattle.std.specs.Prelude.{◌≡◌, ◌<◌, ℕ, List, IfOk};
ghost use Rattle.query_plan.specs.Query.{Suits};
ghost use Rattle.wire_line.specs.Messages.{IsHonest, Went};
ghost use Rattle.wire_line.specs.Sights.{HasAltered};
ghost use Rattle.wire_line.specs.declared.message.Message.{Message};
ghost use Rattle.visit_trace.specs.Seen.{GrewBy};
ghost use Rattle.agreed_rows.specs.Answers.{sizes_over};
ghost use Rattle.bucket_groups.specs.Seen.{group_trace};
ghost use Rattle.agreed_groups.specs.Answers.{AnswersGroups, plain_groups};

use agreed_rows::Agreed;
use bucket_groups::{GroupAnswers, check_groups, group_runs};
use prg_chacha::Seed;
use query_plan::{Query, make_keys};
use ring128::Memory;
use std::alloc::Global;
use std::thread::Threads;
use table_schema::Widths;
use visit_trace::Trace;
use wire_line::Wire;

/// Asks a query by the buckets of a column, with its seed, over rows of these widths, each server's shared among this many workers.
/// There is an answer a bucket: the plain count or sum over the rows of the bucket where each message was received as it was sent;
/// `Altered` comes only where one was not, and for each bucket by its own pair. The only error is out of memory; the first messages
/// of the query may then have been carried. What the servers see is noted in the trace, the same for every query of this shape by this
/// column over as many rows; out of memory, a prefix of it.
pub fn answer_groups<R: Threads + Sync, W: Wire>(
    rt: &R,
    alloc: Global,
    agreed: &Agreed,
    widths: &Widths,
    query: &Query,
    column: u8,
    seed: &Seed,
    wire: &mut W,
    trace: &mut Trace,
    workers: u8,
) -> Result<GroupAnswers, Memory>
    requires widths { agreed.now.widths ≡ widths.now }
    requires suits { Suits widths.now.columns widths.now.bits query.now }
    requires column { column < widths.now.columns }
    requires some { 0 < workers }
    ensures answers { (ms : List Message) × (total : List ℕ) × (weighted : List ℕ) × Went W.sight wire.old ms wire.new
        × AnswersGroups agreed.now query.now column seed.now ms total weighted result
        × (IsHonest ms → IfOk result (λ a. a ≡ plain_groups agreed.now query.now column)) }
    ensures trace { GrewBy trace.old trace.new (group_trace (sizes_over agreed.now query.now) column) result }
    ensures plain { ¬ HasAltered W.sight wire.old wire.new → IfOk result (λ a. a ≡ plain_groups agreed.now query.now column) }
{
    transcript::laws::columns_suffice();
    transcript::laws::pieces_hold();
    transcript::laws::plain_is_small();
    bucket_groups::laws::buckets_see_columns();
    bucket_groups::laws::group_pairs_open();
    agreed.rows();
    let keys = make_keys(alloc, query, widths, seed)?;
    keys.shape();
    let mut shelves = agreed.shelves(alloc, workers)?;
    let totals = group_runs(rt, alloc, &mut shelves, &keys, column, wire, trace)?;
    let answers = check_groups(alloc, &totals, keys.key())?;
    Ok(answers)
}
