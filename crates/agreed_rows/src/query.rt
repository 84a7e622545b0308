//! A query over rows that were agreed on.
ghost use Rattle.std.specs.Prelude.{◌≡◌, ◌<◌, List};
ghost use Rattle.query_plan.specs.Query.{Suits};
ghost use Rattle.server_rounds.specs.declared.opened.OpenedPair.{OpenedPair};
ghost use Rattle.weighted_check.specs.Check.{checked};
ghost use Rattle.wire_line.specs.Messages.{IsHonest, Went};
ghost use Rattle.wire_line.specs.declared.message.Message.{Message};
ghost use Rattle.agreed_rows.specs.Answers.{Answers, AddsTrace, IsPlainAnswer, answered_by};
ghost use Rattle.wire_line.specs.Sights.{HasAltered};

use crate::agreed::Agreed;
use prg_chacha::Seed;
use query_plan::{Query, make_keys};
use server_rounds::OpenedPair;
use std::alloc::Global;
use std::thread::Threads;
use visit_trace::Trace;
use weighted_check::{Altered, check};
use wire_line::Wire;

/// The count or sum, which may be negative, and over how many rows.
#[derive(Clone, Copy, Debug, PartialEq, Eq)]
pub struct Answered {
    pub rows: u64,
    pub total: i64,
}

/// Why a query was not answered: the check refused the two totals that were opened, or it was out of memory.
#[derive(Clone, Copy, Debug, PartialEq, Eq)]
pub enum AnswerFault {
    Altered { total: u128, weighted: u128 },
    Memory,
}

/// Asks a query, with its seed, over the rows, each server's shared among this many workers. The answer is the plain count or sum
/// where each message was received as it was sent; `Altered` comes only where one was not, and `Memory` at any time. Out of memory,
/// the first messages of the query may have been carried. What the servers see of the query is noted in the trace, the same for every
/// query of this shape over as many rows; out of memory, a prefix of it.
pub fn answer<R: Threads + Sync, W: Wire>(
    rt: &R,
    alloc: Global,
    agreed: &Agreed,
    query: &Query,
    seed: &Seed,
    wire: &mut W,
    trace: &mut Trace,
    workers: u8,
) -> Result<Answered, AnswerFault>
    requires suits { Suits agreed.now.widths.columns agreed.now.widths.bits query.now }
    requires some { 0 < workers }
    ensures answers { (ms : List Message) × (pair : OpenedPair) × Went W.sight wire.old ms wire.new
        × Answers agreed.now query.now seed.now ms pair result
        × (IsHonest ms → IsPlainAnswer agreed.now query.now result) }
    ensures trace { AddsTrace agreed.now query.now trace.old trace.new result }
    ensures plain { ¬ HasAltered W.sight wire.old wire.new → IsPlainAnswer agreed.now query.now result }
{
    let Ok(keys) = make_keys(alloc, query, &agreed.widths, seed) else {
        return Err(AnswerFault::Memory);
    };
    match agreed
        .rows
        .open_pair(rt, alloc, workers, &keys, wire, trace)
    {
        Err(_) => Err(AnswerFault::Memory),
        Ok(pair) => judge(agreed.rows.rows(), pair, keys.key()),
    }
}

// The answer over this many rows, where a query with this key opened the pair.
fn judge(rows: u64, pair: OpenedPair, key: u128) -> Result<Answered, AnswerFault>
    ensures { result ≡ answered_by rows (checked pair.total pair.weighted key) }
{
    match check(pair.total, pair.weighted, key) {
        Ok(total) => Ok(Answered { rows, total }),
        Err(Altered { total, weighted }) => Err(AnswerFault::Altered { total, weighted }),
    }
}
