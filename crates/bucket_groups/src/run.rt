//! A run by buckets, and both runs.
ghost use Rattle.std.specs.Prelude.{◌≡◌, ◌<◌, ◌≤◌, ◌++◌, List, map, length, IfOk};
ghost use Rattle.wire_line.specs.declared.message.Message.{Message};
ghost use Rattle.wire_line.specs.Messages.{Went};
ghost use Rattle.wire_line.specs.Sights.{HasAltered};
ghost use Rattle.table_schema.specs.declared.rows.Row.{Row};
ghost use Rattle.transcript.specs.Rows.{HoldRows};
ghost use Rattle.transcript.specs.Transcript.{IsPart, IsTranscript};
ghost use Rattle.server_rounds.specs.Groups.{by_server};
ghost use Rattle.server_rounds.specs.Plans.{sizes_for, views_of};
ghost use Rattle.server_rounds.specs.Runs.{IsRunPart};
ghost use Rattle.server_rounds.specs.Shelves.{AreShelves, pieces_of, rows_of};
ghost use Rattle.server_rounds.specs.Visits.{AllVisited};
ghost use Rattle.visit_trace.specs.Seen.{GrewBy};
ghost use Rattle.bucket_groups.specs.Ending.{bucket_ending, groups_for, opened_groups};
ghost use Rattle.bucket_groups.specs.Grouped.{AreGrouped};
ghost use Rattle.bucket_groups.specs.Rounds.{AreGroups};
ghost use Rattle.bucket_groups.specs.Seen.{group_columns, group_part, group_trace};

use crate::rounds::{before_buckets, bucket_round};
use query_plan::Keys;
use ring128::{Memory, Words};
use scan_chunks::Shelf;
use server_rounds::{Ready, Servers, count_rows, run_products};
use std::alloc::Global;
use std::thread::Threads;
use visit_trace::Trace;
use wire_line::Wire;

/// What the client opened in the two runs, a word a bucket.
#[derive(Drop)]
pub struct GroupTotals {
    pub total: Words,
    pub weighted: Words,
}

// A run, and what the client opened in it.
fn run_groups<R: Threads + Sync, S: Shelf + Send, W: Wire>(
    rt: &R,
    alloc: Global,
    ready: &Ready,
    column: u8,
    run: u8,
    shelves: &mut Servers<S>,
    wire: &mut W,
    trace: &mut Trace,
) -> Result<Words, Memory>
    requires run { run < 2 }
    requires column { column < ready.now.plan.widths.columns }
    requires zero { AreShelves ready.now.plan.widths ready.now.plan.rows (map S.held shelves.old.zero.items) }
    requires one { AreShelves ready.now.plan.widths ready.now.plan.rows (map S.held shelves.old.one.items) }
    requires two { AreShelves ready.now.plan.widths ready.now.plan.rows (map S.held shelves.old.two.items) }
    ensures zero { map S.held shelves.new.zero.items ≡ map S.held shelves.old.zero.items }
    ensures one { map S.held shelves.new.one.items ≡ map S.held shelves.old.one.items }
    ensures two { map S.held shelves.new.two.items ≡ map S.held shelves.old.two.items }
    ensures visits { AllVisited S.held S.visited (group_columns ready.now.plan column) shelves.old shelves.new result }
    ensures messages { let pieces = by_server (pieces_of (map S.held shelves.old.zero.items))
        (pieces_of (map S.held shelves.old.one.items)) (pieces_of (map S.held shelves.old.two.items)) in
        let views = views_of ready.now.keys in
        (ms : List Message) × Went W.sight wire.old ms wire.new
        × IsRunPart ready.now.plan (bucket_ending ready.now.plan column) pieces run views ms
        × IfOk result (λ totals. AreGroups ready.now.plan column pieces run views ms totals) }
    ensures trace { GrewBy trace.old trace.new (group_part ready.now.plan column) result }
{
    let product = run_products(rt, alloc, ready, run, shelves, wire, trace)?;
    let chain = product.into_chain();
    let held = before_buckets(rt, alloc, ready, chain, shelves, wire, trace, run)?;
    let totals = bucket_round(rt, alloc, ready, column, &held, shelves, wire, trace, run)?;
    Ok(totals)
}

/// Both runs of a query by the buckets of a column, over the rows at three servers, through a wire: run 0 opens the totals, and run
/// 1, with the weights of the keys, the weighted totals. The shelves have the columns that the keys were made for, and the same number
/// of rows at each server, at most 65,536. In each run a server visits the predicates' columns in order, for a sum then the values,
/// and then the column of the buckets, each chunk of a column once, rising. The only error is out of memory; the messages carried by
/// then, the visits of each shelf, and what is noted in the trace are the first ones of the query.
///
/// Where no message was altered, and the servers hold rows, each total is the plain answer over the rows of its bucket, and the
/// weighted total is the key of the query times it.
pub fn group_runs<R: Threads + Sync, S: Shelf + Send, W: Wire>(
    rt: &R,
    alloc: Global,
    shelves: &mut Servers<S>,
    keys: &Keys,
    column: u8,
    wire: &mut W,
    trace: &mut Trace,
) -> Result<GroupTotals, Memory>
    requires column { column < keys.now.widths.columns }
    requires few { rows_of (map S.held shelves.old.zero.items) ≤ 65536 }
    requires zero { AreShelves keys.now.widths (rows_of (map S.held shelves.old.zero.items)) (map S.held shelves.old.zero.items) }
    requires one { AreShelves keys.now.widths (rows_of (map S.held shelves.old.zero.items)) (map S.held shelves.old.one.items) }
    requires two { AreShelves keys.now.widths (rows_of (map S.held shelves.old.zero.items)) (map S.held shelves.old.two.items) }
    ensures zero { map S.held shelves.new.zero.items ≡ map S.held shelves.old.zero.items }
    ensures one { map S.held shelves.new.one.items ≡ map S.held shelves.old.one.items }
    ensures two { map S.held shelves.new.two.items ≡ map S.held shelves.old.two.items }
    ensures visits { let z = sizes_for keys.now (rows_of (map S.held shelves.old.zero.items)) in
        AllVisited S.held S.visited (group_columns z column ++ group_columns z column) shelves.old shelves.new result }
    ensures messages { let pieces = by_server (pieces_of (map S.held shelves.old.zero.items))
        (pieces_of (map S.held shelves.old.one.items)) (pieces_of (map S.held shelves.old.two.items)) in
        let setup = groups_for keys.now.query column keys.now.widths keys.now.seed (rows_of (map S.held shelves.old.zero.items)) pieces in
        (ms : List Message) × Went W.sight wire.old ms wire.new
        × IsPart setup ms
        × IfOk result (λ t. IsTranscript setup ms × (t.total ≡ opened_groups setup column ms 0)
        × (t.weighted ≡ opened_groups setup column ms 1)) }
    // Where no message was altered, whatever rows the servers hold.
    ensures plain { let pieces = by_server (pieces_of (map S.held shelves.old.zero.items))
        (pieces_of (map S.held shelves.old.one.items)) (pieces_of (map S.held shelves.old.two.items)) in
        IfOk result (λ t. ¬ HasAltered W.sight wire.old wire.new → (rows : List Row) → HoldRows keys.now.widths rows pieces
        → length rows ≡ rows_of (map S.held shelves.old.zero.items) → AreGrouped keys.now column rows t.total t.weighted) }
    ensures trace { GrewBy trace.old trace.new
        (group_trace (sizes_for keys.now (rows_of (map S.held shelves.old.zero.items))) column) result }
{
    keys.shape();
    let rows = count_rows(shelves.zero.as_slice());
    let ready = Ready::send(alloc, keys, rows, wire, trace)?;
    let total = run_groups(rt, alloc, &ready, column, 0, shelves, wire, trace)?;
    let weighted = run_groups(rt, alloc, &ready, column, 1, shelves, wire, trace)?;
    Ok(GroupTotals { total, weighted })
}
