//! The command that answers by the buckets of a column.
ghost use Rattle.std.specs.Prelude.{◌≡◌, ◌≢◌, ◌+◌, ◌<◌, ◌≤◌, ◌++◌, ℕ, List, IfOk, OnErr, OnOk, length};
ghost use Rattle.bucket_groups.specs.Seen.{group_trace};
ghost use Rattle.schedule_play.specs.History.{AreHonest, Done};
ghost use Rattle.schedule_play.specs.Plays.{seen};
ghost use Rattle.schedule_play.specs.Traces.{sizes_over};
ghost use Rattle.schedule_play.specs.Wires.{Carried, Unaltered, WireWent};
ghost use Rattle.table_schema.specs.Widths.{column_bits};
ghost use Rattle.transcript.specs.Transcript.{IsPart, IsTranscript};
ghost use Rattle.visit_trace.specs.Seen.{GrewBy};
ghost use Rattle.waldo_run.specs.Buckets.{AreBuckets, ArePlainBuckets, BeginsBuckets, HasBuckets, IsByColumn};
ghost use Rattle.waldo_run.specs.Buckets.{bucket_line, bucket_lines, checked_buckets, checked_lines, entries_in, group_in};
ghost use Rattle.waldo_run.specs.Buckets.{group_traces, plain_buckets};
ghost use Rattle.waldo_run.specs.Replies.{lines_reply};
ghost use Rattle.wire_line.specs.Messages.{IsHonest, Went};
ghost use Rattle.wire_line.specs.declared.message.Message.{Message};

use crate::reply::Reply;
use agreed_groups::answer_groups;
use agreed_rows::Agreed;
use bucket_groups::{GroupAnswer, GroupAnswers};
use prg_chacha::derive;
use query_plan::GroupQuery;
use race_play::any_altered;
use report_lines::{Line, Report};
use ring128::Memory;
use schedule_play::{Setting, agree};
use std::alloc::Global;
use std::thread::Threads;
use table_schema::Aggregate;
use visit_trace::Trace;
use wire_line::Wire;

// The line of a bucket.
fn bucket_line(index: u64, rows: u64, aggregate: Aggregate, bucket: u8, answer: GroupAnswer) -> Line
    ensures { result ≡ bucket_line index rows aggregate bucket answer }
{
    match answer {
        GroupAnswer::Good { total } => Line::Group {
            index,
            bucket,
            rows,
            aggregate,
            total,
        },
        GroupAnswer::Altered { total, weighted } => Line::GroupAltered {
            index,
            bucket,
            total,
            weighted,
        },
    }
}

// Adds the lines of a query's buckets.
fn push_buckets(
    report: &mut Report,
    index: u64,
    rows: u64,
    aggregate: Aggregate,
    answers: &[GroupAnswer],
) -> Result<(), Memory>
    requires { length answers.now ≤ 256 }
    ensures { OnOk result (report.new ≡ report.old ++ bucket_lines index rows aggregate 0 answers.now) }
{
    for (bucket, answer) in answers.iter().enumerate() {
        report.push(bucket_line(index, rows, aggregate, bucket as u8, *answer))?;
    }
    Ok(())
}

// Asks the query of this number over all rows. Out of memory, the first of its messages may have been carried.
fn ask_group<R: Threads + Sync, W: Wire>(
    rt: &R,
    alloc: Global,
    setting: &Setting<'_>,
    agreed: &Agreed,
    index: u64,
    group: &GroupQuery,
    wire: &mut W,
    trace: &mut Trace,
) -> Result<GroupAnswers, Memory>
    requires legal { IsByColumn setting.now.widths group.now }
    requires few { index < 16 }
    requires rows { agreed.now ≡ entries_in setting.now.widths (seen setting.now) }
    requires some { 1 ≤ setting.now.workers }
    ensures asked { let s = seen setting.now in let w = setting.now.widths in
        (ms : List Message) × Went W.sight wire.old ms wire.new × IsPart (group_in w s index group.now) ms
        × IfOk result (λ answers. IsTranscript (group_in w s index group.now) ms
        × (answers ≡ checked_buckets (column_bits w) s index group.now ms)
        × (IsHonest ms → answers ≡ plain_buckets (column_bits w) s group.now)) }
    ensures few { IfOk result (λ answers. length answers ≤ 256) }
    ensures trace { let sizes = sizes_over setting.now.widths (length setting.now.rows.now) group.now.query in
        GrewBy trace.old trace.new (group_trace sizes group.now.column) result }
{
    let seed = derive(&setting.master, 2, 0, index);
    answer_groups(
        rt,
        alloc,
        agreed,
        &setting.widths,
        &group.query,
        group.column,
        &seed,
        wire,
        trace,
        setting.workers,
    )
}

// Asks the queries from this number on, one after another, and adds their lines. Out of memory, the first messages may have been carried.
fn ask_groups<R: Threads + Sync, W: Wire>(
    rt: &R,
    alloc: Global,
    setting: &Setting<'_>,
    agreed: &Agreed,
    index: u64,
    groups: &[GroupQuery],
    wire: &mut W,
    trace: &mut Trace,
    report: &mut Report,
) -> Result<(), Memory>
    requires legal { AreBuckets setting.now.widths (seen setting.now) groups.now }
    requires few { index + length groups.now ≤ 16 }
    requires rows { agreed.now ≡ entries_in setting.now.widths (seen setting.now) }
    requires some { 1 ≤ setting.now.workers }
    ensures asked { let s = seen setting.now in let w = setting.now.widths in
        (history : List Done) × WireWent W.sight history 0 wire.old wire.new
        × OnErr result (BeginsBuckets w s index groups.now history)
        × OnOk result (HasBuckets w s index groups.now history
        × ArePlainBuckets (column_bits w) s index groups.now history
        × (report.new ≡ report.old ++ checked_lines (column_bits w) s index groups.now history)) }
    ensures trace { GrewBy trace.old trace.new (group_traces setting.now.widths (length setting.now.rows.now) groups.now) result }
{
    match groups {
        [] => Ok(()),
        [group, rest @ ..] => {
            let answers = ask_group(rt, alloc, setting, agreed, index, group, wire, trace)?;
            let rows = setting.rows.len() as u64;
            push_buckets(
                report,
                index,
                rows,
                group.query.aggregate,
                answers.as_slice(),
            )?;
            ask_groups(
                rt,
                alloc,
                setting,
                agreed,
                index + 1,
                rest,
                wire,
                trace,
                report,
            )
        }
    }
}

// The reply of lines: 7 where one of them is that of a refused pair.
fn lines_reply(report: Report) -> Reply
    ensures { result ≡ lines_reply report }
{
    let status = if any_altered(report.lines()) { 7 } else { 0 };
    Reply::new(status, report)
}

/// The reply of queries by the buckets of a column, which go over the first wire once actor 0 has appended all rows and agreed on them.
/// The only error is out of memory; the first messages may then have been carried.
pub(crate) fn answer_buckets<R: Threads + Sync, W: Wire>(
    rt: &R,
    alloc: Global,
    setting: &Setting<'_>,
    groups: &[GroupQuery],
    wires: &mut Vec<W>,
    trace: &mut Trace,
) -> Result<Reply, Memory>
    requires legal { AreBuckets setting.now.widths (seen setting.now) groups.now }
    requires queries { length groups.now ≤ 16 }
    requires some { 1 ≤ setting.now.workers }
    requires few { setting.now.workers ≤ 16 }
    requires wires { length wires.old.items ≡ 16 }
    ensures wires { length wires.new.items ≡ 16 }
    ensures asked { let s = seen setting.now in let w = setting.now.widths in
        (history : List Done) × Carried W.sight wires.old.items wires.new.items history
        × OnErr result (BeginsBuckets w s 0 groups.now history)
        × IfOk result (λ reply. HasBuckets w s 0 groups.now history
        × AreHonest (Unaltered W.sight wires.old.items wires.new.items) history
        × ArePlainBuckets (column_bits w) s 0 groups.now history
        × (reply ≡ lines_reply (checked_lines (column_bits w) s 0 groups.now history))
        × (((actor : ℕ) → Unaltered W.sight wires.old.items wires.new.items actor) → reply.status ≢ 7)) }
    ensures trace { GrewBy trace.old trace.new (group_traces setting.now.widths (length setting.now.rows.now) groups.now) result }
{
    let machine = agree(rt, alloc, setting)?;
    let Some(agreed) = machine.agreed(0) else {
        unreachable!();
    };
    let mut report = Report::new(alloc);
    ask_groups(
        rt,
        alloc,
        setting,
        agreed,
        0,
        groups,
        &mut wires[0],
        trace,
        &mut report,
    )?;
    Ok(lines_reply(report))
}
