//! What a command does once its rows are known.
ghost use Rattle.std.specs.Prelude.{◌≡◌, ◌≢◌, ◌≤◌, All, IfOk, OnErr, Ok, length, List, ℕ};
ghost use Rattle.schedule_play.specs.History.{Done};
ghost use Rattle.schedule_play.specs.Plays.{Plays, seen};
ghost use Rattle.schedule_play.specs.Tasks.{IsSetting};
ghost use Rattle.schedule_play.specs.Traces.{AddsTraces, traces_of};
ghost use Rattle.visit_trace.specs.Seen.{GrewBy};
ghost use Rattle.waldo_run.specs.Grown.{sizes_by, trace_by};
ghost use Rattle.waldo_run.specs.Tampered.{CarriedBy, UnalteredBy};
ghost use Rattle.table_schema.specs.Widths.{Holds};
ghost use Rattle.waldo_run.specs.Replies.{IsReplyOf, checked_answer, reported, rows_reply};
ghost use Rattle.waldo_run.specs.Run.{AskedOver, BegunOver};
ghost use Rattle.waldo_run.specs.Tasks.{AreWidthsIn, common_in, setting_of, task_over};
ghost use Rattle.waldo_run.specs.Words.{IsBuilt};
ghost use Rattle.waldo_run.specs.Works.{PlaysSteps};
ghost use Rattle.waldo_words.specs.Legal.{IsLegal};

use crate::groups::answer_buckets;
use crate::reply::{Reply, single_line};
use crate::seen::all_noted;
use crate::tamper::tamper;
use crate::trace::traced;
use crate::tree::answer_range;
use report_lines::Line;
use ring128::Memory;
use schedule_play::{PlayFault, Played, Setting, ask, replay};
use std::alloc::Global;
use std::thread::Threads;
use table_schema::{Row, Widths};
use visit_trace::Trace;
use waldo_words::{Command, Common};
use wire_line::Wire;

// What steps run over.
fn setting<'a>(common: &'a Common, widths: &Widths, rows: &'a [Row]) -> Setting<'a>
    ensures seen { seen result ≡ setting_of common.now rows.now }
    ensures widths { result.widths ≡ widths.now }
    ensures workers { result.workers ≡ common.now.workers }
{
    Setting {
        widths: *widths,
        rows,
        queries: common.queries.as_slice(),
        master: common.seed,
        workers: common.workers,
    }
}

// The reply to what steps came to: their report, or the number of the first one without a case.
fn reply_of(alloc: Global, played: Result<Played, PlayFault>) -> Result<Reply, Memory>
    ensures { IfOk result (IsReplyOf played) }
{
    match played {
        Ok(Played { report, altered }) => Ok(Reply::new(if altered { 7 } else { 0 }, report)),
        Err(PlayFault::NotAllowed { index }) => single_line(alloc, 2, Line::BadStep { index }),
        Err(PlayFault::Memory) => Err(Memory),
    }
}

// The steps of a command over its rows.
fn play<R: Threads + Sync, W: Wire>(
    rt: &R,
    alloc: Global,
    command: &Command,
    widths: &Widths,
    rows: &[Row],
    wires: &mut Vec<W>,
    trace: &mut Trace,
) -> Result<Played, PlayFault>
    requires legal { IsLegal command.now }
    requires built { IsBuilt command.now }
    requires steps { PlaysSteps command.now rows.now }
    requires setting { IsSetting widths.now (task_over command.now rows.now).setting }
    requires wires { length wires.old.items ≡ 16 }
    ensures wires { length wires.new.items ≡ 16 }
    ensures plays { Plays widths.now (task_over command.now rows.now)
        (CarriedBy W.sight (Ok command.now) wires.old.items wires.new.items)
        (UnalteredBy W.sight (Ok command.now) wires.old.items wires.new.items) result }
    ensures trace { AddsTraces (sizes_by command.now widths.now rows.now) trace.old trace.new result }
{
    match command {
        Command::Ask(common) => ask(rt, alloc, &setting(common, widths, rows), wires, trace),
        Command::Make { common, .. } => {
            ask(rt, alloc, &setting(common, widths, rows), wires, trace)
        }
        Command::Trace(common) => ask(rt, alloc, &setting(common, widths, rows), wires, trace),
        Command::Replay { common, schedule } => {
            replay(
                rt,
                alloc,
                &setting(common, widths, rows),
                schedule.as_slice(),
                wires,
                trace,
            )
        }
        Command::Tamper { common, shifts } => {
            tamper(
                rt,
                alloc,
                &setting(common, widths, rows),
                shifts.as_slice(),
                &mut wires[0],
                trace,
            )
        }
        Command::Race { .. } | Command::Tree { .. } | Command::Groups { .. } => unreachable!(),
    }
}

// The reply to a command's steps as the command reports it: `trace` has what servers see of each query in place of the answers.
fn reported(
    alloc: Global,
    command: &Command,
    widths: &Widths,
    rows: &[Row],
    reply: Reply,
) -> Result<Reply, Memory>
    requires legal { IsLegal command.now }
    requires widths { AreWidthsIn command.now widths.now }
    requires few { let common = common_in command.now in length rows.now ≤ common.capacity }
    ensures { IfOk result (λ r. r ≡ reported command.now rows.now reply) }
{
    match command {
        Command::Trace(common) => {
            let seen = all_noted(alloc, widths, rows.len() as u64, common.queries.as_slice())?;
            let report = traced(alloc, &seen, reply.report())?;
            Ok(Reply::new(reply.status(), report))
        }
        Command::Ask(_)
        | Command::Replay { .. }
        | Command::Race { .. }
        | Command::Make { .. }
        | Command::Tamper { .. }
        | Command::Tree { .. }
        | Command::Groups { .. } => Ok(reply),
    }
}

// The reply of a command that plays its steps alone.
fn answer_steps<R: Threads + Sync, W: Wire>(
    rt: &R,
    alloc: Global,
    command: &Command,
    widths: &Widths,
    rows: &[Row],
    wires: &mut Vec<W>,
    trace: &mut Trace,
) -> Result<Reply, Memory>
    requires legal { IsLegal command.now }
    requires built { IsBuilt command.now }
    requires steps { PlaysSteps command.now rows.now }
    requires widths { AreWidthsIn command.now widths.now }
    requires held { All (Holds widths.now) rows.now }
    requires few { let common = common_in command.now in length rows.now ≤ common.capacity }
    requires wires { length wires.old.items ≡ 16 }
    ensures wires { length wires.new.items ≡ 16 }
    ensures asked { (history : List Done) × CarriedBy W.sight (Ok command.now) wires.old.items wires.new.items history
        × OnErr result (BegunOver command.now history rows.now)
        × IfOk result (λ reply.
        AskedOver (UnalteredBy W.sight (Ok command.now) wires.old.items wires.new.items) command.now history rows.now
        × (reply ≡ rows_reply (checked_answer history) command.now rows.now)
        × (((actor : ℕ) → UnalteredBy W.sight (Ok command.now) wires.old.items wires.new.items actor) → reply.status ≢ 7)) }
    ensures trace { GrewBy trace.old trace.new (traces_of (sizes_by command.now widths.now rows.now)) result }
{
    let played = play(rt, alloc, command, widths, rows, wires, trace);
    let reply = reply_of(alloc, played)?;
    reported(alloc, command, widths, rows, reply)
}

/// The reply of a command to its rows: that of its steps, of its query over a range of places, or of its queries by the buckets of a
/// column. Answers go over the wires. The trace grows by what the servers see of steps, or of queries by buckets. The only error is out of
/// memory; the first messages may then have been carried.
pub(crate) fn answer_rows<R: Threads + Sync, W: Wire>(
    rt: &R,
    alloc: Global,
    command: &Command,
    widths: &Widths,
    rows: &[Row],
    wires: &mut Vec<W>,
    trace: &mut Trace,
) -> Result<Reply, Memory>
    requires legal { IsLegal command.now }
    requires built { IsBuilt command.now }
    requires widths { AreWidthsIn command.now widths.now }
    requires held { All (Holds widths.now) rows.now }
    requires few { let common = common_in command.now in length rows.now ≤ common.capacity }
    requires wires { length wires.old.items ≡ 16 }
    ensures wires { length wires.new.items ≡ 16 }
    ensures asked { (history : List Done) × CarriedBy W.sight (Ok command.now) wires.old.items wires.new.items history
        × OnErr result (BegunOver command.now history rows.now)
        × IfOk result (λ reply.
        AskedOver (UnalteredBy W.sight (Ok command.now) wires.old.items wires.new.items) command.now history rows.now
        × (reply ≡ rows_reply (checked_answer history) command.now rows.now)
        × (((actor : ℕ) → UnalteredBy W.sight (Ok command.now) wires.old.items wires.new.items actor) → reply.status ≢ 7)) }
    ensures trace { GrewBy trace.old trace.new (trace_by command.now widths.now rows.now) result }
{
    match command {
        Command::Tree { common, low, high } => {
            let setting = setting(common, widths, rows);
            answer_range(rt, alloc, &setting, *low, *high, wires)
        }
        Command::Groups { common, groups } => {
            let setting = setting(common, widths, rows);
            answer_buckets(rt, alloc, &setting, groups.as_slice(), wires, trace)
        }
        _ => answer_steps(rt, alloc, command, widths, rows, wires, trace),
    }
}
