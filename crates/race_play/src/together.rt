//! Writers and askers at once.
ghost use denote.Param.Send.{IsSend, IsSync};
ghost use Rattle.std.specs.Prelude.{◌≡◌, ℕ, ◌≤◌, ◌<◌, ◌+◌, [], All, IfOk, OnErr, Ok, List, length};
ghost use Rattle.table_schema.specs.Widths.{Holds};
ghost use Rattle.waldo_table.specs.Tables.{IsOf};
ghost use Rattle.wire_line.specs.declared.message.Message.{Message};
ghost use Rattle.race_play.specs.Askers.{WentEach};
ghost use Rattle.race_play.specs.Asking.{AsksAll, CanAsk};
ghost use Rattle.race_play.specs.Begun.{AreBegun};
ghost use Rattle.race_play.specs.Jobs.{AllDone, AreNumbered, IsDone, IsFresh, IsReady};
ghost use Rattle.race_play.specs.Raced.{IsRaced};
ghost use Rattle.race_play.specs.Seen.{NotesAll, NotesFirst, all_rounds};
ghost use Rattle.visit_trace.specs.Seen.{Grew, GrewPrefix, alike, nothing};
ghost use Rattle.race_play.specs.Settings.{IsSetting, setting_of};

use crate::askers::{Heard, race_askers};
use crate::gate::Gate;
use crate::gather::gather_all;
use crate::jobs::{WriterJob, run_writers};
use crate::order::{printed, turns_of};
use crate::said::Said;
use crate::setting::Race;
use prg_chacha::Seed;
use report_lines::Line;
use ring128::Memory;
use std::alloc::Global;
use std::sync::Wait;
use std::thread::{Threads, join_mut};
use table_schema::Row;
use visit_trace::Trace;
use waldo_table::{Pass, Table};
use wire_line::Wire;

/// A job for each writer, with room for its rows. The only error is out of memory.
fn split_jobs(
    alloc: Global,
    table: &Table,
    pass: &mut Pass,
    rows: usize,
    writers: u8,
) -> Result<Vec<WriterJob>, Memory>
    requires pass { IsOf table.now pass.old }
    requires fresh { IsFresh pass.old }
    requires room { rows ≤ pass.old.sight.room }
    requires some { 0 < writers }
    ensures pass { IsOf table.now pass.new }
    ensures fresh { IsFresh pass.new }
    ensures ready { IfOk result (λ jobs. All (IsReady table.now rows writers) jobs.items) }
    ensures numbered { IfOk result (λ jobs. AreNumbered 0 jobs.items) }
    ensures long { IfOk result (λ jobs. length jobs.items ≡ writers) }
    ensures room { IfOk result (λ _. pass.new.sight.room + rows ≡ pass.old.sight.room) }
{
    let mut jobs = Vec::new(alloc);
    for number in 0..writers {
        let room = turns_of(alloc, rows, number, writers)?.len() as u64;
        let mine = table.split_pass(pass, room);
        jobs.push(WriterJob {
            number,
            pass: mine,
            written: None,
        })?;
    }
    Ok(jobs)
}

// All jobs, each in a thread of its own.
fn run_all<R: Threads + Wait + Sync, G: Gate + Sync>(
    rt: &R,
    alloc: Global,
    table: &Table,
    rows: &[Row],
    writers: u8,
    master: &Seed,
    gate: &G,
    jobs: &mut Vec<WriterJob>,
)
    requires held { All (Holds table.now.widths) rows.now }
    requires few { length rows.now ≤ 65536 }
    requires ready { All (IsReady table.now (length rows.now) writers) jobs.old.items }
    ensures done { All (IsDone table.now rows.now master.now writers) jobs.new.items }
    ensures numbered { AreNumbered 0 jobs.old.items → AreNumbered 0 jobs.new.items }
    ensures long { length jobs.new.items ≡ length jobs.old.items }
{
    run_writers(
        rt,
        alloc,
        table,
        rows,
        writers,
        master,
        gate,
        jobs.as_mut_slice(),
    );
}

// The writers, and the askers beside them.
fn run_both<R: Threads + Wait + Sync, W: Wire + Send, G: Gate + Sync>(
    rt: &R,
    alloc: Global,
    table: &Table,
    race: &Race<'_>,
    gate: &G,
    jobs: &mut Vec<WriterJob>,
    pass: &mut Pass,
    wires: &mut [W],
) -> Heard
    requires held { All (Holds table.now.widths) race.now.rows.now }
    requires few { length race.now.rows.now ≤ 65536 }
    requires ready { All (IsReady table.now (length race.now.rows.now) race.now.crew.writers) jobs.old.items }
    requires can { CanAsk table.now race.now.queries.now race.now.crew pass.old }
    requires wires { race.now.crew.askers ≤ length wires.old }
    ensures done { AllDone table.now race.now.rows.now race.now.master race.now.crew.writers jobs.old.items jobs.new.items }
    ensures asked { AsksAll W.sight table.now race.now.queries.now race.now.master race.now.crew 0
        pass.old pass.new wires.old wires.new (alike nothing) result.trace result.said }
{
    let mut write = ||
        requires { IsSync R.row × IsSync G.row × All (Holds table.now.widths) race.now.rows.now × (length race.now.rows.now ≤ 65536)
            × All (IsReady table.now (length race.now.rows.now) race.now.crew.writers) jobs.now.items }
        ensures { AllDone table.entry.now race.entry.now.rows.now race.entry.now.master race.entry.now.crew.writers
            jobs.entry.now.items jobs.exit.now.items }
    {
        run_all(
            rt,
            alloc,
            table,
            race.rows,
            race.crew.writers,
            &race.master,
            gate,
            jobs,
        )
    };
    let mut ask = || -> Heard
        requires { IsSync R.row × IsSync G.row × IsSend W.row × CanAsk table.now race.now.queries.now race.now.crew pass.now
            × (race.now.crew.askers ≤ length wires.now) }
        ensures { AsksAll W.sight table.entry.now race.entry.now.queries.now race.entry.now.master
            race.entry.now.crew 0 pass.entry.now pass.exit.now wires.entry.now wires.exit.now
            (alike nothing) result.trace result.said }
    {
        race_askers(
            rt,
            alloc,
            table,
            race.queries,
            &race.master,
            &race.crew,
            0,
            gate,
            pass,
            wires,
        )
    };
    let (_, heard) = join_mut(rt, &mut write, &mut ask);
    heard
}

/// The number of the input row at each place, the writers' lines, and the askers' lines.
#[derive(Drop)]
pub struct Raced {
    pub order: Vec<u64>,
    pub backs: Vec<Line>,
    pub asks: Said,
}

// What askers were answered; what they noted is noted behind what stands in the trace.
fn noted(heard: Heard, trace: &mut Trace) -> Result<Said, Memory>
    ensures said { IfOk result (λ said. heard.said ≡ Ok said) }
    ensures trace { IfOk result (λ _. Grew trace.old trace.new heard.trace) }
    ensures trace_first { OnErr result (GrewPrefix trace.old trace.new heard.trace) }
{
    trace.note_trace(&heard.trace)?;
    heard.said
}

/// All writers and askers at once, with passes that are split off this one and gathered into it. The trace grows by what the servers see
/// of the rounds. The only error is out of memory.
pub(crate) fn race_all<R: Threads + Wait + Sync, W: Wire + Send, G: Gate + Sync>(
    rt: &R,
    alloc: Global,
    table: &Table,
    pass: &mut Pass,
    race: &Race<'_>,
    gate: &G,
    wires: &mut [W],
    trace: &mut Trace,
) -> Result<Raced, Memory>
    requires pass { IsOf table.now pass.old }
    requires fresh { IsFresh pass.old }
    requires legal { IsSetting (setting_of race.now) }
    requires some { 0 < race.now.crew.workers }
    requires widths { table.now.widths ≡ race.now.widths }
    requires whole { pass.old.sight.room ≡ table.now.book.capacity }
    requires room { length race.now.rows.now ≤ table.now.book.capacity }
    requires wires { race.now.crew.askers ≤ length wires.old }
    ensures pass { IsOf table.now pass.new }
    ensures raced { (sent : List (List Message)) × WentEach W.sight sent wires.old wires.new
        × IfOk result (IsRaced (setting_of race.now) pass.new sent) }
    ensures begun { (sent : List (List Message)) × WentEach W.sight sent wires.old wires.new
        × AreBegun race.now.widths race.now.queries.now race.now.master race.now.crew.rounds pass.new.sight.order 0 sent
        × (length sent ≤ race.now.crew.askers) }
    ensures seen { IfOk result (λ r. NotesAll race.now.widths (all_rounds (setting_of race.now)) r.asks trace.old trace.new) }
    ensures seen_first { OnErr result (NotesFirst race.now.widths (all_rounds (setting_of race.now)) trace.old trace.new) }
{
    let mut jobs = split_jobs(alloc, table, pass, race.rows.len(), race.crew.writers)?;
    let mut mine = table.split_pass(pass, 0);
    let heard = run_both(rt, alloc, table, race, gate, &mut jobs, &mut mine, wires);
    table.gather(pass, mine);
    let asks = noted(heard, trace);
    let gathered = gather_all(
        alloc,
        table,
        pass,
        jobs,
        race.rows,
        race.crew.writers,
        &race.master,
    )?;
    pass.room();
    pass.floor();
    let order = printed(
        alloc,
        race.rows,
        &race.master,
        race.crew.writers,
        pass,
        &gathered,
    )?;
    Ok(Raced {
        order,
        backs: gathered.lines,
        asks: asks?,
    })
}
