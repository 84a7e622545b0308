//! All rounds of an asker, and the last queries.
ghost use Rattle.std.specs.Prelude.{◌≡◌, ◌<◌, ◌≤◌, List, IfOk, length};
ghost use Rattle.wire_line.specs.Messages.{Went};
ghost use Rattle.wire_line.specs.declared.message.Message.{Message};
ghost use Rattle.waldo_table.specs.Tables.{Grows, IsOf};
ghost use Rattle.race_play.specs.Asking.{AsksOne, CanAsk};
ghost use Rattle.race_play.specs.Begun.{Began};
ghost use Rattle.race_play.specs.Questions.{Gave, ends_of};
ghost use Rattle.race_play.specs.Raced.{HasFirst};
ghost use Rattle.race_play.specs.Seen.{Notes};
ghost use Rattle.race_play.specs.Settings.{AreLegal};

use crate::gate::Gate;
use crate::round::{ask_line, ask_round};
use crate::said::Said;
use crate::setting::Crew;
use prg_chacha::{Seed, derive};
use query_plan::Query;
use report_lines::Who;
use ring128::Memory;
use std::alloc::Global;
use std::sync::Wait;
use std::thread::Threads;
use visit_trace::Trace;
use waldo_table::{Pass, Table};
use wire_line::Wire;

/// The rounds of an asker, one after another: in each the next query, and behind the last the first again. The trace grows by what
/// the servers see of them. The only error is out of memory.
pub(crate) fn ask_rounds<R: Threads + Wait + Sync, W: Wire, G: Gate>(
    rt: &R,
    alloc: Global,
    table: &Table,
    queries: &[Query],
    master: &Seed,
    crew: &Crew,
    asker: u8,
    gate: &G,
    pass: &mut Pass,
    wire: &mut W,
    trace: &mut Trace,
) -> Result<Said, Memory>
    requires { CanAsk table.now queries.now crew.now pass.old }
    ensures { AsksOne W.sight table.now queries.now master.now crew.now asker
        pass.old pass.new wire.old wire.new trace.old trace.new result }
{
    let mut said = Said::new(alloc);
    for round in 0..crew.rounds {
        let query = &queries[round as usize % queries.len()];
        let line = ask_round(
            rt,
            alloc,
            table,
            pass,
            query,
            asker,
            round,
            master,
            wire,
            trace,
            crew.workers,
            gate,
        )?;
        said.push(line)?;
    }
    Ok(said)
}

/// Asks each query once over all rows, of which there are `rows`. The trace grows by what the servers see of them. The only error is
/// out of memory.
pub(crate) fn ask_ends<R: Threads + Wait + Sync, W: Wire>(
    rt: &R,
    alloc: Global,
    table: &Table,
    queries: &[Query],
    master: &Seed,
    workers: u8,
    rows: u64,
    pass: &mut Pass,
    wire: &mut W,
    trace: &mut Trace,
) -> Result<Said, Memory>
    requires pass { IsOf table.now pass.old }
    requires all { HasFirst rows pass.old }
    requires floor { pass.old.floor ≤ rows }
    requires legal { AreLegal table.now.widths queries.now }
    requires some { 0 < workers }
    ensures pass { IsOf table.now pass.new }
    ensures grows { Grows pass.old pass.new }
    ensures own { pass.new.sight ≡ record pass.old.sight { order = pass.new.sight.order } }
    ensures asked { (ms : List Message) × Went W.sight wire.old ms wire.new
        × IfOk result (Gave table.now.widths pass.new.sight.order rows (ends_of queries.now master.now (length queries.now)) ms) }
    ensures begun { (ms : List Message) × Went W.sight wire.old ms wire.new
        × Began table.now.widths pass.new.sight.order rows (ends_of queries.now master.now (length queries.now)) ms }
    ensures seen { Notes table.now.widths (ends_of queries.now master.now (length queries.now)) trace.old trace.new result }
{
    let mut said = Said::new(alloc);
    for q in 0..queries.len() {
        let seed = derive(master, 4, 0, q as u64);
        let line = ask_line(
            rt,
            alloc,
            table,
            pass,
            Who::End(q as u64),
            &queries[q],
            &seed,
            wire,
            trace,
            workers,
        )?;
        said.push(line)?;
    }
    Ok(said)
}
