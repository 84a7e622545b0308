//! A race, from rows and queries to its report.
ghost use Rattle.std.specs.Prelude.{◌≡◌, ◌<◌, ◌≤◌, false, IfOk, OnErr, List, length};
ghost use Rattle.std.specs.List.{list_any};
ghost use Rattle.wire_line.specs.Lists.{SomeRose};
ghost use Rattle.wire_line.specs.declared.message.Message.{Message};
ghost use Rattle.race_play.specs.Askers.{CarriedEach};
ghost use Rattle.race_play.specs.Begun.{IsCarried};
ghost use Rattle.race_play.specs.Reports.{Reports, is_altered};
ghost use Rattle.race_play.specs.Seen.{NotesFirst, all_questions, report_seen};
ghost use Rattle.race_play.specs.Settings.{IsSetting, setting_of};
ghost use Rattle.visit_trace.specs.Seen.{Grew};

use crate::ask::ask_ends;
use crate::gate::Gate;
use crate::report::{Ran, report_of};
use crate::setting::Race;
use crate::together::race_all;
use ring128::Memory;
use std::alloc::Global;
use std::sync::Wait;
use std::thread::Threads;
use visit_trace::Trace;
use waldo_table::Table;
use wire_line::Wire;

/// Writers append the rows and askers ask the queries at once, on one table, each in a thread of its own; and once all have ended, each
/// query is asked over all rows. Asker a asks over wire a, and the last queries go over the first wire; other wires are as they were.
/// No order of the threads in time is promised; `Reports` says what the report is. The call waits for the threads.
///
/// `altered` says whether the check refused an answer, in a round or at the end. The only error is out of memory: there is no report
/// then, and each wire has carried the messages of its asker's first rounds, and perhaps the first ones of the next (`IsCarried`).
///
/// Each asker notes what the servers see into a trace of its own, and these are joined in the order of the askers.
pub fn race<R: Threads + Wait + Sync, W: Wire + Send, G: Gate + Sync>(
    rt: &R,
    alloc: Global,
    race: &Race<'_>,
    gate: &G,
    wires: &mut Vec<W>,
    trace: &mut Trace,
) -> Result<Ran, Memory>
    requires legal { IsSetting (setting_of race.now) }
    requires some { 0 < race.now.crew.workers }
    requires wires { race.now.crew.askers ≤ length wires.old.items }
    ensures wires { length wires.new.items ≡ length wires.old.items }
    ensures reports { IfOk result (λ r. (sent : List (List Message))
        × CarriedEach W.sight wires.old.items wires.new.items sent
        × Reports (setting_of race.now) sent r.report) }
    ensures altered { IfOk result (λ r. r.altered ≡ list_any is_altered r.report) }
    ensures accepted { ¬ SomeRose W.sight wires.old.items wires.new.items → IfOk result (λ r. r.altered ≡ false) }
    // Whether or not memory ran out: each wire carried the messages of its asker's first rounds, and perhaps the first ones of the next.
    ensures carried { (sent : List (List Message))
        × CarriedEach W.sight wires.old.items wires.new.items sent × IsCarried (setting_of race.now) sent }
    // Whatever the schedule was, the trace grew by what the servers see of the answers over the numbers of rows that the report says, in
    // the order in which it says them. Out of memory it grew by a prefix of what is seen of the first queries.
    ensures trace { IfOk result (λ r. Grew trace.old trace.new (report_seen (setting_of race.now) r.report)) }
    ensures trace_first { OnErr result (NotesFirst race.now.widths (all_questions (setting_of race.now)) trace.old trace.new) }
{
    let room = race.rows.len().max(1) as u32;
    let Ok((table, mut pass)) = Table::new(alloc, race.widths, room) else {
        return Err(Memory);
    };
    let raced = race_all(
        rt,
        alloc,
        &table,
        &mut pass,
        race,
        gate,
        wires.as_mut_slice(),
        trace,
    )?;
    let ends = ask_ends(
        rt,
        alloc,
        &table,
        race.queries,
        &race.master,
        race.crew.workers,
        race.rows.len() as u64,
        &mut pass,
        &mut wires[0],
        trace,
    )?;
    pass.room();
    report_of(alloc, raced, ends)
}
