//! A round of an asker.
ghost use Rattle.std.specs.Prelude.{◌≡◌, ◌<◌, List, IfOk, OnErr};
ghost use Rattle.prg_chacha.specs.Prg.{derive_of};
ghost use Rattle.query_plan.specs.Query.{Suits};
ghost use Rattle.report_lines.specs.declared.lines.Who.TheVariants as who;
ghost use Rattle.server_rounds.specs.declared.opened.OpenedPair.{OpenedPair};
ghost use Rattle.wire_line.specs.Messages.{Went};
ghost use Rattle.wire_line.specs.declared.message.Message.{Message};
ghost use Rattle.waldo_table.specs.Tables.{Grows, IsCovered, IsOf};
ghost use Rattle.race_play.specs.Rounds.{Asks, BreaksOff, IsPlainLine};
ghost use Rattle.race_play.specs.Seen.{NotesLine, query_seen};
ghost use Rattle.visit_trace.specs.Seen.{GrewPrefix};
ghost use Rattle.wire_line.specs.Sights.{HasAltered};

use crate::gate::{Gate, Point};
use crate::lines::line_of_ask;
use prg_chacha::{Seed, derive};
use query_plan::Query;
use report_lines::{Line, Who};
use ring128::Memory;
use std::alloc::Global;
use std::sync::Wait;
use std::thread::Threads;
use visit_trace::Trace;
use waldo_table::{Pass, Table};
use wire_line::Wire;

/// Asks a query, with its seed, over the rows that the three servers have. The only error is out of memory.
pub(crate) fn ask_line<R: Threads + Wait + Sync, W: Wire>(
    rt: &R,
    alloc: Global,
    table: &Table,
    pass: &mut Pass,
    who: Who,
    query: &Query,
    seed: &Seed,
    wire: &mut W,
    trace: &mut Trace,
    workers: u8,
) -> Result<Line, Memory>
    requires pass { IsOf table.now pass.old }
    requires covered { IsCovered pass.old }
    requires suits { Suits table.now.widths.columns table.now.widths.bits query.now }
    requires some { 0 < workers }
    ensures pass { IsOf table.now pass.new }
    ensures grows { Grows pass.old pass.new }
    ensures own { pass.new.sight ≡ record pass.old.sight { order = pass.new.sight.order } }
    ensures covered { IfOk result (λ _. IsCovered pass.new) }
    ensures asks { (ms : List Message) × (pair : OpenedPair) × Went W.sight wire.old ms wire.new
        × IfOk result (Asks table.now.widths pass.old pass.new who query.now seed.now ms pair) }
    ensures plain { ¬ HasAltered W.sight wire.old wire.new
        → IfOk result (IsPlainLine table.now.widths pass.new who query.now) }
    ensures broken { OnErr result ((ms : List Message) × Went W.sight wire.old ms wire.new
        × BreaksOff table.now.widths pass.old pass.new query.now seed.now ms) }
    ensures trace { IfOk result (NotesLine table.now.widths query.now pass.new.floor trace.old trace.new) }
    ensures trace_first { OnErr result (GrewPrefix trace.old trace.new (query_seen table.now.widths query.now pass.new.floor)) }
{
    let asked = table.ask(rt, alloc, pass, query, seed, wire, trace, workers);
    line_of_ask(who, pass.floor(), query.aggregate, asked)
}

/// A round of an asker: agrees on the first rows that all three servers have, asks the query over them with the seed of this asker and
/// round, both from 0, and passes the gate. Each server's rows are shared among `workers` threads, at least one.
///
/// The line has the answer, or, where the check refuses it, the pair that the messages opened. The pass is one that never meets
/// `Again`: it has seen as many rows at each server as its floor says, as a pass has that learned nothing and appended nothing. So
/// the only error is out of memory, after which no message was carried, or the first ones of the query.
///
/// The trace grows by what the servers see of the query over the number of rows that the line says; out of memory by a prefix of that.
pub fn ask_round<R: Threads + Wait + Sync, W: Wire, G: Gate>(
    rt: &R,
    alloc: Global,
    table: &Table,
    pass: &mut Pass,
    query: &Query,
    asker: u8,
    round: u8,
    master: &Seed,
    wire: &mut W,
    trace: &mut Trace,
    workers: u8,
    gate: &G,
) -> Result<Line, Memory>
    requires pass { IsOf table.now pass.old }
    requires covered { IsCovered pass.old }
    requires suits { Suits table.now.widths.columns table.now.widths.bits query.now }
    requires some { 0 < workers }
    ensures pass { IsOf table.now pass.new }
    ensures grows { Grows pass.old pass.new }
    ensures own { pass.new.sight ≡ record pass.old.sight { order = pass.new.sight.order } }
    ensures covered { IfOk result (λ _. IsCovered pass.new) }
    ensures asks { (ms : List Message) × (pair : OpenedPair) × Went W.sight wire.old ms wire.new
        × IfOk result (Asks table.now.widths pass.old pass.new (who.Round asker round) query.now
        (derive_of master.now 2 asker round) ms pair) }
    ensures plain { ¬ HasAltered W.sight wire.old wire.new
        → IfOk result (IsPlainLine table.now.widths pass.new (who.Round asker round) query.now) }
    ensures broken { OnErr result ((ms : List Message) × Went W.sight wire.old ms wire.new
        × BreaksOff table.now.widths pass.old pass.new query.now (derive_of master.now 2 asker round) ms) }
    ensures trace { IfOk result (NotesLine table.now.widths query.now pass.new.floor trace.old trace.new) }
    ensures trace_first { OnErr result (GrewPrefix trace.old trace.new (query_seen table.now.widths query.now pass.new.floor)) }
{
    let seed = derive(master, 2, u16::from(asker), u64::from(round));
    let who = Who::Round {
        actor: asker,
        round: u64::from(round),
    };
    let line = ask_line(
        rt, alloc, table, pass, who, query, &seed, wire, trace, workers,
    )?;
    gate.pass(Point::AfterAnswer { asker, round });
    Ok(line)
}
