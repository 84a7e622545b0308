//! Agreement and answer in one call.
ghost use Rattle.std.specs.Prelude.{◌≡◌, ◌<◌, List};
ghost use Rattle.query_plan.specs.Query.{Suits};
ghost use Rattle.server_rounds.specs.declared.opened.OpenedPair.{OpenedPair};
ghost use Rattle.ticket_place.specs.Sights.{IsSound};
ghost use Rattle.wire_line.specs.Messages.{IsHonest, Went};
ghost use Rattle.wire_line.specs.declared.message.Message.{Message};
ghost use Rattle.waldo_table.specs.Asks.{Asked, AsksTrace, IsNeverAgain, IsPlainAsk};
ghost use Rattle.waldo_table.specs.Tables.{Grows, IsCovered, IsOf};
ghost use Rattle.wire_line.specs.Sights.{HasAltered};

use crate::faults::AskFault;
use crate::pass::Pass;
use crate::table::Table;
use agreed_rows::{AnswerFault, Answered, answer};
use prg_chacha::Seed;
use query_plan::Query;
use std::alloc::Global;
use std::sync::Wait;
use std::thread::Threads;
use visit_trace::Trace;
use wire_line::Wire;

impl Table {
    /// Agrees, and then asks a query with its seed over the rows that were agreed on, each server's rows shared among
    /// `workers` threads. Waits as [`Table::agree`] does; the locks are free while the query runs.
    ///
    /// After `Again` the pass is as `agree` left it and the wire has carried nothing; after `Altered` the pass is as after an
    /// agreement. After `Memory` it is one of the two: no agreement and nothing carried, or an agreement and the first
    /// messages of the query. The trace grows by what the servers see of the query, which its sizes say; `Again` adds nothing.
    pub fn ask<R: Threads + Wait + Sync, W: Wire>(
        &self,
        rt: &R,
        alloc: Global,
        pass: &mut Pass,
        query: &Query,
        seed: &Seed,
        wire: &mut W,
        trace: &mut Trace,
        workers: u8,
    ) -> Result<Answered, AskFault>
        requires pass { IsOf self.now pass.old }
        requires suits { Suits self.now.widths.columns self.now.widths.bits query.now }
        requires some { 0 < workers }
        ensures pass { IsOf self.now pass.new }
        ensures grows { Grows pass.old pass.new }
        ensures sight { pass.new.sight ≡ record pass.old.sight { order = pass.new.sight.order } }
        ensures sound { IsSound pass.new.sight }
        ensures asked { (ms : List Message) × (pair : OpenedPair) × Went W.sight wire.old ms wire.new
            × Asked self.now.widths pass.old pass.new query.now seed.now ms pair result
            × (IsHonest ms → IsPlainAsk self.now.widths pass.new query.now result) }
        ensures plain { ¬ HasAltered W.sight wire.old wire.new → IsPlainAsk self.now.widths pass.new query.now result }
        ensures never { IsCovered pass.old → IsNeverAgain result }
        ensures trace { AsksTrace self.now.widths pass.new query.now trace.old trace.new result }
    {
        let agreed = match self.agree(rt, alloc, pass) {
            Ok(agreed) => agreed,
            Err(fault) => return Err(fault.asked()),
        };
        match answer(rt, alloc, &agreed, query, seed, wire, trace, workers) {
            Ok(answered) => Ok(answered),
            Err(AnswerFault::Altered { total, weighted }) => {
                Err(AskFault::Altered { total, weighted })
            }
            Err(AnswerFault::Memory) => Err(AskFault::Memory),
        }
    }
}
