//! The machine.
ghost use Rattle.std.specs.Prelude.{◌≡◌, ◌≤◌, List, All, IfOk, IfErr, IfNone, IfSome, OnErr};
ghost use Rattle.std.specs.Prelude.{OnOk, false, length, map, slice_get, Err, None, Ok};
ghost use Rattle.list_facts.specs.Listed.{listed};
ghost use Rattle.table_schema.specs.Widths.{Fits, Holds, column_bits};
ghost use Rattle.prefix_log.specs.Logs.{empty_log};
ghost use Rattle.server_rounds.specs.declared.opened.OpenedPair.{OpenedPair};
ghost use Rattle.wire_line.specs.Messages.{IsHonest, Went};
ghost use Rattle.wire_line.specs.declared.message.Message.{Message};
ghost use Rattle.waldo_core.specs.Answers.{IsPlain, IsQuiet, rows_agreed};
ghost use Rattle.waldo_core.specs.Core.{empty_core};
ghost use Rattle.waldo_core.specs.InBulk.{core_after, pair_of};
ghost use Rattle.waldo_core.specs.Legal.{IsLegal};
ghost use Rattle.waldo_core.specs.Machines.{HasOpenFault, IsHeld, Stepped, new_machine};
ghost use Rattle.waldo_core.specs.Outcomes.{Quietly, named};
ghost use Rattle.waldo_core.specs.Step.{is_altered};
ghost use Rattle.waldo_core.specs.Held.{IsAgreedBy, fresh_state};
ghost use Rattle.waldo_core.specs.Traces.{AddsSeen};
ghost use Rattle.wire_line.specs.Sights.{HasAltered};

use crate::actor::ActorState;
use crate::draw::OpenDraw;
use crate::events::{Event, Reply, StepFault};
use crate::logs::Logs;
use crate::order::Order;
use crate::reply::{outcome_of, reply_over};
use crate::snapshots::Snapshots;
use agreed_rows::Agreed;
use onehot_column::{RowPieces, pieces};
use prefix_log::{Entry, OpenFault, Snapshot};
use prg_chacha::Seed;
use query_plan::Query;
use ring128::Memory;
use scan_chunks::Shelf;
use std::alloc::Global;
use std::marker::Model;
use std::thread::Threads;
use table_schema::{Row, Widths};
use visit_trace::Trace;
use wire_line::Wire;

/// The clients and the three servers of a table: the order of draws, which the clients know, the servers' logs of pieces,
/// and sixteen actors.
///
/// Contracts see it as its widths, how many rows it takes, and its core.
#[derive(Drop)]
pub struct Machine {
    widths: Widths,
    capacity: u32,
    workers: u8,
    order: Order,
    logs: Logs,
    actors: Vec<ActorState>,
}

impl Model for Machine {
    ghost use Rattle.waldo_core.specs.Machines.{Seen};

    ghost Value = { Seen };

    ghost use Rattle.waldo_core.specs.Held.{IsMachine, seen_machine};

    ghost view = { λ m. seen_machine ⟦<Snapshot as Shelf>⟧.held
        (record {
          widths = m.widths;
          capacity = m.capacity;
          workers = m.workers;
          order = m.order.all;
          logs = m.logs;
          actors = m.actors.items;
        }) };

    ghost invariant = { λ m. IsMachine ⟦<Snapshot as Shelf>⟧.held m.order.capacity
        (record {
          widths = m.widths;
          capacity = m.capacity;
          workers = m.workers;
          order = m.order.all;
          logs = m.logs;
          actors = m.actors.items;
        }) };
}

impl Machine {
    /// A machine in which nothing was drawn, for at most `capacity` rows of these widths. Its scans use `workers` threads,
    /// from 1 to 16. It is refused where the capacity does not fit the widths.
    pub fn new(
        alloc: Global,
        widths: Widths,
        capacity: u32,
        workers: u8,
    ) -> Result<Machine, OpenFault>
        requires some { 1 ≤ workers }
        requires few { workers ≤ 16 }
        ensures made { IfOk result (λ m. m ≡ new_machine widths capacity) }
        ensures fits { IfOk result (λ m. Fits (column_bits widths) capacity) }
        ensures fault { IfErr result (HasOpenFault widths capacity) }
    {
        if !widths.fits(capacity) {
            return Err(OpenFault::Cells {
                had: widths.cells(capacity),
            });
        }
        let logs = Logs::new(alloc, &widths, capacity);
        match Machine::fitting(alloc, &widths, capacity, workers, logs) {
            Ok(machine) => Ok(machine),
            Err(_) => Err(OpenFault::Memory),
        }
    }

    /// The same machine. Where it has several workers, the three logs are made side by side.
    pub fn new_by_workers<R: Threads + Sync>(
        rt: &R,
        alloc: Global,
        widths: Widths,
        capacity: u32,
        workers: u8,
    ) -> Result<Machine, OpenFault>
        requires some { 1 ≤ workers }
        requires few { workers ≤ 16 }
        ensures made { IfOk result (λ m. m ≡ new_machine widths capacity) }
        ensures fits { IfOk result (λ m. Fits (column_bits widths) capacity) }
        ensures fault { IfErr result (HasOpenFault widths capacity) }
    {
        if !widths.fits(capacity) {
            return Err(OpenFault::Cells {
                had: widths.cells(capacity),
            });
        }
        let logs = Logs::by_workers(rt, alloc, &widths, capacity, workers);
        match Machine::fitting(alloc, &widths, capacity, workers, logs) {
            Ok(machine) => Ok(machine),
            Err(_) => Err(OpenFault::Memory),
        }
    }

    // The machine of these logs, which have no pieces, for a capacity that fits.
    fn fitting(
        alloc: Global,
        widths: &Widths,
        capacity: u32,
        workers: u8,
        logs: Result<Logs, Memory>,
    ) -> Result<Machine, Memory>
        requires some { 1 ≤ workers }
        requires few { workers ≤ 16 }
        requires fits { Fits (column_bits widths.now) capacity }
        requires zero { IfOk logs (λ l. l.zero ≡ empty_log 0 widths.now capacity) }
        requires one { IfOk logs (λ l. l.one ≡ empty_log 1 widths.now capacity) }
        requires two { IfOk logs (λ l. l.two ≡ empty_log 2 widths.now capacity) }
        ensures { IfOk result (λ m. m ≡ new_machine widths.now capacity) }
    {
        Ok(Machine {
            widths: *widths,
            capacity,
            workers,
            logs: logs?,
            order: Order::new(alloc, capacity)?,
            actors: fresh_actors(alloc)?,
        })
    }

    /// Takes as many rows as it takes at all, where nothing was drawn: actor 0 draws each and places it at each server, one row after
    /// another. They are split and written by the machine's workers. The only error is out of memory; the machine is then as before.
    pub fn append_rows<R: Threads + Sync>(
        &mut self,
        rt: &R,
        alloc: Global,
        entries: &[Entry],
    ) -> Result<(), Memory>
        requires fresh { self.old.core ≡ empty_core }
        requires all { length entries.now ≡ self.old.capacity }
        requires held { All (λ e. Holds self.old.widths e.row) entries.now }
        ensures rows { OnOk result (self.new ≡ record self.old { core = core_after (map pair_of entries.now) }) }
        ensures stays { OnErr result (self.new ≡ self.old) }
    {
        let widths = self.widths;
        self.logs
            .append_rows(rt, alloc, &widths, entries, usize::from(self.workers))?;
        self.order.add_all(entries);
        self.actors[0].floor = entries.len() as u64;
        Ok(())
    }

    /// Does an event. An answer whose messages were received as they were sent is the plain one, whatever the wire did before.
    /// `NotAllowed` comes where the event has no case as things stand, `Memory` at any time; the machine is then as before. Out of
    /// memory, the first messages of an answer may have been carried; other events, and one that is refused, leave the wire as it
    /// is. An answer notes in the trace what the servers see of it, which follows from its sizes, also where it is `Altered`; out of
    /// memory a prefix of that. Every other event, and one that is refused, leaves the trace as it is.
    pub fn step<R: Threads + Sync, W: Wire>(
        &mut self,
        rt: &R,
        alloc: Global,
        event: Event,
        wire: &mut W,
        trace: &mut Trace,
    ) -> Result<Reply, StepFault>
        requires held { IsHeld self.old.widths event }
        ensures stepped { (ms : List Message) × (pair : OpenedPair) × Went W.sight wire.old ms wire.new
            × Stepped self.old event ms pair self.new result
            × (IsHonest ms → IfOk result (λ reply. IsPlain self.old.core event pair × (is_altered reply ≡ false))) }
        ensures accepted { ¬ HasAltered W.sight wire.old wire.new → IfOk result (λ reply. is_altered reply ≡ false) }
        ensures widths { self.new.widths ≡ self.old.widths }
        ensures legal { IsLegal self.new.core }
        ensures quiet { IsQuiet event → wire.new ≡ wire.old }
        ensures refused { (given : Event) → result ≡ Err (StepFault.NotAllowed given) → wire.new ≡ wire.old }
        ensures trace { AddsSeen self.old.widths self.old.core event trace.old trace.new result }
        ensures unseen { IsQuiet event → trace.new ≡ trace.old }
    {
        let done = self.act(rt, alloc, event, wire, trace);
        let _ = &self.order; // a look at the machine, whose core is legal
        outcome_of(event, done)
    }

    // Does an event. None: it has no case.
    fn act<R: Threads + Sync, W: Wire>(
        &mut self,
        rt: &R,
        alloc: Global,
        event: Event,
        wire: &mut W,
        trace: &mut Trace,
    ) -> Result<Option<Reply>, Memory>
        requires held { IsHeld self.old.widths event }
        ensures stepped { (ms : List Message) × (pair : OpenedPair) × Went W.sight wire.old ms wire.new
            × Stepped self.old event ms pair self.new (named event result)
            × (IsHonest ms → IfOk (named event result) (λ reply. IsPlain self.old.core event pair × (is_altered reply ≡ false))) }
        ensures quiet { IsQuiet event → wire.new ≡ wire.old }
        ensures refused { result ≡ Ok None → wire.new ≡ wire.old }
        ensures trace { AddsSeen self.old.widths self.old.core event trace.old trace.new (named event result) }
        ensures unseen { IsQuiet event → trace.new ≡ trace.old }
    {
        match event {
            Event::Draw { actor, row, seed } => self.draw(alloc, actor, &row, &seed),
            Event::Place { actor, server } => Ok(self.place(actor, server)),
            Event::Look { actor, server } => Ok(self.look(actor, server)),
            Event::Fix { actor } => self.fix(alloc, actor),
            Event::Answer { actor, query, seed } => {
                self.answer(rt, alloc, actor, &query, &seed, wire, trace)
            }
        }
    }

    // Draws the next place for a row.
    fn draw(
        &mut self,
        alloc: Global,
        number: u8,
        row: &Row,
        seed: &Seed,
    ) -> Result<Option<Reply>, Memory>
        requires { Holds self.old.widths row.now }
        ensures { Quietly self.old (Event.Draw number row.now seed.now) self.new result }
    {
        let i = number as usize;
        if i >= self.actors.len() || !self.actors[i].may_draw() {
            return Ok(None);
        }
        let RowPieces { zero, one, two } = pieces(alloc, &self.widths, row, seed)?;
        let Some(place) = self.order.add(*row, *seed) else {
            return Ok(Some(Reply::Full {
                capacity: self.capacity,
            }));
        };
        self.actors[i].begin(OpenDraw {
            place,
            zero: Some(zero),
            one: Some(one),
            two: Some(two),
        });
        Ok(Some(Reply::Drew { place }))
    }

    // Places the piece of an actor's open draw at a server.
    fn place(&mut self, number: u8, server: u8) -> Option<Reply>
        ensures { Quietly self.old (Event.Place number server) self.new (Ok result) }
    {
        let i = number as usize;
        if i >= self.actors.len() {
            return None;
        }
        self.actors[i].place(&mut self.logs, server)
    }

    // Lets an actor see how many of the first places a server has.
    fn look(&mut self, number: u8, server: u8) -> Option<Reply>
        ensures { Quietly self.old (Event.Look number server) self.new (Ok result) }
    {
        let i = number as usize;
        if i >= self.actors.len() {
            return None;
        }
        self.actors[i].look(&self.logs, server)
    }

    // Fixes an actor's next server.
    fn fix(&mut self, alloc: Global, number: u8) -> Result<Option<Reply>, Memory>
        ensures { Quietly self.old (Event.Fix number) self.new result }
    {
        let i = number as usize;
        if i >= self.actors.len() {
            return Ok(None);
        }
        let reply = self.actors[i].fix(alloc, &mut self.logs, &self.widths, self.order.sight())?;
        Ok(Some(reply))
    }

    /// The rows that an actor agreed on: the first ones of the order, as the three servers hold them. `None` where it has no agreement.
    pub fn agreed(&self, number: u8) -> Option<&Agreed>
        ensures none { IfNone result (rows_agreed (slice_get self.now.core.actors number) ≡ None) }
        ensures some { IfSome result (λ a. IsAgreedBy self.now number a.now) }
    {
        let i = number as usize;
        if i >= self.actors.len() {
            return None;
        }
        match &self.actors[i].snapshots {
            Snapshots::Agreed(agreed) => Some(agreed),
            _ => None,
        }
    }

    // Asks a query over the rows that an actor agreed on.
    fn answer<R: Threads + Sync, W: Wire>(
        &self,
        rt: &R,
        alloc: Global,
        number: u8,
        query: &Query,
        seed: &Seed,
        wire: &mut W,
        trace: &mut Trace,
    ) -> Result<Option<Reply>, Memory>
        ensures stepped { let event = Event.Answer number query.now seed.now in
            (ms : List Message) × (pair : OpenedPair) × Went W.sight wire.old ms wire.new
            × Stepped self.now event ms pair self.now (named event result)
            × (IsHonest ms → IfOk (named event result) (λ reply. IsPlain self.now.core event pair × (is_altered reply ≡ false))) }
        ensures refused { result ≡ Ok None → wire.new ≡ wire.old }
        ensures trace { let event = Event.Answer number query.now seed.now in
            AddsSeen self.now.widths self.now.core event trace.old trace.new (named event result) }
    {
        let Some(agreed) = self.agreed(number) else {
            return Ok(None);
        };
        if !query.suits(&self.widths) {
            return Ok(None);
        }
        let answered = agreed_rows::answer(
            rt,
            alloc,
            agreed,
            query,
            seed,
            wire,
            trace,
            self.workers,
        );
        reply_over(agreed.rows(), answered)
    }
}

// Sixteen actors that have seen nothing.
fn fresh_actors(alloc: Global) -> Result<Vec<ActorState>, Memory>
    ensures { IfOk result (λ actors. actors.items ≡ listed 16 (λ _. fresh_state)) }
{
    let mut actors = Vec::with_capacity(alloc, 16)?;
    for _i in 0..16u8 {
        actors.push_reserved(ActorState::new());
    }
    Ok(actors)
}
