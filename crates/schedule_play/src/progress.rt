//! A machine on which steps are done one after another, and what is reported of them.
ghost use Rattle.std.specs.Prelude.{ℕ, ◌≡◌, ◌+◌, ◌*◌, ◌^◌, ◌<◌, ◌≤◌, [], ◌∷◌, ◌++◌, if◌then◌else◌, IfErr, IfOk, OnErr, OnOk, length};
ghost use Rattle.std.specs.Prelude.{option_to_list, slice_get, slice_set, slice_index_or};
ghost use Rattle.schedule_play.specs.Appended.{stage_with_rows};
ghost use Rattle.schedule_play.specs.Leads.{Leads, Stops};
ghost use Rattle.schedule_play.specs.Plays.{seen};
ghost use Rattle.schedule_play.specs.Stages.{HaveWires, actor_in, event_of, first_stage, is_asked, lines_of, with_reply};
ghost use Rattle.waldo_core.specs.Step.{is_altered};
ghost use Rattle.schedule_play.specs.Tasks.{IsSetting};
ghost use Rattle.schedule_play.specs.Traces.{AddsTraces, sizes_from};

use crate::entries::seeded;
use crate::play::{PlayFault, Played};
use crate::setting::Setting;
use crate::steps::{actor_in, is_altered, is_asked, is_drawn, line_of};
use crate::style::Style;
use prg_chacha::derive;
use report_lines::Report;
use ring128::Memory;
use std::alloc::Global;
use std::thread::Threads;
use visit_trace::Trace;
use waldo_core::{Event, Machine, Reply, StepFault};
use waldo_words::Step;
use wire_line::Wire;

/// How many actors there are, each with a wire.
const ACTORS: u8 = 16;

/// A machine, and what is known of the steps that were done on it: how many lines each actor has with an answer or a
/// refused fix, the report, whether the check refused what some answer opened, how many rows were drawn, and how many
/// steps were done.
#[derive(Drop)]
pub(crate) struct Progress {
    machine: Machine,
    rounds: [u64; 16],
    report: Report,
    altered: bool,
    drawn: u64,
    done: u64,
}

impl Progress {
    ghost use Rattle.schedule_play.specs.Ready.{IsReady, is_drawn, stage_of};

    /// Before the first step.
    pub(crate) fn new<R: Threads + Sync>(
        rt: &R,
        alloc: Global,
        setting: &Setting<'_>,
    ) -> Result<Progress, Memory>
        requires legal { IsSetting setting.now.widths (seen setting.now) }
        requires some { 1 ≤ setting.now.workers }
        requires few { setting.now.workers ≤ 16 }
        ensures ready { IfOk result (IsReady setting.now.widths (seen setting.now)) }
        ensures stage { IfOk result (λ p. stage_of p ≡ first_stage) }
        ensures done { IfOk result (λ p. p.done ≡ 0) }
    {
        let capacity = setting.rows.len().max(1) as u32;
        match Machine::new_by_workers(rt, alloc, setting.widths, capacity, setting.workers) {
            Ok(machine) => Ok(Progress {
                machine,
                rounds: [0; 16],
                report: Report::new(alloc),
                altered: false,
                drawn: 0,
                done: 0,
            }),
            Err(_) => Err(Memory),
        }
    }

    /// Appends all rows, if there are any, before any other step: actor 0 draws each and places it at each server, one row after
    /// another. The machine's workers do it. The only error is out of memory.
    pub(crate) fn append_rows<R: Threads + Sync>(
        &mut self,
        rt: &R,
        alloc: Global,
        setting: &Setting<'_>,
    ) -> Result<(), Memory>
        requires legal { IsSetting setting.now.widths (seen setting.now) }
        requires some { 1 ≤ setting.now.workers }
        requires ready { IsReady setting.now.widths (seen setting.now) self.old }
        requires first { stage_of self.old ≡ first_stage }
        requires none { self.old.done ≡ 0 }
        ensures ready { OnOk result (IsReady setting.now.widths (seen setting.now) self.new) }
        ensures stage { OnOk result (stage_of self.new ≡ stage_with_rows (seen setting.now)) }
        ensures done { OnOk result (self.new.done ≡ 4 * length setting.now.rows.now) }
    {
        if setting.rows.is_empty() {
            return Ok(());
        }
        let workers = usize::from(setting.workers);
        let entries = seeded(rt, alloc, setting.rows, &setting.master, workers)?;
        self.machine.append_rows(rt, alloc, entries.as_slice())?;
        self.drawn = setting.rows.len() as u64;
        self.done = 4 * self.drawn;
        Ok(())
    }

    /// The machine as it is now.
    pub(crate) fn into_machine(self) -> Machine
        ensures { result ≡ self.machine }
    {
        let Progress {
            machine,
            rounds: _,
            report: _,
            altered: _,
            drawn: _,
            done: _,
        } = self;
        machine
    }

    /// What all steps came to.
    pub(crate) fn into_played(self) -> Played
        ensures report { result.report ≡ (stage_of self).lines }
        ensures altered { result.altered ≡ (stage_of self).altered }
    {
        let Progress {
            machine: _,
            rounds: _,
            report,
            altered,
            drawn: _,
            done: _,
        } = self;
        Played { report, altered }
    }

    // The event of a step: a draw takes the next row, and an answer the query of its number; without one there is none.
    fn event(&self, setting: &Setting<'_>, step: Step) -> Option<Event>
        requires ready { IsReady setting.now.widths (seen setting.now) self.now }
        requires legal { IsSetting setting.now.widths (seen setting.now) }
        requires actor { actor_in step < 16 }
        requires few { self.now.done < 2 ^ 40 }
        ensures { result ≡ event_of (seen setting.now) (stage_of self.now) step }
    {
        match step {
            Step::Draw { actor } => {
                let row = setting.rows.get(self.drawn as usize).copied()?;
                let seed = derive(&setting.master, 1, u16::from(actor), self.drawn);
                Some(Event::Draw { actor, row, seed })
            }
            Step::Place { actor, server } => Some(Event::Place { actor, server }),
            Step::Look { actor, server } => Some(Event::Look { actor, server }),
            Step::Fix { actor } => Some(Event::Fix { actor }),
            Step::Answer { actor, query } => {
                let query = setting.queries.get(usize::from(query)).copied()?;
                let round = self.rounds[usize::from(actor)];
                let seed = derive(&setting.master, 2, u16::from(actor), round);
                Some(Event::Answer { actor, query, seed })
            }
        }
    }

    // Counts a step that had this reply, and reports it.
    fn count(
        &mut self,
        setting: &Setting<'_>,
        style: Style,
        step: Step,
        reply: Reply,
    ) -> Result<(), Memory>
        requires actor { actor_in step < 16 }
        requires few { self.old.done < 2 ^ 40 }
        requires rounds { (actor : ℕ) → slice_index_or self.old.rounds actor 0 ≤ self.old.done }
        requires drawn { self.old.drawn ≤ self.old.done }
        ensures stage { OnOk result (stage_of self.new
            ≡ with_reply (seen setting.now) style (stage_of self.old) step (self.old.machine.core, reply)) }
        ensures machine { self.new.machine ≡ self.old.machine }
        ensures rounds { OnOk result ((actor : ℕ) → slice_index_or self.new.rounds actor 0 ≤ self.new.done) }
        ensures drawn { OnOk result (self.new.drawn ≡ self.old.drawn + (if is_drawn reply then 1 else 0)) }
        ensures done { OnOk result (self.new.done ≡ self.old.done + 1) }
    {
        let actor = usize::from(actor_in(step));
        let round = self.rounds[actor];
        if let Some(line) = line_of(setting, style, step, round, reply) {
            self.report.push(line)?;
        }
        if is_asked(reply) {
            self.rounds[actor] = round + 1;
        }
        if is_drawn(reply) {
            self.drawn += 1;
        }
        self.altered = self.altered || is_altered(reply);
        self.done += 1;
        Ok(())
    }

    /// Does a step over its actor's wire, and notes in the trace what the servers see of it. Out of memory, the first messages of an
    /// answer may have been carried, and a prefix of what is seen noted.
    fn step<R: Threads + Sync, W: Wire>(
        &mut self,
        rt: &R,
        alloc: Global,
        setting: &Setting<'_>,
        style: Style,
        step: Step,
        wires: &mut Vec<W>,
        trace: &mut Trace,
    ) -> Result<(), PlayFault>
        requires legal { IsSetting setting.now.widths (seen setting.now) }
        requires ready { IsReady setting.now.widths (seen setting.now) self.old }
        requires few { self.old.done < 2 ^ 40 }
        requires wires { actor_in step < 16 → actor_in step < length wires.old.items }
        ensures wires { length wires.new.items ≡ length wires.old.items }
        ensures ready { OnOk result (IsReady setting.now.widths (seen setting.now) self.new) }
        ensures done { OnOk result (self.new.done ≡ self.old.done + 1) }
        ensures leads { OnOk result (Leads W.sight setting.now.widths (seen setting.now) style (stage_of self.old) wires.old.items
            (step ∷ []) (stage_of self.new) wires.new.items) }
        ensures stops { IfErr result (Stops W.sight setting.now.widths (seen setting.now) style self.old.done
            (stage_of self.old) wires.old.items (step ∷ []) wires.new.items) }
        ensures trace { AddsTraces (sizes_from setting.now.widths (seen setting.now) (stage_of self.old) (step ∷ []))
            trace.old trace.new result }
    {
        let refused = PlayFault::NotAllowed { index: self.done };
        let actor = actor_in(step);
        if actor >= ACTORS {
            return Err(refused);
        }
        let Some(event) = self.event(setting, step) else {
            return Err(refused);
        };
        let wire = &mut wires[usize::from(actor)];
        match self.machine.step(rt, alloc, event, wire, trace) {
            Ok(reply) => {
                self.count(setting, style, step, reply)?;
                Ok(())
            }
            Err(StepFault::NotAllowed { .. }) => Err(refused),
            Err(StepFault::Memory) => Err(PlayFault::Memory),
        }
    }

    /// Does steps one after another, up to the first that is not done.
    pub(crate) fn steps<R: Threads + Sync, W: Wire>(
        &mut self,
        rt: &R,
        alloc: Global,
        setting: &Setting<'_>,
        style: Style,
        steps: &[Step],
        wires: &mut Vec<W>,
        trace: &mut Trace,
    ) -> Result<(), PlayFault>
        requires legal { IsSetting setting.now.widths (seen setting.now) }
        requires ready { IsReady setting.now.widths (seen setting.now) self.old }
        requires few { self.old.done + length steps.now < 2 ^ 40 }
        requires wires { HaveWires (length wires.old.items) steps.now }
        ensures wires { length wires.new.items ≡ length wires.old.items }
        ensures ready { OnOk result (IsReady setting.now.widths (seen setting.now) self.new) }
        ensures done { OnOk result (self.new.done ≡ self.old.done + length steps.now) }
        ensures leads { OnOk result (Leads W.sight setting.now.widths (seen setting.now) style (stage_of self.old) wires.old.items
            steps.now (stage_of self.new) wires.new.items) }
        ensures stops { IfErr result (Stops W.sight setting.now.widths (seen setting.now) style self.old.done
            (stage_of self.old) wires.old.items steps.now wires.new.items) }
        ensures trace { AddsTraces (sizes_from setting.now.widths (seen setting.now) (stage_of self.old) steps.now)
            trace.old trace.new result }
    {
        for step in steps {
            self.step(rt, alloc, setting, style, *step, wires, trace)?;
        }
        Ok(())
    }
}
