//! A machine on which actor 0 agreed on all rows of a setting.
ghost use Rattle.std.specs.Prelude.{◌≡◌, ◌≤◌, Some, IfOk, OnOk};
ghost use Rattle.schedule_play.specs.AllAgreed.{core_agreed};
ghost use Rattle.schedule_play.specs.Appended.{seeded_rows};
ghost use Rattle.schedule_play.specs.Plays.{seen};
ghost use Rattle.schedule_play.specs.Tasks.{IsSetting};
ghost use Rattle.server_rounds.specs.declared.opened.OpenedPair.{OpenedPair};
ghost use Rattle.waldo_core.specs.Core.{Core};
ghost use Rattle.waldo_core.specs.Step.{step};
ghost use Rattle.waldo_core.specs.declared.events.Event.TheVariants as events;
ghost use Rattle.waldo_core.specs.declared.events.Reply.{Reply};

use crate::progress::Progress;
use crate::setting::Setting;
use ring128::Memory;
use std::alloc::Global;
use std::thread::Threads;
use visit_trace::Trace;
use waldo_core::{Event, Machine};
use wire_line::StraightWire;

// Lets actor 0 fix at its next server. The core is the one that the fix leads to, whatever would be opened.
fn fix<R: Threads + Sync>(rt: &R, alloc: Global, machine: &mut Machine) -> Result<(), Memory>
    ensures { OnOk result ((next : Core × Reply)
        → ((pair : OpenedPair) → step machine.old.capacity machine.old.core (events.Fix 0) pair ≡ Some next)
        → machine.new ≡ record machine.old { core = next.0 }) }
{
    let mut wire = StraightWire::new(); // a fix carries nothing
    let mut trace = Trace::new(alloc);
    match machine.step(rt, alloc, Event::Fix { actor: 0 }, &mut wire, &mut trace) {
        Ok(_) => Ok(()),
        Err(_) => Err(Memory),
    }
}

/// The machine once actor 0 has appended all rows, as [`ask`](crate::ask) does, and has agreed on them. The only error is out of
/// memory.
pub fn agree<R: Threads + Sync>(
    rt: &R,
    alloc: Global,
    setting: &Setting<'_>,
) -> Result<Machine, Memory>
    requires legal { IsSetting setting.now.widths (seen setting.now) }
    requires some { 1 ≤ setting.now.workers }
    requires few { setting.now.workers ≤ 16 }
    ensures agreed { IfOk result (λ m. m.core ≡ core_agreed (seeded_rows setting.now.master 0 setting.now.rows.now)) }
    ensures widths { IfOk result (λ m. m.widths ≡ setting.now.widths) }
{
    let mut progress = Progress::new(rt, alloc, setting)?;
    progress.append_rows(rt, alloc, setting)?;
    let mut machine = progress.into_machine();
    fix(rt, alloc, &mut machine)?;
    fix(rt, alloc, &mut machine)?;
    fix(rt, alloc, &mut machine)?;
    Ok(machine)
}
