//! Steps on a machine and over wires.
ghost use Rattle.std.specs.Prelude.{◌≡◌, ◌^◌, ◌<◌, ◌≤◌, [], ◌∷◌, IfErr, OnOk, length};
ghost use Rattle.std.specs.List.{flat_map, range_with_len};
ghost use Rattle.schedule_play.specs.Leads.{Leads, Stops};
ghost use Rattle.schedule_play.specs.Plays.{Plays, seen};
ghost use Rattle.schedule_play.specs.Ready.{IsReady, stage_of};
ghost use Rattle.schedule_play.specs.Tasks.{IsSetting, ask_steps, asking, scheduled};
ghost use Rattle.schedule_play.specs.Traces.{AddsTraces, asked_sizes, sizes_from, sizes_in};
ghost use Rattle.schedule_play.specs.declared.style.Style.TheVariants as styles;
ghost use Rattle.schedule_play.specs.Wires.{Carried, Unaltered};

use crate::progress::Progress;
use crate::setting::Setting;
use crate::style::Style;
use report_lines::Report;
use ring128::Memory;
use std::alloc::Global;
use std::thread::Threads;
use visit_trace::Trace;
use waldo_words::Step;
use wire_line::Wire;

/// What steps came to: a report, and whether the check refused what some answer opened.
#[derive(Drop)]
pub struct Played {
    pub report: Report,
    pub altered: bool,
}

/// Why steps were not done to their end: the one with this number, from 0, has no case; or there was no memory.
#[derive(Clone, Copy, Debug, PartialEq, Eq)]
pub enum PlayFault {
    NotAllowed { index: u64 },
    Memory,
}

impl From<Memory> for PlayFault {
    ghost use Rattle.std.specs.Prelude.{◌≡◌};
    ghost use Rattle.schedule_play.specs.declared.play.PlayFault.TheVariants as fault;

    ghost from_gives = { λ _ e. e ≡ fault.Memory };

    fn from(_e: Memory) -> PlayFault {
        PlayFault::Memory
    }
}

// Asks each query: actor 0 fixes three times and answers.
fn ask_queries<R: Threads + Sync, W: Wire>(
    progress: &mut Progress,
    rt: &R,
    alloc: Global,
    setting: &Setting<'_>,
    wires: &mut Vec<W>,
    trace: &mut Trace,
) -> Result<(), PlayFault>
    requires legal { IsSetting setting.now.widths (seen setting.now) }
    requires queries { length setting.now.queries.now ≤ 16 }
    requires ready { IsReady setting.now.widths (seen setting.now) progress.old }
    requires few { progress.old.done < 2 ^ 39 }
    requires wires { 0 < length wires.old.items }
    ensures wires { length wires.new.items ≡ length wires.old.items }
    ensures leads { OnOk result (Leads W.sight setting.now.widths (seen setting.now) styles.Queries (stage_of progress.old) wires.old.items
        (flat_map ask_steps (range_with_len 0 (length setting.now.queries.now))) (stage_of progress.new) wires.new.items) }
    ensures stops { IfErr result (Stops W.sight setting.now.widths (seen setting.now) styles.Queries progress.old.done
        (stage_of progress.old) wires.old.items (flat_map ask_steps (range_with_len 0 (length setting.now.queries.now))) wires.new.items) }
    ensures trace { AddsTraces (sizes_from setting.now.widths (seen setting.now) (stage_of progress.old)
        (flat_map ask_steps (range_with_len 0 (length setting.now.queries.now)))) trace.old trace.new result }
{
    for query in 0..setting.queries.len() {
        let steps = [
            Step::Fix { actor: 0 },
            Step::Fix { actor: 0 },
            Step::Fix { actor: 0 },
            Step::Answer {
                actor: 0,
                query: query as u8,
            },
        ];
        progress.steps(rt, alloc, setting, Style::Queries, &steps, wires, trace)?;
    }
    Ok(())
}

/// Appends the rows one after another and then asks each query over all of them. Everything goes over the first of the
/// wires. The trace grows by what the servers see of each query: by the trace of how many rows there are, of their widths and of the
/// query's shape.
pub fn ask<R: Threads + Sync, W: Wire>(
    rt: &R,
    alloc: Global,
    setting: &Setting<'_>,
    wires: &mut Vec<W>,
    trace: &mut Trace,
) -> Result<Played, PlayFault>
    requires legal { IsSetting setting.now.widths (seen setting.now) }
    requires queries { length setting.now.queries.now ≤ 16 }
    requires some { 1 ≤ setting.now.workers }
    requires few { setting.now.workers ≤ 16 }
    requires wires { 0 < length wires.old.items }
    ensures wires { length wires.new.items ≡ length wires.old.items }
    ensures plays { Plays setting.now.widths (asking (seen setting.now)) (Carried W.sight wires.old.items wires.new.items)
        (Unaltered W.sight wires.old.items wires.new.items) result }
    ensures trace { AddsTraces (asked_sizes setting.now.widths (length setting.now.rows.now) setting.now.queries.now)
        trace.old trace.new result }
{
    let mut progress = Progress::new(rt, alloc, setting)?;
    progress.append_rows(rt, alloc, setting)?;
    ask_queries(&mut progress, rt, alloc, setting, wires, trace)?;
    Ok(progress.into_played())
}

// The one element of a list of one.
fn only_one<T: Drop>(mut list: Vec<T>) -> T
    requires { length list.items ≡ 1 }
    ensures { list.items ≡ result ∷ [] }
{
    match list.pop() {
        Some(only) => only,
        None => unreachable!(),
    }
}

/// The same over one wire, which is given back.
pub fn ask_over<R: Threads + Sync, W: Wire + Drop>(
    rt: &R,
    alloc: Global,
    setting: &Setting<'_>,
    wire: W,
    trace: &mut Trace,
) -> (Result<Played, PlayFault>, W)
    requires legal { IsSetting setting.now.widths (seen setting.now) }
    requires queries { length setting.now.queries.now ≤ 16 }
    requires some { 1 ≤ setting.now.workers }
    requires few { setting.now.workers ≤ 16 }
    ensures plays { Plays setting.now.widths (asking (seen setting.now)) (Carried W.sight (wire ∷ []) (result.1 ∷ []))
        (Unaltered W.sight (wire ∷ []) (result.1 ∷ [])) result.0 }
    ensures trace { AddsTraces (asked_sizes setting.now.widths (length setting.now.rows.now) setting.now.queries.now)
        trace.old trace.new result.0 }
{
    let Ok(mut wires) = Vec::with_capacity(alloc, 1) else {
        return (Err(PlayFault::Memory), wire);
    };
    wires.push_reserved(wire);
    let played = ask(rt, alloc, setting, &mut wires, trace);
    (played, only_one(wires))
}

/// Does the steps of a schedule one after another. Actor a's answers go over wire a of 16. The trace grows by what the servers see of
/// each answer: by the trace of how many rows its actor agreed on, of their widths and of the query's shape.
pub fn replay<R: Threads + Sync, W: Wire>(
    rt: &R,
    alloc: Global,
    setting: &Setting<'_>,
    schedule: &[Step],
    wires: &mut Vec<W>,
    trace: &mut Trace,
) -> Result<Played, PlayFault>
    requires legal { IsSetting setting.now.widths (seen setting.now) }
    requires short { length schedule.now ≤ 4096 }
    requires some { 1 ≤ setting.now.workers }
    requires few { setting.now.workers ≤ 16 }
    requires wires { length wires.old.items ≡ 16 }
    ensures wires { length wires.new.items ≡ 16 }
    ensures plays { Plays setting.now.widths (scheduled (seen setting.now) schedule.now)
        (Carried W.sight wires.old.items wires.new.items) (Unaltered W.sight wires.old.items wires.new.items) result }
    ensures trace { AddsTraces (sizes_in setting.now.widths (scheduled (seen setting.now) schedule.now)) trace.old trace.new result }
{
    let mut progress = Progress::new(rt, alloc, setting)?;
    progress.steps(rt, alloc, setting, Style::Rounds, schedule, wires, trace)?;
    Ok(progress.into_played())
}
