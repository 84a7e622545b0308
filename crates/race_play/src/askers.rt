//! Askers at once, each in a thread of its own with a pass and a wire of its own.
ghost use denote.Param.Send.{IsSend, IsSync};
ghost use Rattle.std.specs.Prelude.{◌<◌, ◌≤◌, ◌+◌, IfOk, OnErr, length};
ghost use Rattle.race_play.specs.Asking.{AsksAll, AsksOne, CanAsk};
ghost use Rattle.race_play.specs.Heard.{JoinsFirst, JoinsHeard, JoinsSaid};
ghost use Rattle.visit_trace.specs.Seen.{Grew, alike, nothing};

use crate::ask::ask_rounds;
use crate::gate::Gate;
use crate::said::Said;
use crate::setting::Crew;
use prg_chacha::Seed;
use query_plan::Query;
use ring128::Memory;
use std::alloc::Global;
use std::sync::Wait;
use std::thread::{Threads, join_mut};
use visit_trace::Trace;
use waldo_table::{Pass, Table};
use wire_line::Wire;

/// What askers were answered, unless out of memory, and what the servers saw of it.
#[derive(Drop)]
pub(crate) struct Heard {
    pub said: Result<Said, Memory>,
    pub trace: Trace,
}

// The rounds of an asker, with a trace of its own.
fn ask_alone<R: Threads + Wait + Sync, W: Wire, G: Gate>(
    rt: &R,
    alloc: Global,
    table: &Table,
    queries: &[Query],
    master: &Seed,
    crew: &Crew,
    asker: u8,
    gate: &G,
    pass: &mut Pass,
    wire: &mut W,
) -> Heard
    requires { CanAsk table.now queries.now crew.now pass.old }
    ensures { AsksOne W.sight table.now queries.now master.now crew.now asker
        pass.old pass.new wire.old wire.new (alike nothing) result.trace result.said }
{
    let mut trace = Trace::new(alloc);
    let said = ask_rounds(
        rt, alloc, table, queries, master, crew, asker, gate, pass, wire, &mut trace,
    );
    Heard { said, trace }
}

/// The rounds of the askers from one on, each over a wire of its own: of the first asker over the first wire. Each asker's pass is split
/// off this one before it asks, and gathered again once all have ended. The only error is out of memory.
#[cycle(askers)]
pub(crate) fn race_askers<R: Threads + Wait + Sync, W: Wire + Send, G: Gate + Sync>(
    rt: &R,
    alloc: Global,
    table: &Table,
    queries: &[Query],
    master: &Seed,
    crew: &Crew,
    asker: u8,
    gate: &G,
    pass: &mut Pass,
    wires: &mut [W],
) -> Heard
    requires can { CanAsk table.now queries.now crew.now pass.old }
    requires asker { asker ≤ crew.now.askers }
    requires wires { crew.now.askers ≤ asker + length wires.old }
    ensures { AsksAll W.sight table.now queries.now master.now crew.now asker
        pass.old pass.new wires.old wires.new (alike nothing) result.trace result.said }
{
    if asker == crew.askers {
        return Heard {
            said: Ok(Said::new(alloc)),
            trace: Trace::new(alloc),
        };
    }
    let Some((wire, rest)) = wires.split_first_mut() else {
        unreachable!()
    };
    let mut mine = table.split_pass(pass, 0);
    let (first, others) = ask_beside(
        rt, alloc, table, queries, master, crew, asker, gate, &mut mine, wire, pass, rest,
    );
    table.gather(pass, mine);
    joined(first, others)
}

// An asker, and those behind it beside it. A separate function, so that what the closures require is what this function is given.
#[cycle(askers)]
fn ask_beside<R: Threads + Wait + Sync, W: Wire + Send, G: Gate + Sync>(
    rt: &R,
    alloc: Global,
    table: &Table,
    queries: &[Query],
    master: &Seed,
    crew: &Crew,
    asker: u8,
    gate: &G,
    mine: &mut Pass,
    wire: &mut W,
    pass: &mut Pass,
    rest: &mut [W],
) -> (Heard, Heard)
    requires mine { CanAsk table.now queries.now crew.now mine.old }
    requires can { CanAsk table.now queries.now crew.now pass.old }
    requires asker { asker < crew.now.askers }
    requires wires { crew.now.askers ≤ asker + 1 + length rest.old }
    ensures one { AsksOne W.sight table.now queries.now master.now crew.now asker
        mine.old mine.new wire.old wire.new (alike nothing) result.0.trace result.0.said }
    ensures others { AsksAll W.sight table.now queries.now master.now crew.now (asker + 1)
        pass.old pass.new rest.old rest.new (alike nothing) result.1.trace result.1.said }
{
    let mut first = || -> Heard
        requires { IsSync R.row × IsSync G.row × IsSend W.row × CanAsk table.now queries.now crew.now mine.now }
        ensures { AsksOne W.sight table.entry.now queries.entry.now master.entry.now crew.entry.now asker
            mine.entry.now mine.exit.now wire.entry.now wire.exit.now (alike nothing) result.trace result.said }
    {
        ask_alone(
            rt, alloc, table, queries, master, crew, asker, gate, mine, wire,
        )
    };
    let next = asker + 1;
    let mut others = || -> Heard
        requires { IsSync R.row × IsSync G.row × IsSend W.row × CanAsk table.now queries.now crew.now pass.now
            × (next ≤ crew.now.askers) × (crew.now.askers ≤ next + length rest.now) }
        ensures { AsksAll W.sight table.entry.now queries.entry.now master.entry.now crew.entry.now next
            pass.entry.now pass.exit.now rest.entry.now rest.exit.now (alike nothing) result.trace result.said }
    {
        race_askers(
            rt, alloc, table, queries, master, crew, next, gate, pass, rest,
        )
    };
    join_mut(rt, &mut first, &mut others)
}

// What an asker heard, and behind it what other askers did.
fn joined(first: Heard, others: Heard) -> Heard
    ensures { JoinsHeard first.trace first.said others.trace others.said result.trace result.said }
{
    let Heard { said, mut trace } = first;
    let said = said_behind(said, &mut trace, others);
    Heard { said, trace }
}

// The lines of an asker, and behind them those of other askers; and so the traces. Where the asker was out of memory, nothing is noted
// behind what it noted.
fn said_behind(
    first: Result<Said, Memory>,
    trace: &mut Trace,
    others: Heard,
) -> Result<Said, Memory>
    ensures said { IfOk result (JoinsSaid first others.said) }
    ensures trace { IfOk result (λ _. Grew trace.old trace.new others.trace) }
    ensures trace_first { OnErr result (JoinsFirst first trace.old others.trace trace.new) }
{
    let mut said = first?;
    trace.note_trace(&others.trace)?;
    said.push_all(others.said?)?;
    Ok(said)
}
