ghost use Rattle.std.specs.Prelude.{◌≡◌, IfOk};

use agreed_groups::answer_groups;
use bucket_groups::{GroupAnswer, GroupAnswers};
use prg_chacha::Seed;
use query_plan::{Predicate, Query};
use std::alloc::Global;
use std::process::Abort;
use std::test::Fail;
use std::thread::Threads;
use table_schema::{Aggregate, Kind, Row, Widths};
use visit_trace::Trace;
use waldo_core::{Event, Machine};
use wire_line::{RecordWire, StraightWire};

// One column of four buckets.
const WIDTHS: Widths = Widths {
    columns: 1,
    bits: [2, 0, 0, 0, 0, 0],
};

const BLANK: Predicate = Predicate {
    column: 0,
    kind: Kind::Point,
    low: 0,
    high: 0,
};

// An event, which has to have a case.
fn step<R: Abort + Threads + Sync>(
    rt: &R,
    alloc: Global,
    machine: &mut Machine,
    widths: &Widths,
    event: Event,
) -> Result<(), Fail>
    requires { machine.old.widths ≡ widths.now }
    ensures { machine.new.widths ≡ machine.old.widths }
{
    if let Event::Draw { row, .. } = event
        && !widths.holds(&row)
    {
        return Err("a row of other widths".into());
    }
    let mut wire = StraightWire::new();
    let mut trace = Trace::new(alloc);
    match machine.step(rt, alloc, event, &mut wire, &mut trace) {
        Ok(_) => Ok(()),
        Err(_) => Err("an event without a case".into()),
    }
}

// Actor 0 appends a row with this bucket and this value.
fn append<R: Abort + Threads + Sync>(
    rt: &R,
    alloc: Global,
    machine: &mut Machine,
    widths: &Widths,
    bucket: u8,
    value: u32,
) -> Result<(), Fail>
    requires { machine.old.widths ≡ widths.now }
    ensures { machine.new.widths ≡ machine.old.widths }
{
    let row = Row {
        columns: 1,
        buckets: [bucket, 0, 0, 0, 0, 0],
        value: i64::from(value),
    };
    let seed = Seed { words: [value; 8] };
    let actor = 0;
    step(rt, alloc, machine, widths, Event::Draw { actor, row, seed })?;
    step(
        rt,
        alloc,
        machine,
        widths,
        Event::Place { actor, server: 0 },
    )?;
    step(
        rt,
        alloc,
        machine,
        widths,
        Event::Place { actor, server: 1 },
    )?;
    step(
        rt,
        alloc,
        machine,
        widths,
        Event::Place { actor, server: 2 },
    )?;
    Ok(())
}

// Three rows, bucket 3 with value 10, 1 with 20 and 3 with 5, on which actor 0 then agrees.
fn grown<R: Abort + Threads + Sync>(rt: &R, alloc: Global, widths: &Widths) -> Result<Machine, Fail>
    ensures { IfOk result (λ m. m.widths ≡ widths.now) }
{
    let Ok(mut machine) = Machine::new(alloc, *widths, 3, 2) else {
        return Err("no machine".into());
    };
    append(rt, alloc, &mut machine, widths, 3, 10)?;
    append(rt, alloc, &mut machine, widths, 1, 20)?;
    append(rt, alloc, &mut machine, widths, 3, 5)?;
    step(rt, alloc, &mut machine, widths, Event::Fix { actor: 0 })?;
    step(rt, alloc, &mut machine, widths, Event::Fix { actor: 0 })?;
    step(rt, alloc, &mut machine, widths, Event::Fix { actor: 0 })?;
    Ok(machine)
}

// The sum of all rows by host, over what actor 0 agreed on.
fn ask<R: Abort + Threads + Sync>(
    rt: &R,
    alloc: Global,
    machine: &Machine,
    widths: &Widths,
    wire: &mut RecordWire,
) -> Result<GroupAnswers, Fail>
    requires { machine.now.widths ≡ widths.now }
{
    let Some(agreed) = machine.agreed(0) else {
        return Err("no agreement".into());
    };
    let all = Predicate {
        column: 0,
        kind: Kind::AtMost,
        low: 0,
        high: 3,
    };
    let query = Query {
        aggregate: Aggregate::Sum,
        count: 1,
        predicates: [all, BLANK, BLANK, BLANK],
    };
    assert!(rt; query.suits(widths));
    assert!(rt; widths.columns > 0);
    let seed = Seed { words: [9; 8] };
    let mut trace = Trace::new(alloc);
    match answer_groups(
        rt, alloc, agreed, widths, &query, 0, &seed, wire, &mut trace, 2,
    ) {
        Ok(answers) => Ok(answers),
        Err(_) => Err("out of memory".into()),
    }
}

#[test]
fn rows_that_were_agreed_on(rt: HostRuntime) -> Result<(), Fail> {
    let alloc = rt.alloc();
    let widths = &WIDTHS;
    let machine = grown(&rt, alloc, widths)?;
    let mut wire = RecordWire::new(alloc);
    let answers = ask(&rt, alloc, &machine, widths, &mut wire)?;
    let wanted = [
        GroupAnswer::Good { total: 0 },
        GroupAnswer::Good { total: 20 },
        GroupAnswer::Good { total: 0 },
        GroupAnswer::Good { total: 15 },
    ];
    assert!(rt; answers.as_slice() == wanted.as_slice());
    assert_eq!(rt; wire.messages().len(), 21);
    Ok(())
}
