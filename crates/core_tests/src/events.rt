ghost use Rattle.std.specs.Prelude.{◌≡◌};

use prefix_log::OpenFault;
use prg_chacha::Seed;
use query_plan::{Predicate, Query};
use std::alloc::Global;
use std::process::Abort;
use std::test::Fail;
use std::thread::Threads;
use table_schema::{Aggregate, Kind, Row, Widths};
use visit_trace::Trace;
use waldo_core::*;
use wire_line::StraightWire;

// One column of four buckets.
const WIDTHS: Widths = Widths {
    columns: 1,
    bits: [2, 0, 0, 0, 0, 0],
};

const BLANK: Predicate = Predicate {
    column: 0,
    kind: Kind::Point,
    low: 0,
    high: 0,
};

// A draw of a row with this bucket and this value.
fn draw(actor: u8, bucket: u8, value: u32) -> Event {
    Event::Draw {
        actor,
        row: Row {
            columns: 1,
            buckets: [bucket, 0, 0, 0, 0, 0],
            value: i64::from(value),
        },
        seed: Seed { words: [value; 8] },
    }
}

fn place(actor: u8, server: u8) -> Event {
    Event::Place { actor, server }
}

fn look(actor: u8, server: u8) -> Event {
    Event::Look { actor, server }
}

fn fix(actor: u8) -> Event {
    Event::Fix { actor }
}

// How many rows have bucket 3.
fn answer(actor: u8) -> Event {
    Event::Answer {
        actor,
        query: Query {
            aggregate: Aggregate::Count,
            count: 1,
            predicates: [
                Predicate {
                    column: 0,
                    kind: Kind::Point,
                    low: 3,
                    high: 3,
                },
                BLANK,
                BLANK,
                BLANK,
            ],
        },
        seed: Seed { words: [9; 8] },
    }
}

// What a machine replies to an event; None where it is not allowed.
fn reply<R: Abort + Threads + Sync>(
    rt: &R,
    alloc: Global,
    machine: &mut Machine,
    widths: &Widths,
    event: Event,
) -> Result<Option<Reply>, Fail>
    requires { machine.old.widths ≡ widths.now }
    ensures { machine.new.widths ≡ machine.old.widths }
{
    let mut wire = StraightWire::new();
    if let Event::Draw { row, .. } = event
        && !widths.holds(&row)
    {
        return Err("a row of other widths".into());
    }
    let mut trace = Trace::new(alloc);
    let said = match machine.step(rt, alloc, event, &mut wire, &mut trace) {
        Ok(reply) => Some(reply),
        Err(StepFault::NotAllowed { .. }) => None,
        Err(StepFault::Memory) => return Err("no memory".into()),
    };
    check_trace(rt, &trace, said);
    Ok(said)
}

// Of an answer over one chunk of rows each server sees two visits and seven messages, of any other event nothing.
fn check_trace<R: Abort>(rt: &R, trace: &Trace, said: Option<Reply>) {
    let (visits, lengths) = match said {
        Some(Reply::Answered { rows, .. }) => (if rows == 0 { 0 } else { 2 }, 7),
        _ => (0, 0),
    };
    for server in 0..3u8 {
        assert_eq!(rt; trace.visits(server).take(visits + 1).count(), visits);
        assert_eq!(rt; trace.lengths(server).len(), lengths);
    }
}

// A machine of this capacity replies so to events, one after another.
fn play<R: Abort + Threads + Sync>(
    rt: &R,
    alloc: Global,
    widths: &Widths,
    capacity: u32,
    steps: &[(Event, Option<Reply>)],
) -> Result<(), Fail> {
    let Ok(mut machine) = Machine::new(alloc, *widths, capacity, 2) else {
        return Err("no machine".into());
    };
    for (event, wanted) in steps {
        let said = reply(rt, alloc, &mut machine, widths, *event)?;
        assert_eq!(rt; said, *wanted);
    }
    Ok(())
}

// Server 2 lags behind what actor 1 has seen; once it has caught up, the actor agrees and asks.
#[test]
fn a_server_that_lags_is_found(rt: HostRuntime) -> Result<(), Fail> {
    let steps = [
        (draw(0, 3, 10), Some(Reply::Drew { place: 0 })),
        (place(0, 0), Some(Reply::Placed)),
        (place(0, 1), Some(Reply::Placed)),
        (draw(1, 1, 20), Some(Reply::Drew { place: 1 })),
        (place(1, 0), Some(Reply::Placed)),
        (place(1, 1), Some(Reply::Placed)),
        (place(1, 2), Some(Reply::Placed)),
        (fix(1), Some(Reply::Fixed { prefix: 2 })),
        (fix(1), Some(Reply::Fixed { prefix: 2 })),
        (
            fix(1),
            Some(Reply::Again {
                server: 2,
                had: 0,
                floor: 2,
            }),
        ),
        (answer(1), None),
        (place(0, 2), Some(Reply::Placed)),
        (fix(1), Some(Reply::Fixed { prefix: 2 })),
        (fix(1), Some(Reply::Fixed { prefix: 2 })),
        (look(1, 0), None),
        (fix(1), Some(Reply::Agreed { rows: 2 })),
        (answer(1), Some(Reply::Answered { rows: 2, total: 1 })),
    ];
    play(&rt, rt.alloc(), &WIDTHS, 4, &steps)
}

// A look raises the floor and ends an agreement, a piece is placed once, and a full machine draws nothing.
#[test]
fn looks_placings_and_draws(rt: HostRuntime) -> Result<(), Fail> {
    let steps = [
        (draw(0, 3, 10), Some(Reply::Drew { place: 0 })),
        (draw(0, 3, 10), None),
        (place(0, 1), Some(Reply::Placed)),
        (place(0, 1), Some(Reply::Placed)),
        (place(0, 3), None),
        (look(2, 1), Some(Reply::Looked { prefix: 1 })),
        (
            fix(2),
            Some(Reply::Again {
                server: 0,
                had: 0,
                floor: 1,
            }),
        ),
        (place(0, 0), Some(Reply::Placed)),
        (place(0, 2), Some(Reply::Placed)),
        (place(0, 2), None),
        (draw(0, 3, 20), Some(Reply::Drew { place: 1 })),
        (draw(1, 3, 30), Some(Reply::Full { capacity: 2 })),
        (fix(2), Some(Reply::Fixed { prefix: 1 })),
        (fix(2), Some(Reply::Fixed { prefix: 1 })),
        (fix(2), Some(Reply::Agreed { rows: 1 })),
        (answer(2), Some(Reply::Answered { rows: 1, total: 1 })),
        (look(2, 0), Some(Reply::Looked { prefix: 1 })),
        (answer(2), None),
        (fix(16), None),
    ];
    play(&rt, rt.alloc(), &WIDTHS, 2, &steps)
}

// A capacity that does not fit is refused: 257 cells a row, at most 4,194,304 in all.
#[test]
fn a_capacity_that_does_not_fit(rt: HostRuntime) {
    let widths = Widths {
        columns: 1,
        bits: [8, 0, 0, 0, 0, 0],
    };
    for (capacity, had) in [(0, 0), (16_321, 4_194_497)] {
        let fault = Machine::new(rt.alloc(), widths, capacity, 1).err();
        assert_eq!(rt; fault, Some(OpenFault::Cells { had }));
    }
}
