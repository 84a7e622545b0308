ghost use Rattle.std.specs.Prelude.{◌≡◌, ◌≤◌, length};

use prg_chacha::Seed;
use query_plan::read_query;
use report_lines::text;
use ring128::Memory;
use schedule_play::{PlayFault, Played, Setting, ask, replay};
use std::alloc::Global;
use std::process::Abort;
use std::test::Fail;
use std::thread::Threads;
use table_schema::{Row, read_schema};
use visit_trace::Trace;
use waldo_words::Step::{self, Answer, Draw, Fix, Look, Place};
use wire_line::{RecordWire, Shift, ShiftWire, Shifts, StraightWire, Wire};

/// Steps, and their report or the number of the first one without a case.
type Case = (&'static [Step], Result<&'static str, u64>);

// Actor 0's first row stays away from server 2, so that actor 1, whose own row is everywhere, misses rows there.
const GAP: [Step; 10] = [
    Draw { actor: 0 },
    Place {
        actor: 0,
        server: 0,
    },
    Place {
        actor: 0,
        server: 1,
    },
    Draw { actor: 1 },
    Place {
        actor: 1,
        server: 0,
    },
    Place {
        actor: 1,
        server: 1,
    },
    Place {
        actor: 1,
        server: 2,
    },
    Fix { actor: 1 },
    Fix { actor: 1 },
    Fix { actor: 1 },
];

const CLOSED: [Step; 15] = [
    Draw { actor: 0 },
    Place {
        actor: 0,
        server: 0,
    },
    Place {
        actor: 0,
        server: 1,
    },
    Draw { actor: 1 },
    Place {
        actor: 1,
        server: 0,
    },
    Place {
        actor: 1,
        server: 1,
    },
    Place {
        actor: 1,
        server: 2,
    },
    Fix { actor: 1 },
    Fix { actor: 1 },
    Fix { actor: 1 },
    Place {
        actor: 0,
        server: 2,
    },
    Fix { actor: 1 },
    Fix { actor: 1 },
    Fix { actor: 1 },
    Answer { actor: 1, query: 0 },
];

const CASES: [Case; 8] = [
    (
        &GAP,
        Ok("draw 0 place 0\ndraw 1 place 1\nask 1.0 again server 2 had 0 floor 2\n"),
    ),
    (
        &CLOSED,
        Ok(
            "draw 0 place 0\ndraw 1 place 1\nask 1.0 again server 2 had 0 floor 2\nask 1.1 rows 2 count 1\n",
        ),
    ),
    (&[Answer { actor: 0, query: 0 }], Err(0)),
    (
        &[Look {
            actor: 2,
            server: 1,
        }],
        Ok("look 2 server 1 prefix 0\n"),
    ),
    (
        &[
            Draw { actor: 0 },
            Place {
                actor: 0,
                server: 0,
            },
            Place {
                actor: 0,
                server: 0,
            },
            Look {
                actor: 1,
                server: 0,
            },
        ],
        Ok("draw 0 place 0\nlook 1 server 0 prefix 1\n"),
    ),
    (
        &[Draw { actor: 0 }, Draw { actor: 1 }, Draw { actor: 2 }],
        Err(2),
    ),
    (
        &[
            Fix { actor: 3 },
            Fix { actor: 3 },
            Fix { actor: 3 },
            Answer { actor: 3, query: 1 },
        ],
        Err(3),
    ),
    (&[Fix { actor: 16 }], Err(0)),
];

// Plays steps, or where there are none asks, over the rows (3, 10) and (1, 20) with the query `count host=3`.
fn play<R: Abort + Threads + Sync, W: Wire>(
    rt: &R,
    alloc: Global,
    steps: Option<&[Step]>,
    wires: &mut Vec<W>,
) -> Result<Played, PlayFault>
    requires { length wires.old.items ≡ 16 }
{
    let Ok(schema) = read_schema(alloc, "host:2") else {
        return Err(PlayFault::Memory);
    };
    let Ok(query) = read_query(&schema, "count host=3") else {
        return Err(PlayFault::Memory);
    };
    let widths = schema.widths();
    let first = Row {
        columns: 1,
        buckets: [3, 0, 0, 0, 0, 0],
        value: 10,
    };
    let second = Row {
        columns: 1,
        buckets: [1, 0, 0, 0, 0, 0],
        value: 20,
    };
    assert!(rt; widths.holds(&first));
    assert!(rt; widths.holds(&second));
    assert!(rt; widths.fits(2));
    assert!(rt; query.suits(&widths));
    let setting = Setting {
        widths,
        rows: &[first, second],
        queries: &[query],
        master: Seed { words: [0; 8] },
        workers: 2,
    };
    let mut trace = Trace::new(alloc);
    match steps {
        Some(steps) => {
            assert!(rt; steps.len() <= 4096);
            replay(rt, alloc, &setting, steps, wires, &mut trace)
        }
        None => ask(rt, alloc, &setting, wires, &mut trace),
    }
}

fn straight_wires(alloc: Global) -> Result<Vec<StraightWire>, Memory> {
    let mut wires = Vec::new(alloc);
    for _ in 0..16 {
        wires.push(StraightWire::new())?;
    }
    Ok(wires)
}

fn record_wires(alloc: Global) -> Result<Vec<RecordWire>, Memory> {
    let mut wires = Vec::new(alloc);
    for _ in 0..16 {
        wires.push(RecordWire::new(alloc))?;
    }
    Ok(wires)
}

// Sixteen wires, each of which adds 1 to the first word of message 6.
fn shift_wires(alloc: Global) -> Result<Vec<ShiftWire<StraightWire>>, Memory> {
    let mut wires = Vec::new(alloc);
    for _ in 0..16 {
        let mut shifts = Shifts::new(alloc);
        shifts.push(Shift {
            message: 6,
            word: 0,
            amount: 1,
        })?;
        wires.push(ShiftWire::over(alloc, StraightWire::new(), shifts))?;
    }
    Ok(wires)
}

// Steps come to the report or the refusal of the case.
fn comes_to<R: Abort + Threads + Sync>(rt: &R, alloc: Global, case: &Case) -> Result<(), Memory> {
    let (steps, expected) = *case;
    let mut wires = straight_wires(alloc)?;
    assert_eq!(rt; wires.len(), 16);
    match (play(rt, alloc, Some(steps), &mut wires), expected) {
        (Ok(played), Ok(expected)) => {
            let bytes = text(alloc, &played.report)?;
            assert!(rt; bytes.as_slice() == expected.as_bytes(), "{expected}");
            assert!(rt; !played.altered);
        }
        (Err(PlayFault::NotAllowed { index }), Err(expected)) => assert_eq!(rt; index, expected),
        _ => assert!(rt; false),
    }
    Ok(())
}

#[test]
fn reports_and_refusals(rt: HostRuntime) -> Result<(), Fail> {
    for case in &CASES {
        comes_to(&rt, rt.alloc(), case).ok().ok_or("memory")?;
    }
    Ok(())
}

#[test]
fn asks_in_order(rt: HostRuntime) -> Result<(), Fail> {
    let alloc = rt.alloc();
    let mut wires = straight_wires(alloc).ok().ok_or("memory")?;
    assert_eq!(rt; wires.len(), 16);
    let played = play(&rt, alloc, None, &mut wires).ok().ok_or("memory")?;
    let bytes = text(alloc, &played.report).ok().ok_or("memory")?;
    assert!(rt; bytes.as_slice() == b"ask 0 rows 2 count 1\n".as_slice());
    Ok(())
}

#[test]
fn answers_go_over_the_wire_of_their_actor(rt: HostRuntime) -> Result<(), Fail> {
    let alloc = rt.alloc();
    let mut wires = record_wires(alloc).ok().ok_or("memory")?;
    assert_eq!(rt; wires.len(), 16);
    play(&rt, alloc, Some(&CLOSED), &mut wires)
        .ok()
        .ok_or("memory")?;
    assert_eq!(rt; wires.len(), 16);
    for (actor, wire) in wires.iter().enumerate() {
        let messages = if actor == 1 { 15 } else { 0 };
        assert_eq!(rt; wire.messages().len(), messages);
    }
    Ok(())
}

#[test]
fn an_altered_answer(rt: HostRuntime) -> Result<(), Fail> {
    let alloc = rt.alloc();
    let mut wires = shift_wires(alloc).ok().ok_or("memory")?;
    assert_eq!(rt; wires.len(), 16);
    let played = play(&rt, alloc, Some(&CLOSED), &mut wires)
        .ok()
        .ok_or("memory")?;
    assert!(rt; played.altered);
    Ok(())
}
