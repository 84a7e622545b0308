// Two writers and two askers at once, whose last answers are the same whatever the schedule.
ghost use Rattle.std.specs.Prelude.{◌≡◌, ◌≤◌, length};

use crate::calls::{WIDTHS, master, query, row};
use race_play::{Crew, OpenGate, Race, Ran, race};
use report_lines::{Line, text};
use ring128::Memory;
use std::alloc::Global;
use std::process::Abort;
use std::sync::Wait;
use std::thread::Threads;
use table_schema::Aggregate;
use visit_trace::Trace;
use wire_line::{RecordWire, Shift, ShiftWire, Shifts, StraightWire, Wire};

// Two rounds over six rows, of which those with bucket 3 have the values 1, 4 and 16.
pub fn run<R: Abort + Threads + Wait + Sync, W: Wire + Send>(
    rt: &R,
    alloc: Global,
    wires: &mut Vec<W>,
    trace: &mut Trace,
) -> Result<Ran, Memory>
    requires { 2 ≤ length wires.old.items }
    ensures { length wires.new.items ≡ length wires.old.items }
{
    let rows = [
        row(rt, &WIDTHS, 3, 1),
        row(rt, &WIDTHS, 1, 8),
        row(rt, &WIDTHS, 0, 2),
        row(rt, &WIDTHS, 3, 16),
        row(rt, &WIDTHS, 3, 4),
        row(rt, &WIDTHS, 2, 32),
    ];
    let queries = [
        query(rt, &WIDTHS, Aggregate::Count),
        query(rt, &WIDTHS, Aggregate::Sum),
    ];
    assert!(rt; WIDTHS.fits(6));
    let crew = Crew {
        writers: 2,
        askers: 2,
        rounds: 2,
        workers: 2,
    };
    let setting = Race {
        widths: WIDTHS,
        rows: &rows,
        queries: &queries,
        master: master(),
        crew,
    };
    race(rt, alloc, &setting, &OpenGate, wires, trace)
}

// The rows at places 0, 1 and so on, each as a bit; 0 where a line is none of the place that it stands at.
fn rows_of(lines: &[Line]) -> u64 {
    let mut rows = 0;
    for (index, line) in lines.iter().enumerate() {
        match line {
            Line::Place { place, row } if *place == index as u64 && *row < 6 => rows |= 1 << *row,
            _ => return 0,
        }
    }
    rows
}

// The wires of two askers, and one that belongs to none.
fn record_wires(alloc: Global) -> Result<Vec<RecordWire>, Memory> {
    let mut wires = Vec::new(alloc);
    for _ in 0..3 {
        wires.push(RecordWire::new(alloc))?;
    }
    Ok(wires)
}

// The number of lines, the rows that have places, each as a bit, and whether the text begins and ends so.
type Outcome = (usize, u64, bool, bool);

fn outcome_of(alloc: Global, ran: &Ran, begins: &[u8], ends: &[u8]) -> Result<Outcome, Memory> {
    let lines = ran.report.lines();
    let rows = if lines.len() < 7 {
        0
    } else {
        rows_of(&lines[1..7])
    };
    let text = text(alloc, &ran.report)?;
    Ok((
        lines.len(),
        rows,
        text.starts_with(begins),
        text.ends_with(ends),
    ))
}

// A line for the number of rows, six for places, two of writers, four of rounds and two at the end. Each query has 15 messages: asker
// 0 asks twice and at the end twice, asker 1 twice.
#[test]
fn a_race(rt: HostRuntime) -> Result<(), Memory> {
    let alloc = rt.alloc();
    for _ in 0..10 {
        let mut wires = record_wires(alloc)?;
        assert_eq!(rt; wires.len(), 3);
        let mut trace = Trace::new(alloc);
        let ran = run(&rt, alloc, &mut wires, &mut trace)?;
        let carried = [
            wires[0].messages().len(),
            wires[1].messages().len(),
            wires[2].messages().len(),
        ];
        let ends = b"end 0 rows 6 count 3\nend 1 rows 6 sum 21\n";
        let outcome = outcome_of(alloc, &ran, b"rows 6\nplace 0 row ", ends)?;
        assert_eq!(rt;
            (outcome, ran.altered),
            ((15, 0b11_1111, true, true), false)
        );
        assert_eq!(rt; carried, [60, 30, 0]);
    }
    Ok(())
}

// The wires of two askers. The first one adds 1 to the first word of message 36: behind two rounds of 15 messages each, that is the
// message 6 of query 0 at the end, with which a server opens its share of the total.
fn shift_wires(alloc: Global) -> Result<Vec<ShiftWire<StraightWire>>, Memory> {
    let mut shifts = Shifts::new(alloc);
    shifts.push(Shift {
        message: 36,
        word: 0,
        amount: 1,
    })?;
    let mut wires = Vec::new(alloc);
    wires.push(ShiftWire::over(alloc, StraightWire::new(), shifts))?;
    let none = Shifts::new(alloc);
    wires.push(ShiftWire::over(alloc, StraightWire::new(), none))?;
    Ok(wires)
}

// The total of query 0 is opened as 4 in place of 3, and its product with the key as it is: 3 times 3877092639069831101, a key that
// another program drew from the seeds.
#[test]
fn a_race_with_an_altered_message(rt: HostRuntime) -> Result<(), Memory> {
    let alloc = rt.alloc();
    let mut wires = shift_wires(alloc)?;
    assert_eq!(rt; wires.len(), 2);
    let mut trace = Trace::new(alloc);
    let ran = run(&rt, alloc, &mut wires, &mut trace)?;
    let ends = b"end 0 rows 6 altered total 4 weighted 11631277917209493303\nend 1 rows 6 sum 21\n";
    let outcome = outcome_of(alloc, &ran, b"rows 6\nplace 0 row ", ends)?;
    assert_eq!(rt; (outcome, ran.altered), ((15, 0b11_1111, true, true), true));
    Ok(())
}
