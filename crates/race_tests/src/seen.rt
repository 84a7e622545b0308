// What the servers see of a race: it follows from the numbers of rows that its report says.
ghost use Rattle.std.specs.Prelude.{◌≤◌};

use crate::calls::WIDTHS;
use crate::races::run;
use report_lines::Line;
use ring128::Memory;
use std::alloc::Global;
use std::process::Abort;
use table_schema::{Aggregate, Kind, Part, Shape};
use visit_trace::{Sizes, Trace, expected, same};
use wire_line::StraightWire;

const FIRST: Part = Part {
    column: 0,
    kind: Kind::Point,
};

// What they see of a query with one predicate over this many rows.
fn seen(alloc: Global, rows: u64, aggregate: Aggregate) -> Result<Trace, Memory>
    requires { rows ≤ 65536 }
{
    let sizes = Sizes {
        rows,
        widths: WIDTHS,
        shape: Shape {
            aggregate,
            count: 1,
            parts: [FIRST, FIRST, FIRST, FIRST],
        },
    };
    expected(alloc, &sizes)
}

// What they see of the answers among these lines, one after another.
fn seen_of<R: Abort>(rt: &R, alloc: Global, lines: &[Line]) -> Result<Trace, Memory> {
    let mut trace = Trace::new(alloc);
    for line in lines {
        if let Line::Answer {
            rows,
            aggregate,
            ..
        } = line
        {
            assert!(rt; *rows <= 65_536);
            trace.note_trace(&seen(alloc, *rows, *aggregate)?)?;
        }
    }
    Ok(trace)
}

// Six answers, each over as many rows as its line says, whatever the schedule was.
#[test]
fn a_race_is_seen_as_it_is_said(rt: HostRuntime) -> Result<(), Memory> {
    let alloc = rt.alloc();
    for _ in 0..10 {
        let mut wires = Vec::new(alloc);
        wires.push(StraightWire::new())?;
        wires.push(StraightWire::new())?;
        assert_eq!(rt; wires.len(), 2);
        let mut trace = Trace::new(alloc);
        let ran = run(&rt, alloc, &mut wires, &mut trace)?;
        let wanted = seen_of(&rt, alloc, ran.report.lines())?;
        assert_eq!(rt; wanted.lengths(0).len(), 6 * 7);
        assert!(rt; same(&trace, &wanted));
    }
    Ok(())
}
