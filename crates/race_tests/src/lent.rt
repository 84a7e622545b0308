// A writer and a round of an asker, each through a pass of its own.
ghost use Rattle.std.specs.Prelude.{◌≡◌, ◌≤◌};
ghost use Rattle.waldo_table.specs.Tables.{IsCovered, IsOf};

use crate::calls::{WIDTHS, master, query, row};
use race_play::{OpenGate, Places, ask_round, write_rows};
use report_lines::{Line, Report, text};
use ring128::Memory;
use std::alloc::Global;
use std::process::Abort;
use std::sync::Wait;
use std::thread::Threads;
use table_schema::Aggregate;
use visit_trace::Trace;
use waldo_table::{Pass, Table};
use wire_line::StraightWire;

// Writes three rows as writer 0 of 1: their places, and the line of its agreement.
fn write<R: Abort + Wait>(
    rt: &R,
    alloc: Global,
    table: &Table,
    pass: &mut Pass,
) -> Result<(Places, Line), Memory>
    requires pass { IsOf table.now pass.old }
    requires room { 3 ≤ pass.old.sight.room }
    ensures { IsOf table.now pass.new }
{
    let widths = table.widths();
    let rows = [
        row(rt, widths, 3, 10),
        row(rt, widths, 1, 20),
        row(rt, widths, 3, 30),
    ];
    let written = write_rows(rt, alloc, table, pass, &rows, 0, 1, &master(), &OpenGate)?;
    Ok((written.places, written.line))
}

// Counts the rows with bucket 3 in round 0 of asker 0.
fn ask<R: Abort + Threads + Wait + Sync>(
    rt: &R,
    alloc: Global,
    table: &Table,
    pass: &mut Pass,
) -> Result<Line, Memory>
    requires pass { IsOf table.now pass.old }
    requires covered { IsCovered pass.old }
{
    let query = query(rt, table.widths(), Aggregate::Count);
    let mut wire = StraightWire::new();
    let mut trace = Trace::new(alloc);
    ask_round(
        rt,
        alloc,
        table,
        pass,
        &query,
        0,
        0,
        &master(),
        &mut wire,
        &mut trace,
        2,
        &OpenGate,
    )
}

// The places of the rows, and the text of the two lines.
type Printed = (Places, Vec<u8>);

// Writes through the first pass of a table for three rows, and asks through one that was split off without room.
fn write_and_ask<R: Abort + Threads + Wait + Sync>(
    rt: &R,
    alloc: Global,
) -> Result<Printed, Memory> {
    let Ok((table, mut pass)) = Table::new(alloc, WIDTHS, 3) else {
        return Err(Memory);
    };
    let mut other = table.split_pass(&mut pass, 0);
    let (places, back) = write(rt, alloc, &table, &mut pass)?;
    let answer = ask(rt, alloc, &table, &mut other)?;
    let mut report = Report::new(alloc);
    report.push(back)?;
    report.push(answer)?;
    Ok((places, text(alloc, &report)?))
}

// The asker's pass has seen nothing of the three rows before it asks; two of them have bucket 3.
#[test]
fn a_writer_and_an_asker(rt: HostRuntime) -> Result<(), Memory> {
    let (places, lines) = write_and_ask(&rt, rt.alloc())?;
    assert!(rt; places.as_slice() == [0, 1, 2].as_slice());
    assert!(rt; lines.as_slice() == b"back 0 rows 3\nask 0.0 rows 3 count 2\n".as_slice());
    Ok(())
}
