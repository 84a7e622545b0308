//! A writer.
ghost use Rattle.std.specs.Prelude.{◌≡◌, ◌<◌, ◌≤◌, ◌+◌, ◌%◌, ℕ, List, All, IfOk, OnErr, OnOk, length, slice_get, Some};
ghost use Rattle.prg_chacha.specs.Prg.{derive_of};
ghost use Rattle.table_schema.specs.Widths.{Holds};
ghost use Rattle.ticket_place.specs.Sights.{IsSound};
ghost use Rattle.waldo_table.specs.Tables.{Appends, Grows, IsOf, PassView};
ghost use Rattle.race_play.specs.Turns.{turns};
ghost use Rattle.race_play.specs.Writes.{IsBack, Wrote, WroteFirst, Wrote_back};

use crate::gate::{Gate, Point};
use crate::lines::line_of_back;
use crate::places::Places;
use prg_chacha::{Seed, derive};
use report_lines::Line;
use ring128::Memory;
use std::alloc::Global;
use std::sync::Wait;
use table_schema::Row;
use waldo_table::{Pass, Table, finish, prepare};

/// The places of a writer's rows in the table's order, from 0, in the order in which they were written; and the line of the agreement
/// after them, `Back` or `BackAgain`.
#[derive(Drop)]
pub struct Written {
    pub places: Places,
    pub line: Line,
}

// Appends one row, and passes the gate between its draw and its placings.
fn write_row<R: Wait, G: Gate>(
    rt: &R,
    alloc: Global,
    table: &Table,
    pass: &mut Pass,
    row: &Row,
    number: u64,
    writer: u8,
    master: &Seed,
    gate: &G,
) -> Result<u64, Memory>
    requires pass { IsOf table.now pass.old }
    requires row { Holds table.now.widths row.now }
    requires number { number < 65536 }
    requires room { 0 < pass.old.sight.room }
    ensures pass { IsOf table.now pass.new }
    ensures grows { Grows pass.old pass.new }
    ensures appends { IfOk result (λ place. Appends (row.now, derive_of master.now 1 writer number) pass.old place pass.new) }
    ensures stays { OnErr result (pass.new ≡ pass.old) }
{
    let seed = derive(master, 1, u16::from(writer), number);
    let prepared = prepare(alloc, table.widths(), row, &seed)?;
    let Ok(mut drawn) = table.draw(pass, prepared) else {
        unreachable!()
    };
    gate.pass(Point::AfterDraw {
        writer,
        row: number,
    });
    table.place(rt, pass, &mut drawn, 0);
    table.place(rt, pass, &mut drawn, 1);
    table.place(rt, pass, &mut drawn, 2);
    Ok(finish(drawn))
}

// Appends row i, if it is the writer's turn.
fn write_turn<R: Wait, G: Gate>(
    rt: &R,
    alloc: Global,
    table: &Table,
    pass: &mut Pass,
    rows: &[Row],
    i: usize,
    writer: u8,
    writers: u8,
    master: &Seed,
    gate: &G,
    places: &mut Vec<u64>,
) -> Result<(), Memory>
    requires pass { IsOf table.now pass.old }
    requires held { All (Holds table.now.widths) rows.now }
    requires few { length rows.now ≤ 65536 }
    requires row { i < length rows.now }
    requires writer { writer < writers }
    requires room { i % writers ≡ writer → 0 < pass.old.sight.room }
    ensures pass { IsOf table.now pass.new }
    ensures grows { Grows pass.old pass.new }
    ensures wrote { OnOk result ((p : PassView) → Grows p pass.old
        → Wrote rows.now master.now writer (turns writer writers i) p places.old.items pass.old
        → Wrote rows.now master.now writer (turns writer writers (i + 1)) p places.new.items pass.new) }
    ensures broken { OnErr result ((p : PassView) → Grows p pass.old
        → Wrote rows.now master.now writer (turns writer writers i) p places.old.items pass.old
        → (j : ℕ) × (j ≤ i + 1) × (ps : List ℕ) × Wrote rows.now master.now writer (turns writer writers j) p ps pass.new) }
{
    if i % writers as usize != writer as usize {
        return Ok(());
    }
    let place = write_row(
        rt, alloc, table, pass, &rows[i], i as u64, writer, master, gate,
    )?;
    places.push(place)?;
    Ok(())
}

// Appends a writer's rows, in order.
fn write_all<R: Wait, G: Gate>(
    rt: &R,
    alloc: Global,
    table: &Table,
    pass: &mut Pass,
    rows: &[Row],
    writer: u8,
    writers: u8,
    master: &Seed,
    gate: &G,
) -> Result<Vec<u64>, Memory>
    requires pass { IsOf table.now pass.old }
    requires held { All (Holds table.now.widths) rows.now }
    requires few { length rows.now ≤ 65536 }
    requires writer { writer < writers }
    requires room { length (turns writer writers (length rows.now)) ≤ pass.old.sight.room }
    ensures pass { IsOf table.now pass.new }
    ensures grows { Grows pass.old pass.new }
    ensures wrote { IfOk result (λ places. Wrote rows.now master.now writer (turns writer writers (length rows.now))
        pass.old places.items pass.new) }
    ensures broken { OnErr result (WroteFirst rows.now master.now writer (turns writer writers (length rows.now)) pass.old pass.new) }
{
    let mut places = Vec::new(alloc);
    for i in 0..rows.len() {
        write_turn(
            rt,
            alloc,
            table,
            pass,
            rows,
            i,
            writer,
            writers,
            master,
            gate,
            &mut places,
        )?;
    }
    Ok(places)
}

// Agrees once, and passes the gate.
fn agree_back<R: Wait, G: Gate>(
    rt: &R,
    alloc: Global,
    table: &Table,
    pass: &mut Pass,
    writer: u8,
    gate: &G,
) -> Result<Line, Memory>
    requires { IsOf table.now pass.old }
    ensures pass { IsOf table.now pass.new }
    ensures grows { Grows pass.old pass.new }
    ensures own { pass.new.sight.own ≡ pass.old.sight.own }
    ensures room { pass.new.sight.room ≡ pass.old.sight.room }
    ensures back { IfOk result (IsBack writer pass.old pass.new) }
    ensures floor { OnErr result (pass.new.floor ≡ pass.old.floor) }
{
    let line = line_of_back(writer, table.agree(rt, alloc, pass))?;
    gate.pass(Point::AfterBack { writer });
    Ok(line)
}

/// Appends a writer's rows, those i of all with `i mod writers = writer`, in order, and then agrees once. `rows` are all input rows, and
/// the pass has room for the writer's own. A row is split by the seed of its writer and its number. The gate is passed after each draw
/// and after the agreement.
///
/// The line is `Back` with the number of rows that were agreed on, or `BackAgain` with a server that lacked a row below the pass's
/// floor, which is one another writer has drawn and not yet placed there. The only error is out of memory; the first of
/// the writer's rows are appended then, perhaps all of them, and stay in the table.
pub fn write_rows<R: Wait, G: Gate>(
    rt: &R,
    alloc: Global,
    table: &Table,
    pass: &mut Pass,
    rows: &[Row],
    writer: u8,
    writers: u8,
    master: &Seed,
    gate: &G,
) -> Result<Written, Memory>
    requires pass { IsOf table.now pass.old }
    requires held { All (Holds table.now.widths) rows.now }
    requires few { length rows.now ≤ 65536 }
    requires writer { writer < writers }
    requires room { length (turns writer writers (length rows.now)) ≤ pass.old.sight.room }
    ensures pass { IsOf table.now pass.new }
    ensures grows { Grows pass.old pass.new }
    ensures wrote { IfOk result (λ w. Wrote_back rows.now master.now writer (turns writer writers (length rows.now))
        pass.old w.places w.line pass.new) }
    ensures broken { OnErr result (WroteFirst rows.now master.now writer (turns writer writers (length rows.now)) pass.old pass.new) }
{
    let places = write_all(rt, alloc, table, pass, rows, writer, writers, master, gate)?;
    let line = agree_back(rt, alloc, table, pass, writer, gate)?;
    Ok(Written {
        places: Places::from_vec(places),
        line,
    })
}
