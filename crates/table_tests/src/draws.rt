// A pass without room, and passes that meet and give room back.
ghost use Rattle.std.specs.Prelude.{◌≡◌};
ghost use Rattle.waldo_table.specs.Tables.{IsOf};

use crate::calls::{append, open, ready};
use ring128::Memory;
use std::alloc::Global;
use std::process::Abort;
use std::sync::Wait;
use waldo_table::{Full, Pass, Prepared, Table};

// A draw through a pass that has no room.
fn refused(table: &Table, pass: &mut Pass, prepared: Prepared) -> Full
    requires pass { IsOf table.now pass.old }
    requires none { pass.old.sight.room ≡ 0 }
    requires prepared { prepared.widths ≡ table.now.widths }
    ensures pass { IsOf table.now pass.new }
    ensures prepared { result.prepared.widths ≡ table.now.widths }
{
    match table.draw(pass, prepared) {
        Ok(_) => unreachable!(),
        Err(full) => full,
    }
}

// The two passes meet, and the other one is gathered: floors and rooms of both before, both after they met, and of the one at last.
fn meet_and_gather(table: &Table, pass: &mut Pass, mut other: Pass) -> [(u64, u64); 5]
    requires pass { IsOf table.now pass.old }
    requires other { IsOf table.now other }
    ensures { IsOf table.now pass.new }
{
    let first = (pass.floor(), pass.room());
    let second = (other.floor(), other.room());
    table.meet(pass, &mut other);
    let third = (pass.floor(), pass.room());
    let fourth = (other.floor(), other.room());
    table.gather(pass, other);
    [first, second, third, fourth, (pass.floor(), pass.room())]
}

// What comes of a table of two rows: the capacity that a draw without room names, the place of the row that came back, floors and rooms,
// the place of one row more, and whether there is place for a third.
type Drew = (u32, Option<u64>, [(u64, u64); 5], Option<u64>, bool);

// All draws go to another pass, which uses one and gives one back.
fn draw_and_gather<R: Abort + Wait>(
    rt: &R,
    alloc: Global,
    table: &Table,
    pass: &mut Pass,
) -> Result<Drew, Memory>
    requires pass { IsOf table.now pass.old }
    requires room { pass.old.sight.room ≡ 2 }
{
    let prepared = ready(rt, alloc, table, 3, 10)?;
    let mut other = table.split_pass(pass, 2);
    let Full { capacity, prepared } = refused(table, pass, prepared);
    let place = table.append(rt, &mut other, prepared).ok();
    let rooms = meet_and_gather(table, pass, other);
    let next = append(rt, alloc, table, pass, 1, 20).ok();
    let is_full = append(rt, alloc, table, pass, 2, 30).is_err();
    Ok((capacity, place, rooms, next, is_full))
}

// Draws and gathers on a table of its own.
fn draw_anew<R: Abort + Wait>(rt: &R, alloc: Global) -> Result<Drew, Memory> {
    let (table, mut pass) = open(alloc, 2)?;
    draw_and_gather(rt, alloc, &table, &mut pass)
}

#[test]
fn a_pass_without_room(rt: HostRuntime) -> Result<(), Memory> {
    let rooms = [(0, 0), (1, 1), (1, 0), (1, 1), (1, 1)];
    let wanted = (2, Some(0), rooms, Some(1), true);
    assert_eq!(rt; draw_anew(&rt, rt.alloc())?, wanted);
    Ok(())
}
