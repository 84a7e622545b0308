// A server that lags, what is refused for it, and what is answered once it has caught up.
ghost use Rattle.std.specs.Prelude.{◌≡◌, ◌≤◌, Some, slice_get, true};
ghost use Rattle.waldo_table.specs.Pieces.{is_done};
ghost use Rattle.waldo_table.specs.Tables.{IsOf};

use crate::calls::{ask, open, ready};
use ring128::Memory;
use std::alloc::Global;
use std::process::Abort;
use std::sync::Wait;
use std::thread::Threads;
use table_schema::Aggregate;
use visit_trace::Trace;
use waldo_table::{AgreeFault, Answered, AskFault, Drawn, Pass, Prepared, Table, finish};
use wire_line::RecordWire;

// What a pass learns: by an agreement, by an ask, and by a look at each server. Of an ask, the number of messages, and of the lengths
// that are noted at server 2.
type Learned = (
    Result<u64, AgreeFault>,
    Result<Answered, AskFault>,
    [usize; 2],
    [u64; 3],
);

// Agrees, and answers the number of rows.
fn agree<R: Wait>(rt: &R, alloc: Global, table: &Table, pass: &mut Pass) -> Result<u64, AgreeFault>
    requires { IsOf table.now pass.old }
    ensures { IsOf table.now pass.new }
{
    match table.agree(rt, alloc, pass) {
        Ok(agreed) => Ok(agreed.rows()),
        Err(fault) => Err(fault),
    }
}

// Agrees, asks and looks.
fn tell<R: Abort + Threads + Wait + Sync>(
    rt: &R,
    alloc: Global,
    table: &Table,
    pass: &mut Pass,
) -> Learned
    requires { IsOf table.now pass.old }
    ensures { IsOf table.now pass.new }
{
    let rows = agree(rt, alloc, table, pass);
    let mut wire = RecordWire::new(alloc);
    let mut trace = Trace::new(alloc);
    let asked = ask(
        rt,
        alloc,
        table,
        pass,
        Aggregate::Count,
        &mut wire,
        &mut trace,
    );
    let noted = [wire.messages().len(), trace.lengths(2).len()];
    let looks = [
        table.look(rt, pass, 0),
        table.look(rt, pass, 1),
        table.look(rt, pass, 2),
    ];
    (rows, asked, noted, looks)
}

// Where a draw was placed before its last placing, the place of the other pass's row, and what was learned.
type Lag = ([bool; 3], Option<u64>, [Learned; 3]);

// Places the draw at servers 0 and 1, and lets a pass learn that had learned nothing before. Then appends a row through the other pass,
// and lets that one learn. Then places the draw at server 2, and lets the other pass learn again.
fn place_late<R: Abort + Threads + Wait + Sync>(
    rt: &R,
    alloc: Global,
    table: &Table,
    pass: &mut Pass,
    drawn: &mut Drawn,
    other: &mut Pass,
    prepared: Prepared,
) -> Lag
    requires pass { IsOf table.now pass.old }
    requires table { drawn.old.table ≡ table.now }
    requires entry { slice_get pass.old.sight.order drawn.old.place ≡ Some drawn.old.entry }
    requires other { IsOf table.now other.old }
    requires prepared { prepared.widths ≡ table.now.widths }
    ensures pass { IsOf table.now pass.new }
    ensures other { IsOf table.now other.new }
    ensures done { is_done drawn.new ≡ true }
{
    table.place(rt, pass, drawn, 0);
    table.place(rt, pass, drawn, 1);
    let early = tell(rt, alloc, table, &mut table.split_pass(other, 0));
    let place = table.append(rt, other, prepared).ok();
    let before = tell(rt, alloc, table, other);
    let placed = [drawn.placed(0), drawn.placed(1), drawn.placed(2)];
    table.place(rt, pass, drawn, 2);
    let after = tell(rt, alloc, table, other);
    (placed, place, [early, before, after])
}

// The place of the draw, its pass's floor before and after, and the lag.
type Lagged = (u64, [u64; 2], Lag);

fn draw_and_lag<R: Abort + Threads + Wait + Sync>(
    rt: &R,
    alloc: Global,
    table: &Table,
    pass: &mut Pass,
) -> Result<Option<Lagged>, Memory>
    requires pass { IsOf table.now pass.old }
    requires room { 1 ≤ pass.old.sight.room }
{
    let first = ready(rt, alloc, table, 3, 10)?;
    let second = ready(rt, alloc, table, 1, 20)?;
    let mut other = table.split_pass(pass, 1);
    let Ok(mut drawn) = table.draw(pass, first) else {
        return Ok(None);
    };
    let floor = pass.floor();
    let lag = place_late(rt, alloc, table, pass, &mut drawn, &mut other, second);
    Ok(Some((finish(drawn), [floor, pass.floor()], lag)))
}

// Draws and lags on a table of its own.
fn lag_anew<R: Abort + Threads + Wait + Sync>(
    rt: &R,
    alloc: Global,
) -> Result<Option<Lagged>, Memory> {
    let (table, mut pass) = open(alloc, 2)?;
    draw_and_lag(rt, alloc, &table, &mut pass)
}

// A pass with floor 0 agrees on the least of the prefixes 1, 1 and 0. The other pass's own row, at place 1, is at all servers, so its
// floor is 2: server 2 lacks place 0, its prefix 0 is below the floor, and no message is carried. Once the piece is there, both rows
// are agreed on, and one of them has bucket 3.
#[test]
fn a_server_that_lags(rt: HostRuntime) -> Result<(), Memory> {
    let again = AgreeFault::Again {
        server: 2,
        had: 0,
        floor: 2,
    };
    let ask_again = AskFault::Again {
        server: 2,
        had: 0,
        floor: 2,
    };
    let learned = [
        (
            Ok(0),
            Ok(Answered { rows: 0, total: 0 }),
            [15, 7],
            [1, 1, 0],
        ),
        (Err(again), Err(ask_again), [0, 0], [2, 2, 0]),
        (
            Ok(2),
            Ok(Answered { rows: 2, total: 1 }),
            [15, 7],
            [2, 2, 2],
        ),
    ];
    let lag = ([true, true, false], Some(1), learned);
    assert_eq!(rt; lag_anew(&rt, rt.alloc())?, Some((0, [0, 1], lag)));
    Ok(())
}

// The place of the other pass's row, and what that pass learned before the draw was placed and after.
type Rested = (Option<u64>, [Learned; 2]);

// A draw rests while the other pass appends a row and learns; then the draw is placed at all servers, and it learns again.
fn place_at_last<R: Abort + Threads + Wait + Sync>(
    rt: &R,
    alloc: Global,
    table: &Table,
    pass: &mut Pass,
    drawn: &mut Drawn,
    other: &mut Pass,
    prepared: Prepared,
) -> Rested
    requires pass { IsOf table.now pass.old }
    requires table { drawn.old.table ≡ table.now }
    requires entry { slice_get pass.old.sight.order drawn.old.place ≡ Some drawn.old.entry }
    requires other { IsOf table.now other.old }
    requires prepared { prepared.widths ≡ table.now.widths }
    ensures pass { IsOf table.now pass.new }
    ensures other { IsOf table.now other.new }
    ensures done { is_done drawn.new ≡ true }
{
    let place = table.append(rt, other, prepared).ok();
    let before = tell(rt, alloc, table, other);
    table.place(rt, pass, drawn, 0);
    table.place(rt, pass, drawn, 1);
    table.place(rt, pass, drawn, 2);
    let after = tell(rt, alloc, table, other);
    (place, [before, after])
}

fn draw_and_rest<R: Abort + Threads + Wait + Sync>(
    rt: &R,
    alloc: Global,
    table: &Table,
    pass: &mut Pass,
) -> Result<Option<(u64, Rested)>, Memory>
    requires pass { IsOf table.now pass.old }
    requires room { 1 ≤ pass.old.sight.room }
{
    let first = ready(rt, alloc, table, 3, 10)?;
    let second = ready(rt, alloc, table, 3, 20)?;
    let mut other = table.split_pass(pass, 1);
    let Ok(mut drawn) = table.draw(pass, first) else {
        return Ok(None);
    };
    let rested = place_at_last(rt, alloc, table, pass, &mut drawn, &mut other, second);
    Ok(Some((finish(drawn), rested)))
}

// The same on a table of its own.
fn rest_anew<R: Abort + Threads + Wait + Sync>(
    rt: &R,
    alloc: Global,
) -> Result<Option<(u64, Rested)>, Memory> {
    let (table, mut pass) = open(alloc, 2)?;
    draw_and_rest(rt, alloc, &table, &mut pass)
}

// No server has place 0, so the first one already lacks it, and the looks find no first row anywhere. Once the draw is placed, both
// rows are agreed on, and both have bucket 3.
#[test]
fn a_draw_that_rests(rt: HostRuntime) -> Result<(), Memory> {
    let again = AgreeFault::Again {
        server: 0,
        had: 0,
        floor: 2,
    };
    let ask_again = AskFault::Again {
        server: 0,
        had: 0,
        floor: 2,
    };
    let learned = [
        (Err(again), Err(ask_again), [0, 0], [0, 0, 0]),
        (
            Ok(2),
            Ok(Answered { rows: 2, total: 2 }),
            [15, 7],
            [2, 2, 2],
        ),
    ];
    assert_eq!(rt; rest_anew(&rt, rt.alloc())?, Some((0, (Some(1), learned))));
    Ok(())
}
