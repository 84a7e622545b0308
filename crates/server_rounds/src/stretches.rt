//! The words of the three servers' bits, in stretches of rows: a thread makes those of its rows for all three.
ghost use denote.Param.Send.{IsSend, IsSync};
ghost use Rattle.std.specs.Prelude.{◌≡◌, ◌<◌, ◌≤◌, ◌+◌, length, IfOk, OnOk, MatchOption, ⊤};
ghost use Rattle.std.specs.Result.{IsOk};
ghost use Rattle.query_plan.specs.KeyMessages.{view_from};
ghost use Rattle.transcript.specs.Setup.{count_of};
ghost use Rattle.server_rounds.specs.AtOnce.{CanScan};
ghost use Rattle.server_rounds.specs.Plans.{HasTables, HaveTables};
ghost use Rattle.server_rounds.specs.Stretches.{AreAllTables, AreCut, AreTables, BothFill, CanFill, CanScanTo, Fills, GivesBits};
ghost use Rattle.server_rounds.specs.Stretches.{WritesTo, rows_in, scans_of};

use crate::at_once::all_three;
use crate::carry::Trio;
use crate::keys::ThreeKeys;
use crate::part::seeds_of;
use crate::plan::Plan;
use crate::shelves::{count_rows, rows_together};
use crate::zeros::with_three_zeros;
use query_plan::ServerKeys;
use ring128::{Memory, Party, Words};
use scan_chunks::{Shelf, Tables, scan_many};
use std::alloc::Global;
use std::thread::{Threads, join_mut};
use zero_share::add_parts_of_three;

/// The tables of a predicate at each of the three servers.
#[derive(Drop)]
pub(crate) struct ThreeTables {
    pub zero: Tables,
    pub one: Tables,
    pub two: Tables,
}

// Scans shelves of a server, and writes the numbers over a list with a place for each row.
fn scan_to<R: Threads + Sync, S: Shelf + Send>(
    rt: &R,
    alloc: Global,
    column: u8,
    tables: &Tables,
    shelves: &mut [S],
    to: &mut [u128],
) -> Result<(), Memory>
    requires { CanScanTo S.held column tables.now shelves.old to.old }
    ensures { WritesTo S.held S.visited column (scans_of S.held column tables.now shelves.old)
        shelves.old shelves.new (λ _. to.new) result }
{
    let numbers = scan_many(rt, alloc, shelves, column, tables)?;
    to.copy_from_slice(numbers.as_slice());
    Ok(())
}

// Whether both had memory.
fn both(front: Result<(), Memory>, back: Result<(), Memory>) -> Result<(), Memory>
    ensures { OnOk result (IsOk front × IsOk back) }
{
    front?;
    back
}

// Whether all three had memory.
fn all(
    zero: Result<(), Memory>,
    one: Result<(), Memory>,
    two: Result<(), Memory>,
) -> Result<(), Memory>
    ensures zero { OnOk result (IsOk zero) }
    ensures one { OnOk result (IsOk one) }
    ensures two { OnOk result (IsOk two) }
{
    zero?;
    one?;
    two
}

// The words of a stretch of rows, at one server after another.
fn fill_stretch<R: Threads + Sync, S: Shelf + Send>(
    rt: &R,
    alloc: Global,
    column: u8,
    tables: &ThreeTables,
    keys: &ThreeKeys,
    start: u64,
    zero: &mut [S],
    one: &mut [S],
    two: &mut [S],
    at_zero: &mut [u128],
    at_one: &mut [u128],
    at_two: &mut [u128],
) -> Result<(), Memory>
    requires { CanFill S.held column tables.now start zero.old one.old two.old at_zero.old at_one.old at_two.old }
    ensures { Fills S.held S.visited column tables.now keys.now start zero.old zero.new one.old one.new two.old two.new
        (λ _. at_zero.new) (λ _. at_one.new) (λ _. at_two.new) result }
{
    let first = scan_to(rt, alloc, column, &tables.zero, zero, at_zero);
    let second = scan_to(rt, alloc, column, &tables.one, one, at_one);
    let third = scan_to(rt, alloc, column, &tables.two, two, at_two);
    all(first, second, third)?;
    let (own, next, last) = (
        seeds_of(&keys.zero),
        seeds_of(&keys.one),
        seeds_of(&keys.two),
    );
    add_parts_of_three(&own, &next, &last, start, at_zero, at_one, at_two);
    Ok(())
}

// How many rows the first `near` shelves of each server have, where each has so many shelves and they are equally many rows.
fn cut_at<S: Shelf>(near: usize, zero: &[S], one: &[S], two: &[S]) -> Option<usize>
    requires near { near < length zero.now }
    requires zero { rows_in S.held zero.now ≤ 65536 }
    requires one { rows_in S.held one.now ≤ 65536 }
    requires two { rows_in S.held two.now ≤ 65536 }
    ensures { MatchOption result ⊤ (λ cut. AreCut S.held near cut zero.now one.now two.now) }
{
    if near == 0 || one.len() < near || two.len() < near {
        return None;
    }
    let cut = count_rows(&zero[..near]);
    if count_rows(&one[..near]) != cut || count_rows(&two[..near]) != cut {
        return None;
    }
    Some(cut as usize)
}

// The shelves are halved at each step and one half goes to a new thread, down to a shelf of each server a thread.
#[cycle(stretches)]
fn fill_stretches<R: Threads + Sync, S: Shelf + Send>(
    rt: &R,
    alloc: Global,
    column: u8,
    tables: &ThreeTables,
    keys: &ThreeKeys,
    start: u64,
    zero: &mut [S],
    one: &mut [S],
    two: &mut [S],
    at_zero: &mut [u128],
    at_one: &mut [u128],
    at_two: &mut [u128],
) -> Result<(), Memory>
    requires rows { CanFill S.held column tables.now start zero.old one.old two.old at_zero.old at_one.old at_two.old }
    ensures { Fills S.held S.visited column tables.now keys.now start zero.old zero.new one.old one.new two.old two.new
        (λ _. at_zero.new) (λ _. at_one.new) (λ _. at_two.new) result }
{
    if zero.len() < 2 {
        return fill_stretch(
            rt, alloc, column, tables, keys, start, zero, one, two, at_zero, at_one, at_two,
        );
    }
    let near = zero.len() / 2;
    match cut_at(near, zero, one, two) {
        None => fill_stretch(
            rt, alloc, column, tables, keys, start, zero, one, two, at_zero, at_one, at_two,
        ),
        Some(cut) => {
            let (zero, zero_rest) = zero.split_at_mut(near);
            let (one, one_rest) = one.split_at_mut(near);
            let (two, two_rest) = two.split_at_mut(near);
            let (at_zero, at_zero_rest) = at_zero.split_at_mut(cut);
            let (at_one, at_one_rest) = at_one.split_at_mut(cut);
            let (at_two, at_two_rest) = at_two.split_at_mut(cut);
            fill_both(
                rt,
                alloc,
                column,
                tables,
                keys,
                start,
                zero,
                one,
                two,
                at_zero,
                at_one,
                at_two,
                zero_rest,
                one_rest,
                two_rest,
                at_zero_rest,
                at_one_rest,
                at_two_rest,
            )
        }
    }
}

// A separate function from `fill_stretches`, so that what the closures require is what this function is given.
#[cycle(stretches)]
fn fill_both<R: Threads + Sync, S: Shelf + Send>(
    rt: &R,
    alloc: Global,
    column: u8,
    tables: &ThreeTables,
    keys: &ThreeKeys,
    start: u64,
    zero: &mut [S],
    one: &mut [S],
    two: &mut [S],
    at_zero: &mut [u128],
    at_one: &mut [u128],
    at_two: &mut [u128],
    zero_rest: &mut [S],
    one_rest: &mut [S],
    two_rest: &mut [S],
    at_zero_rest: &mut [u128],
    at_one_rest: &mut [u128],
    at_two_rest: &mut [u128],
) -> Result<(), Memory>
    requires some { 0 < length zero.old }
    requires more { 0 < length zero_rest.old }
    requires front { CanFill S.held column tables.now start zero.old one.old two.old at_zero.old at_one.old at_two.old }
    requires back { CanFill S.held column tables.now (start + length at_zero.old) zero_rest.old one_rest.old two_rest.old
        at_zero_rest.old at_one_rest.old at_two_rest.old }
    ensures { BothFill S.held S.visited column tables.now keys.now start
        zero.old zero.new one.old one.new two.old two.new at_zero.new at_one.new at_two.new
        zero_rest.old zero_rest.new one_rest.old one_rest.new two_rest.old two_rest.new
        at_zero_rest.new at_one_rest.new at_two_rest.new result }
{
    let later = start + at_zero.len() as u64;
    let mut first = || -> Result<(), Memory>
        requires { IsSync R.row × IsSend S.row
            × CanFill S.held column tables.now start zero.now one.now two.now at_zero.now at_one.now at_two.now }
        ensures { Fills S.held S.visited column tables.entry.now keys.entry.now start
            zero.entry.now zero.exit.now one.entry.now one.exit.now two.entry.now two.exit.now
            (λ _. at_zero.exit.now) (λ _. at_one.exit.now) (λ _. at_two.exit.now) result }
    {
        fill_stretches(
            rt, alloc, column, tables, keys, start, zero, one, two, at_zero, at_one, at_two,
        )
    };
    let mut second = || -> Result<(), Memory>
        requires { IsSync R.row × IsSend S.row
            × CanFill S.held column tables.now later zero_rest.now one_rest.now two_rest.now
            at_zero_rest.now at_one_rest.now at_two_rest.now }
        ensures { Fills S.held S.visited column tables.entry.now keys.entry.now later
            zero_rest.entry.now zero_rest.exit.now one_rest.entry.now one_rest.exit.now two_rest.entry.now two_rest.exit.now
            (λ _. at_zero_rest.exit.now) (λ _. at_one_rest.exit.now) (λ _. at_two_rest.exit.now) result }
    {
        fill_stretches(
            rt,
            alloc,
            column,
            tables,
            keys,
            later,
            zero_rest,
            one_rest,
            two_rest,
            at_zero_rest,
            at_one_rest,
            at_two_rest,
        )
    };
    let (front, back) = join_mut(rt, &mut first, &mut second);
    both(front, back)
}

// The tables of predicate j at a server.
fn tables_of(
    alloc: Global,
    plan: &Plan,
    keys: &ServerKeys,
    run: u8,
    j: u8,
) -> Result<Tables, Memory>
    requires run { run < 2 }
    requires j { j < count_of plan.now }
    requires keys { HasTables plan.now keys.now }
    ensures { IfOk result (AreTables (view_from keys.now) run j) }
{
    let zero = keys.table(alloc, run, j, Party::Zero)?;
    let one = keys.table(alloc, run, j, Party::One)?;
    Ok(Tables { zero, one })
}

// The tables of predicate j.
fn three_tables(
    alloc: Global,
    plan: &Plan,
    keys: &ThreeKeys,
    run: u8,
    j: u8,
) -> Result<ThreeTables, Memory>
    requires run { run < 2 }
    requires j { j < count_of plan.now }
    requires keys { HaveTables plan.now keys.now }
    ensures { IfOk result (AreAllTables keys.now run j) }
{
    Ok(ThreeTables {
        zero: tables_of(alloc, plan, &keys.zero, run, j)?,
        one: tables_of(alloc, plan, &keys.one, run, j)?,
        two: tables_of(alloc, plan, &keys.two, run, j)?,
    })
}

// The words of all rows in one thread, at one server after another. What was scanned is kept, so that no list is filled before.
fn scan_all<R: Threads + Sync, S: Shelf + Send>(
    rt: &R,
    alloc: Global,
    column: u8,
    tables: &ThreeTables,
    keys: &ThreeKeys,
    start: u64,
    zero: &mut [S],
    one: &mut [S],
    two: &mut [S],
) -> Result<Trio, Memory>
    requires rows { CanFill S.held column tables.now start zero.old one.old two.old
        (scans_of S.held column tables.now.zero zero.old) (scans_of S.held column tables.now.one one.old)
        (scans_of S.held column tables.now.two two.old) }
    ensures { Fills S.held S.visited column tables.now keys.now start zero.old zero.new one.old one.new two.old two.new
        (λ t. t.zero) (λ t. t.one) (λ t. t.two) result }
{
    let first = scan_many(rt, alloc, zero, column, &tables.zero);
    let second = scan_many(rt, alloc, one, column, &tables.one);
    let third = scan_many(rt, alloc, two, column, &tables.two);
    let numbers = all_three(first, (second, third))?;
    Ok(with_three_zeros(rt, keys, start, 1, numbers))
}

// A list for each server with a place for each row.
fn room(alloc: Global, rows: usize) -> Result<Trio, Memory>
    ensures zero { IfOk result (λ t. length t.zero ≡ rows) }
    ensures one { IfOk result (λ t. length t.one ≡ rows) }
    ensures two { IfOk result (λ t. length t.two ≡ rows) }
{
    Ok(Trio {
        zero: Words::from_vec(vec![in alloc; 0; rows]?),
        one: Words::from_vec(vec![in alloc; 0; rows]?),
        two: Words::from_vec(vec![in alloc; 0; rows]?),
    })
}

// The same as `fill_stretches`, over lists that are given back.
fn fill_room<R: Threads + Sync, S: Shelf + Send>(
    rt: &R,
    alloc: Global,
    column: u8,
    tables: &ThreeTables,
    keys: &ThreeKeys,
    start: u64,
    zero: &mut [S],
    one: &mut [S],
    two: &mut [S],
    room: Trio,
) -> Result<Trio, Memory>
    requires rows { CanFill S.held column tables.now start zero.old one.old two.old room.zero room.one room.two }
    ensures { Fills S.held S.visited column tables.now keys.now start zero.old zero.new one.old one.new two.old two.new
        (λ t. t.zero) (λ t. t.one) (λ t. t.two) result }
{
    let mut at_zero = room.zero.into_vec();
    let mut at_one = room.one.into_vec();
    let mut at_two = room.two.into_vec();
    fill_stretches(
        rt,
        alloc,
        column,
        tables,
        keys,
        start,
        zero,
        one,
        two,
        at_zero.as_mut_slice(),
        at_one.as_mut_slice(),
        at_two.as_mut_slice(),
    )?;
    Ok(Trio {
        zero: Words::from_vec(at_zero),
        one: Words::from_vec(at_one),
        two: Words::from_vec(at_two),
    })
}

// The words of all rows, in one thread where a server has one shelf.
fn words_by_shelves<R: Threads + Sync, S: Shelf + Send>(
    rt: &R,
    alloc: Global,
    rows: usize,
    column: u8,
    tables: &ThreeTables,
    keys: &ThreeKeys,
    start: u64,
    zero: &mut [S],
    one: &mut [S],
    two: &mut [S],
) -> Result<Trio, Memory>
    requires count { rows_in S.held zero.old ≡ rows }
    requires rows { CanFill S.held column tables.now start zero.old one.old two.old
        (scans_of S.held column tables.now.zero zero.old) (scans_of S.held column tables.now.one one.old)
        (scans_of S.held column tables.now.two two.old) }
    ensures { Fills S.held S.visited column tables.now keys.now start zero.old zero.new one.old one.new two.old two.new
        (λ t. t.zero) (λ t. t.one) (λ t. t.two) result }
{
    if zero.len() < 2 {
        return scan_all(rt, alloc, column, tables, keys, start, zero, one, two);
    }
    let room = room(alloc, rows)?;
    fill_room(rt, alloc, column, tables, keys, start, zero, one, two, room)
}

/// The servers' words of the bits of predicate j. The rows are cut into as many stretches as each server has shelves, each in a thread of
/// its own where one can be made.
pub(crate) fn bits_at_once<R: Threads + Sync, S: Shelf + Send>(
    rt: &R,
    alloc: Global,
    plan: &Plan,
    keys: &ThreeKeys,
    run: u8,
    j: u8,
    zero: &mut Vec<S>,
    one: &mut Vec<S>,
    two: &mut Vec<S>,
) -> Result<Trio, Memory>
    requires zero { CanScan S.held plan.now keys.now.zero run j zero.old.items }
    requires one { CanScan S.held plan.now keys.now.one run j one.old.items }
    requires two { CanScan S.held plan.now keys.now.two run j two.old.items }
    ensures zero { GivesBits S.held S.visited plan.now keys.now.zero run j zero.old.items zero.new.items (λ t. t.zero) result }
    ensures one { GivesBits S.held S.visited plan.now keys.now.one run j one.old.items one.new.items (λ t. t.one) result }
    ensures two { GivesBits S.held S.visited plan.now keys.now.two run j two.old.items two.new.items (λ t. t.two) result }
{
    let rows = rows_together(plan, zero.as_slice());
    rows_together(plan, one.as_slice());
    rows_together(plan, two.as_slice());
    let column = plan.column(j);
    let start = plan.bits_counter(run, j);
    let tables = three_tables(alloc, plan, keys, run, j)?;
    let words = words_by_shelves(
        rt,
        alloc,
        rows as usize,
        column,
        &tables,
        keys,
        start,
        zero.as_mut_slice(),
        one.as_mut_slice(),
        two.as_mut_slice(),
    )?;
    Ok(words)
}
