// Writers and askers of one table, each in a thread of its own.
ghost use Rattle.std.specs.Prelude.{◌≡◌, ◌-◌, ◌≤◌};
ghost use Rattle.waldo_table.specs.Tables.{IsOf};

use crate::calls::{append, ask, open};
use ring128::Memory;
use std::alloc::Global;
use std::process::Abort;
use std::sync::Wait;
use std::thread::{Threads, join_mut};
use table_schema::Aggregate;
use visit_trace::Trace;
use waldo_table::{Answered, AskFault, Pass, Table};
use wire_line::StraightWire;

// Three rows of each writer: bucket and value. Bucket 3 has the values 1, 4 and 16.
const FIRST: [(u8, u32); 3] = [(3, 1), (0, 2), (3, 4)];

const SECOND: [(u8, u32); 3] = [(1, 8), (3, 16), (2, 32)];

// What a thread does.
#[derive(Clone, Copy)]
enum Work {
    Write([(u8, u32); 3]),
    Ask,
}

// A thread's pass, its work, and what came of it: of a writer its places, each as a bit; of an asker 1 where its answers were as
// they must be.
#[derive(Drop)]
struct Job {
    pass: Pass,
    work: Work,
    mark: u64,
}

// Appends the rows, and answers their places, each as a bit.
fn write<R: Abort + Wait>(
    rt: &R,
    alloc: Global,
    table: &Table,
    pass: &mut Pass,
    rows: [(u8, u32); 3],
) -> Result<u64, Memory>
    requires { IsOf table.now pass.old }
    ensures { IsOf table.now pass.new }
{
    let [first, second, third] = rows;
    let first = append(rt, alloc, table, pass, first.0, first.1)?;
    let second = append(rt, alloc, table, pass, second.0, second.1)?;
    let third = append(rt, alloc, table, pass, third.0, third.1)?;
    Ok(bit(first) | bit(second) | bit(third))
}

// The bit of a place below 6.
fn bit(place: u64) -> u64 {
    if place < 6 { 1 << place } else { 0 }
}

// Whether two answers one after another can be of such a race: no more rows than there are, no fewer than before, and at most
// three of them counted.
fn are_fair(first: Result<Answered, AskFault>, second: Result<Answered, AskFault>) -> bool {
    let (Ok(first), Ok(second)) = (first, second) else {
        return false;
    };
    first.rows <= second.rows
        && second.rows <= 6
        && first.total <= second.total
        && second.total <= 3
}

// Counts twice.
fn count_twice<R: Abort + Threads + Wait + Sync>(
    rt: &R,
    alloc: Global,
    table: &Table,
    pass: &mut Pass,
) -> bool
    requires { IsOf table.now pass.old }
    ensures { IsOf table.now pass.new }
{
    let mut wire = StraightWire::new();
    let mut trace = Trace::new(alloc);
    let first = ask(
        rt,
        alloc,
        table,
        pass,
        Aggregate::Count,
        &mut wire,
        &mut trace,
    );
    let second = ask(
        rt,
        alloc,
        table,
        pass,
        Aggregate::Count,
        &mut wire,
        &mut trace,
    );
    are_fair(first, second)
}

// One job.
fn run<R: Abort + Threads + Wait + Sync>(rt: &R, alloc: Global, table: &Table, job: &mut Job)
    requires { IsOf table.now job.old.pass }
    ensures { IsOf table.now job.new.pass }
{
    let Job { pass, work, mark } = job;
    *mark = match *work {
        Work::Write(rows) => write(rt, alloc, table, pass, rows).unwrap_or(0),
        Work::Ask => u64::from(count_twice(rt, alloc, table, pass)),
    };
}

// Two jobs at once.
fn run_two<R: Abort + Threads + Wait + Sync>(
    rt: &R,
    alloc: Global,
    table: &Table,
    first: &mut Job,
    second: &mut Job,
)
    requires first { IsOf table.now first.old.pass }
    requires second { IsOf table.now second.old.pass }
    ensures first { IsOf table.now first.new.pass }
    ensures second { IsOf table.now second.new.pass }
{
    join_mut(
        rt,
        &mut ||
            requires { IsOf table.now first.now.pass }
        { run(rt, alloc, table, first) },
        &mut ||
            requires { IsOf table.now second.now.pass }
        { run(rt, alloc, table, second) },
    );
}

// Four at once.
fn run_four<R: Abort + Threads + Wait + Sync>(
    rt: &R,
    alloc: Global,
    table: &Table,
    first: &mut Job,
    second: &mut Job,
    third: &mut Job,
    fourth: &mut Job,
)
    requires first { IsOf table.now first.old.pass }
    requires second { IsOf table.now second.old.pass }
    requires third { IsOf table.now third.old.pass }
    requires fourth { IsOf table.now fourth.old.pass }
    ensures first { IsOf table.now first.new.pass }
    ensures second { IsOf table.now second.new.pass }
    ensures third { IsOf table.now third.new.pass }
    ensures fourth { IsOf table.now fourth.new.pass }
{
    join_mut(
        rt,
        &mut ||
            requires { IsOf table.now first.now.pass × IsOf table.now second.now.pass }
        { run_two(rt, alloc, table, first, second) },
        &mut ||
            requires { IsOf table.now third.now.pass × IsOf table.now fourth.now.pass }
        { run_two(rt, alloc, table, third, fourth) },
    );
}

// A job with a pass of its own, which has `room` draws.
fn new_job(table: &Table, pass: &mut Pass, room: u64, work: Work) -> Job
    requires pass { IsOf table.now pass.old }
    requires room { room ≤ pass.old.sight.room }
    ensures pass { IsOf table.now pass.new }
    ensures job { IsOf table.now result.pass }
    ensures room { pass.new.sight.room ≡ pass.old.sight.room - room }
{
    Job {
        pass: table.split_pass(pass, room),
        work,
        mark: 0,
    }
}

// Takes a job's pass in, and answers its mark.
fn take_in(table: &Table, pass: &mut Pass, job: Job) -> u64
    requires pass { IsOf table.now pass.old }
    requires job { IsOf table.now job.pass }
    ensures { IsOf table.now pass.new }
{
    let Job {
        pass: other,
        work: _,
        mark,
    } = job;
    table.gather(pass, other);
    mark
}

// Two writers and two askers at once: what came of each, in this order.
fn race<R: Abort + Threads + Wait + Sync>(
    rt: &R,
    alloc: Global,
    table: &Table,
    pass: &mut Pass,
) -> [u64; 4]
    requires pass { IsOf table.now pass.old }
    requires room { 6 ≤ pass.old.sight.room }
    ensures { IsOf table.now pass.new }
{
    let mut first = new_job(table, pass, 3, Work::Write(FIRST));
    let mut second = new_job(table, pass, 3, Work::Write(SECOND));
    let mut third = new_job(table, pass, 0, Work::Ask);
    let mut fourth = new_job(table, pass, 0, Work::Ask);
    run_four(
        rt,
        alloc,
        table,
        &mut first,
        &mut second,
        &mut third,
        &mut fourth,
    );
    [
        take_in(table, pass, first),
        take_in(table, pass, second),
        take_in(table, pass, third),
        take_in(table, pass, fourth),
    ]
}

// What a race comes to, the same whatever the schedule.
#[derive(Clone, Copy, Debug, PartialEq, Eq)]
struct Outcome {
    places: u64,
    askers: u64,
    floor: u64,
    count: Result<Answered, AskFault>,
    sum: Result<Answered, AskFault>,
}

// After a race the floor is reported, and all rows are counted and summed.
fn raced<R: Abort + Threads + Wait + Sync>(
    rt: &R,
    alloc: Global,
    table: &Table,
    pass: &mut Pass,
) -> Outcome
    requires pass { IsOf table.now pass.old }
    requires room { 6 ≤ pass.old.sight.room }
{
    let [first, second, third, fourth] = race(rt, alloc, table, pass);
    let mut wire = StraightWire::new();
    let mut trace = Trace::new(alloc);
    Outcome {
        places: first | second,
        askers: third & fourth,
        floor: pass.floor(),
        count: ask(
            rt,
            alloc,
            table,
            pass,
            Aggregate::Count,
            &mut wire,
            &mut trace,
        ),
        sum: ask(
            rt,
            alloc,
            table,
            pass,
            Aggregate::Sum,
            &mut wire,
            &mut trace,
        ),
    }
}

// A race on a table of its own.
fn race_anew<R: Abort + Threads + Wait + Sync>(rt: &R, alloc: Global) -> Result<Outcome, Memory> {
    let (table, mut pass) = open(alloc, 6)?;
    Ok(raced(rt, alloc, &table, &mut pass))
}

// Each of the six places is drawn once; no asker's number of rows falls or is above six; the gathered pass learned of all six rows,
// and asks over them: three have bucket 3, with the values 1, 4 and 16.
#[test]
fn writers_and_askers_at_once(rt: HostRuntime) -> Result<(), Memory> {
    let wanted = Outcome {
        places: 0b11_1111,
        askers: 1,
        floor: 6,
        count: Ok(Answered { rows: 6, total: 3 }),
        sum: Ok(Answered { rows: 6, total: 21 }),
    };
    for _ in 0..10 {
        assert_eq!(rt; race_anew(&rt, rt.alloc())?, wanted);
    }
    Ok(())
}
