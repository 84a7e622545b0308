// Rows that were agreed on: they stay while others are placed, and a query over them goes over any wire.
ghost use Rattle.std.specs.Prelude.{◌≡◌, ◌≤◌, IfOk};
ghost use Rattle.waldo_table.specs.Tables.{IsOf};

use crate::calls::{append, ask, key, open, query, seed};
use agreed_rows::{Agreed, AnswerFault, Answered, answer};
use ring128::{Memory, mul};
use std::alloc::Global;
use std::process::Abort;
use std::sync::Wait;
use std::thread::{Threads, join_mut};
use table_schema::Aggregate;
use visit_trace::Trace;
use waldo_table::{AskFault, Pass, Table};
use wire_line::{RecordWire, Shift, ShiftWire, Shifts, StraightWire, Wire};

// Appends three rows and agrees on them: two have bucket 3, with the values 10 and 5.
fn agree_on_three<R: Abort + Wait>(
    rt: &R,
    alloc: Global,
    table: &Table,
    pass: &mut Pass,
) -> Result<Agreed, Memory>
    requires { IsOf table.now pass.old }
    ensures pass { IsOf table.now pass.new }
    ensures widths { IfOk result (λ a. a.widths ≡ table.now.widths) }
{
    append(rt, alloc, table, pass, 3, 10)?;
    append(rt, alloc, table, pass, 1, 20)?;
    append(rt, alloc, table, pass, 3, 5)?;
    match table.agree(rt, alloc, pass) {
        Ok(agreed) => Ok(agreed),
        Err(_) => Err(Memory),
    }
}

// The sum over rows that were agreed on.
fn sum<R: Abort + Threads + Sync, W: Wire>(
    rt: &R,
    alloc: Global,
    table: &Table,
    agreed: &Agreed,
    wire: &mut W,
) -> Result<Answered, AnswerFault>
    requires { agreed.now.widths ≡ table.now.widths }
{
    let query = query(rt, Aggregate::Sum, table);
    let mut trace = Trace::new(alloc);
    answer(rt, alloc, agreed, &query, &seed(), wire, &mut trace, 2)
}

// Appends two rows more, with bucket 3 and the values 100 and 200.
fn append_two<R: Abort + Wait>(
    rt: &R,
    alloc: Global,
    table: &Table,
    pass: &mut Pass,
) -> Result<(), Memory>
    requires { IsOf table.now pass.old }
    ensures { IsOf table.now pass.new }
{
    append(rt, alloc, table, pass, 3, 100)?;
    append(rt, alloc, table, pass, 3, 200)?;
    Ok(())
}

// The sum over rows that were agreed on, while another thread appends two rows.
fn sum_beside<R: Abort + Threads + Wait + Sync>(
    rt: &R,
    alloc: Global,
    table: &Table,
    agreed: &Agreed,
    pass: &mut Pass,
) -> (Result<(), Memory>, Result<Answered, AnswerFault>)
    requires pass { IsOf table.now pass.old }
    requires widths { agreed.now.widths ≡ table.now.widths }
{
    join_mut(
        rt,
        &mut ||
            requires { IsOf table.now pass.now }
        { append_two(rt, alloc, table, pass) },
        &mut ||
            requires { agreed.now.widths ≡ table.now.widths }
        { sum(rt, alloc, table, agreed, &mut StraightWire::new()) },
    )
}

// The sums over rows that were agreed on, while two more are placed and after that, and the sum over all five.
type Sums = (
    (Result<(), Memory>, Result<Answered, AnswerFault>),
    Result<Answered, AnswerFault>,
    Result<Answered, AskFault>,
);

fn sum_thrice<R: Abort + Threads + Wait + Sync>(
    rt: &R,
    alloc: Global,
    table: &Table,
    pass: &mut Pass,
) -> Result<Sums, Memory>
    requires pass { IsOf table.now pass.old }
    requires room { 2 ≤ pass.old.sight.room }
{
    let mut other = table.split_pass(pass, 2);
    let agreed = agree_on_three(rt, alloc, table, pass)?;
    let beside = sum_beside(rt, alloc, table, &agreed, &mut other);
    let mut wire = StraightWire::new();
    let after = sum(rt, alloc, table, &agreed, &mut wire);
    let mut trace = Trace::new(alloc);
    let all = ask(
        rt,
        alloc,
        table,
        pass,
        Aggregate::Sum,
        &mut wire,
        &mut trace,
    );
    Ok((beside, after, all))
}

// Sums three times on a table of its own.
fn sum_thrice_anew<R: Abort + Threads + Wait + Sync>(
    rt: &R,
    alloc: Global,
) -> Result<Sums, Memory> {
    let (table, mut pass) = open(alloc, 5)?;
    sum_thrice(rt, alloc, &table, &mut pass)
}

#[test]
fn rows_stay_while_others_are_placed(rt: HostRuntime) -> Result<(), Memory> {
    let old = Ok(Answered { rows: 3, total: 15 });
    let wanted = (
        (Ok(()), old),
        old,
        Ok(Answered {
            rows: 5,
            total: 315,
        }),
    );
    for _ in 0..10 {
        assert_eq!(rt; sum_thrice_anew(&rt, rt.alloc())?, wanted);
    }
    Ok(())
}

// A wire that adds 1 to the first word of message 6, with which a server opens its share of the total.
fn shifting(alloc: Global) -> Result<ShiftWire<StraightWire>, Memory> {
    let mut shifts = Shifts::new(alloc);
    shifts.push(Shift {
        message: 6,
        word: 0,
        amount: 1,
    })?;
    Ok(ShiftWire::over(alloc, StraightWire::new(), shifts))
}

// The sum over a wire, and how often the wire altered a message.
type Carried = (Result<Answered, AnswerFault>, u64);

fn sum_over<R: Abort + Threads + Sync, W: Wire>(
    rt: &R,
    alloc: Global,
    table: &Table,
    agreed: &Agreed,
    wire: &mut W,
) -> Carried
    requires { agreed.now.widths ≡ table.now.widths }
{
    let answered = sum(rt, alloc, table, agreed, wire);
    (answered, wire.altered())
}

// Sums over a wire that alters, and over one that does not; and the query's key.
fn sums_over<R: Abort + Threads + Wait + Sync>(
    rt: &R,
    alloc: Global,
    table: &Table,
    pass: &mut Pass,
) -> Result<(Carried, Carried, u128), Memory>
    requires { IsOf table.now pass.old }
{
    let agreed = agree_on_three(rt, alloc, table, pass)?;
    let mut shifting = shifting(alloc)?;
    let altered = sum_over(rt, alloc, table, &agreed, &mut shifting);
    let honest = sum_over(rt, alloc, table, &agreed, &mut RecordWire::new(alloc));
    let key = key(rt, alloc, table, Aggregate::Sum)?;
    Ok((altered, honest, key))
}

// Sums over both wires on a table of its own.
fn sums_over_anew<R: Abort + Threads + Wait + Sync>(
    rt: &R,
    alloc: Global,
) -> Result<(Carried, Carried, u128), Memory> {
    let (table, mut pass) = open(alloc, 3)?;
    sums_over(rt, alloc, &table, &mut pass)
}

// The total is opened as 16 in place of 15, and its product with the key as it is.
#[test]
fn an_altered_message_is_found(rt: HostRuntime) -> Result<(), Memory> {
    let (altered, honest, key) = sums_over_anew(&rt, rt.alloc())?;
    let fault = AnswerFault::Altered {
        total: 16,
        weighted: mul(15, key),
    };
    let wanted = ((Err(fault), 1), (Ok(Answered { rows: 3, total: 15 }), 0));
    assert_eq!(rt; (altered, honest), wanted);
    Ok(())
}
