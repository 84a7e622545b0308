use super::runs::{INPUT, straight_wires, words_of};
use report_lines::MemorySink;
use ring128::Memory;
use row_source::MemorySource;
use std::alloc::Global;
use std::process::Abort;
use std::test::Fail;
use std::thread::Threads;
use visit_trace::Trace;
use waldo_run::run_still;
use wire_line::RecordWire;

// What comes before the shifts.
const COUNT: &str = "tamper|host:2|--query|count host=3";

const SUM: &str = "tamper|host:2,level:1|--query|sum host=3 level=1";

const FOUR: &str = "host,level,value\n3,1,10\n3,0,20\n1,1,40\n3,1,80\n";

/// What comes before the shifts, an input, the shifts, the status and the text that is put. Twice the key is 22373722559603869626.
type Case = (&'static str, &'static str, &'static str, u8, &'static str);

const CASES: [Case; 21] = [
    // The opening of server 0 in run 0, seen in one of the two totals.
    (
        COUNT,
        INPUT,
        "6:0:1",
        7,
        "ask 0 rows 3 altered total 3 weighted 22373722559603869626\n",
    ),
    // Made good in run 1: a wrong total is accepted.
    (
        COUNT,
        INPUT,
        "6:0:1 12:0:key*1",
        0,
        "ask 0 rows 3 count 3\n",
    ),
    // The relation is kept, but the signed total has a size of more than 2^63, of 2^63 and of 2^63 - 1.
    (
        COUNT,
        INPUT,
        "6:0:18446744073709551616 12:0:key*18446744073709551616",
        7,
        "ask 0 rows 3 altered total 18446744073709551618 weighted 206361167016597191147065126915094677434\n",
    ),
    (
        COUNT,
        INPUT,
        "6:0:9223372036854775806 12:0:key*9223372036854775806",
        7,
        "ask 0 rows 3 altered total 9223372036854775808 weighted 103180583508298595562345702177745403904\n",
    ),
    (
        COUNT,
        INPUT,
        "6:0:340282366920938463454151235394913435646 12:0:key*340282366920938463454151235394913435646",
        7,
        "ask 0 rows 3 altered total 340282366920938463454151235394913435648 weighted 237101783412639867901028905254022807552\n",
    ),
    (
        COUNT,
        INPUT,
        "6:0:9223372036854775805 12:0:key*9223372036854775805",
        0,
        "ask 0 rows 3 count 9223372036854775807\n",
    ),
    (
        COUNT,
        INPUT,
        "6:0:340282366920938463454151235394913435647 12:0:key*340282366920938463454151235394913435647",
        0,
        "ask 0 rows 3 count -9223372036854775807\n",
    ),
    // A second list that a count of one predicate doesn't use, in either run.
    (COUNT, INPUT, "3:0:1", 0, "ask 0 rows 3 count 2\n"),
    (
        COUNT,
        INPUT,
        "4:1:1 5:2:7 9:0:1 10:1:1 11:2:1",
        0,
        "ask 0 rows 3 count 2\n",
    ),
    // The other openings: of run 0, and of run 1 alone.
    (
        COUNT,
        INPUT,
        "7:0:5",
        7,
        "ask 0 rows 3 altered total 7 weighted 22373722559603869626\n",
    ),
    (
        COUNT,
        INPUT,
        "8:0:1",
        7,
        "ask 0 rows 3 altered total 3 weighted 22373722559603869626\n",
    ),
    (
        COUNT,
        INPUT,
        "12:0:1",
        7,
        "ask 0 rows 3 altered total 2 weighted 22373722559603869627\n",
    ),
    (
        COUNT,
        INPUT,
        "14:0:4",
        7,
        "ask 0 rows 3 altered total 2 weighted 22373722559603869630\n",
    ),
    // Words and messages that aren't there, amounts that add up to 0.
    (COUNT, INPUT, "6:1:1", 0, "ask 0 rows 3 count 2\n"),
    (COUNT, INPUT, "15:0:1 50:0:1", 0, "ask 0 rows 3 count 2\n"),
    (
        COUNT,
        INPUT,
        "6:0:1 6:0:340282366920938463463374607431768211455",
        0,
        "ask 0 rows 3 count 2\n",
    ),
    // Server 1 alters all that it sends: its bits are no use to it, and its openings are off by 5, and by 5 times the key.
    (
        COUNT,
        INPUT,
        "4:0:9 7:0:5 10:0:9 13:0:key*5",
        0,
        "ask 0 rows 3 count 7\n",
    ),
    (
        COUNT,
        INPUT,
        "4:0:9 7:0:5 10:0:9 13:0:5",
        7,
        "ask 0 rows 3 altered total 7 weighted 22373722559603869631\n",
    ),
    // A total may also be made smaller, and even less than 0.
    (
        COUNT,
        INPUT,
        "6:0:340282366920938463463374607431768211455 12:0:key*340282366920938463463374607431768211455",
        0,
        "ask 0 rows 3 count 1\n",
    ),
    (
        COUNT,
        INPUT,
        "6:0:340282366920938463463374607431768211453 12:0:key*340282366920938463463374607431768211453",
        0,
        "ask 0 rows 3 count -1\n",
    ),
    (
        COUNT,
        "host,value\n",
        "6:0:1 12:0:key*1",
        0,
        "ask 0 rows 0 count 1\n",
    ),
];

/// Shifts of a sum of two predicates whose effect is a share or a pad that nobody knows: a word of each server's key message, bits of
/// the first and of the second predicate, and products, in either run.
const UNKNOWN: [&str; 9] = [
    "0:0:1", "1:4:1", "2:43:1", "3:0:1", "7:1:1", "9:0:1", "15:3:1", "20:2:1", "21:0:1",
];

// The words of a command with these shifts.
fn words(alloc: Global, before: &str, shifts: &str) -> Result<Vec<String>, Memory> {
    let mut words = words_of(alloc, before)?;
    for shift in shifts.split(' ') {
        words.push(String::from_str(alloc, "--shift")?)?;
        words.push(String::from_str(alloc, shift)?)?;
    }
    Ok(words)
}

// The status of a run over wires that alter nothing, and its text.
fn tampers<R: Abort + Threads + Sync>(
    rt: &R,
    alloc: Global,
    before: &str,
    shifts: &str,
    input: &str,
) -> Result<(u8, MemorySink), Memory> {
    let list = words(alloc, before, shifts)?;
    let mut source = MemorySource::new(alloc, input.as_bytes(), &[])?;
    let mut sink = MemorySink::new(alloc, 1000, &[])?;
    let mut wires = straight_wires(alloc)?;
    let mut trace = Trace::new(alloc);
    assert_eq!(rt; wires.len(), 16);
    let status = run_still(
        rt,
        alloc,
        &list,
        &mut source,
        &mut sink,
        &mut wires,
        &mut trace,
    );
    Ok((status, sink))
}

#[test]
fn shifts_by_the_chain(rt: HostRuntime) -> Result<(), Fail> {
    for (before, input, shifts, status, text) in &CASES {
        let (got, sink) = tampers(&rt, rt.alloc(), before, shifts, input)
            .ok()
            .ok_or("memory")?;
        assert_eq!(rt; got, *status, "{shifts}");
        assert!(rt; sink.bytes() == text.as_bytes(), "{shifts}");
    }
    Ok(())
}

#[test]
fn shifts_of_what_nobody_knows(rt: HostRuntime) -> Result<(), Fail> {
    for shifts in &UNKNOWN {
        let (got, sink) = tampers(&rt, rt.alloc(), SUM, shifts, FOUR)
            .ok()
            .ok_or("memory")?;
        assert_eq!(rt; got, 7, "{shifts}");
        assert!(rt;
            sink.bytes().starts_with(b"ask 0 rows 4 altered total "),
            "{shifts}"
        );
    }
    Ok(())
}

// Over a wire that keeps its messages: they are there as they were sent, and received without the shift.
#[test]
fn the_wire_below_is_not_shifted(rt: HostRuntime) -> Result<(), Fail> {
    let alloc = rt.alloc();
    let mut wires = Vec::new(alloc);
    for _ in 0..16 {
        wires.push(RecordWire::new(alloc)).ok().ok_or("memory")?;
    }
    assert_eq!(rt; wires.len(), 16);
    let list = words(alloc, COUNT, "6:0:1").ok().ok_or("memory")?;
    let mut source = MemorySource::new(alloc, INPUT.as_bytes(), &[])
        .ok()
        .ok_or("memory")?;
    let mut sink = MemorySink::new(alloc, 1000, &[]).ok().ok_or("memory")?;
    let mut trace = Trace::new(alloc);
    assert_eq!(rt;
        run_still(
            &rt,
            alloc,
            &list,
            &mut source,
            &mut sink,
            &mut wires,
            &mut trace
        ),
        7
    );
    assert_eq!(rt; wires.len(), 16);
    assert_eq!(rt; wires[0].messages().len(), 15);
    for message in wires[0].messages() {
        assert!(rt; message.sent.as_slice() == message.received.as_slice());
    }
    for wire in wires.iter().skip(1) {
        assert!(rt; wire.messages().is_empty());
    }
    Ok(())
}
