use super::runs::{INPUT, straight_wires, words_of};
use report_lines::MemorySink;
use ring128::Memory;
use row_source::MemorySource;
use std::alloc::Global;
use std::process::Abort;
use std::test::Fail;
use std::thread::Threads;
use visit_trace::Trace;
use waldo_run::run_still;

const COUNT: &str = "ask|host:2|--query|count host=3";

const TAMPER: &str = "tamper|host:2|--query|count host=3|--shift|6:0:1";

const ONE_LOOKS_PAST: &str =
    "replay|host:2|--query|count host=3|--schedule|d0 d1 p1.0 p1.1 p1.2 f2 f2 f2 a2.0 f1";

const ONE_LOOKS_PAST_TEXT: &str =
    "draw 0 place 0\ndraw 1 place 1\nask 2.0 rows 0 count 0\nask 1.0 again server 0 had 0 floor 2\n";

const TWO_DRAWS: &str = "replay|host:2|--query|count host=3|--schedule|d0 d0";

/// The number of a read or put that never comes.
const NEVER: u64 = 1000;

/// What a run meets: words, an input, the read of the source that fails, the room of the sink and its put that fails; and what comes of
/// it: the status and the text that was put.
type Fault = (&'static str, &'static str, u64, u64, u64, u8, &'static str);

const FAULTS: [Fault; 16] = [
    (COUNT, INPUT, 0, 100, NEVER, 3, "waldo: read fault\n"),
    (COUNT, INPUT, 1, 100, NEVER, 3, "waldo: read fault\n"),
    // The end was read at read 0, and nothing is read behind it.
    (COUNT, "", 1, 100, NEVER, 5, "waldo: header\n"),
    (COUNT, INPUT, NEVER, 3, NEVER, 4, "ask"),
    (COUNT, INPUT, NEVER, 100, 0, 4, ""),
    // Words that are refused, and a pair that is refused: a failed put leaves the status.
    ("ask|host:9", INPUT, NEVER, 100, 0, 2, ""),
    (TAMPER, INPUT, NEVER, 5, NEVER, 7, "ask 0"),
    // The input cut short: in the header, at its end, in a value, in the next row, and before the last line feed.
    (COUNT, "host,valu", NEVER, 100, NEVER, 5, "waldo: header\n"),
    (
        COUNT,
        "host,value",
        NEVER,
        100,
        NEVER,
        0,
        "ask 0 rows 0 count 0\n",
    ),
    (
        COUNT,
        "host,value\n3,1",
        NEVER,
        100,
        NEVER,
        0,
        "ask 0 rows 1 count 1\n",
    ),
    (
        COUNT,
        "host,value\n3,10\n1,2",
        NEVER,
        100,
        NEVER,
        0,
        "ask 0 rows 2 count 1\n",
    ),
    (
        COUNT,
        "host,value\n3,10\n1,20\n3,5",
        NEVER,
        100,
        NEVER,
        0,
        "ask 0 rows 3 count 2\n",
    ),
    // In a row, before its comma.
    (
        COUNT,
        "host,value\n3",
        NEVER,
        100,
        NEVER,
        5,
        "waldo: record 1 Fields\n",
    ),
    (
        COUNT,
        "host,value\n3,10\n1",
        NEVER,
        100,
        NEVER,
        5,
        "waldo: record 2 Fields\n",
    ),
    // An actor that has placed what another has not, and one that draws twice.
    (
        ONE_LOOKS_PAST,
        INPUT,
        NEVER,
        1000,
        NEVER,
        0,
        ONE_LOOKS_PAST_TEXT,
    ),
    (
        TWO_DRAWS,
        INPUT,
        NEVER,
        100,
        NEVER,
        2,
        "waldo: step 1 not allowed\n",
    ),
];

// The status and the text of a run that meets a fault.
fn meets<R: Abort + Threads + Sync>(rt: &R, alloc: Global, fault: &Fault) -> Result<(), Memory> {
    let (words, input, read, room, put, status, text) = *fault;
    let list = words_of(alloc, words)?;
    let mut source = MemorySource::new(alloc, input.as_bytes(), &[read])?;
    let mut sink = MemorySink::new(alloc, room, &[put])?;
    let mut wires = straight_wires(alloc)?;
    let mut trace = Trace::new(alloc);
    assert_eq!(rt; wires.len(), 16);
    let found = run_still(
        rt,
        alloc,
        &list,
        &mut source,
        &mut sink,
        &mut wires,
        &mut trace,
    );
    assert_eq!(rt; found, status, "{words}");
    assert!(rt; sink.bytes() == text.as_bytes(), "{words}");
    Ok(())
}

#[test]
fn faults_and_cut_inputs(rt: HostRuntime) -> Result<(), Fail> {
    for fault in &FAULTS {
        meets(&rt, rt.alloc(), fault).ok().ok_or("memory")?;
    }
    Ok(())
}
