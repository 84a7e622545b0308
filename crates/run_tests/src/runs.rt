use report_lines::MemorySink;
use ring128::Memory;
use row_source::{MemorySource, SureSource};
use std::alloc::Global;
use std::process::Abort;
use std::test::Fail;
use std::thread::Threads;
use visit_trace::{Trace, same};
use waldo_run::run_still;
use wire_line::{RecordWire, Shift, ShiftWire, Shifts, StraightWire, Wire};

pub(crate) const INPUT: &str = "host,value\n3,10\n1,20\n3,5\n";

const COUNT: &str = "ask|host:2|--query|count host=3";

// A schedule whose step prints no line.
const NOTHING_SAID: &str = "replay|host:2|--query|count host=3|--schedule|f0";

const TIME: &str = "ask|time:8@1700000000/3600|--query|count time=1700000000";

/// How many bytes of text a sink takes: more than the 256 lines of a column of 8 bits.
const ROOM: u64 = 10_000;

/// Words, an input, the status and the text that is put.
pub(crate) type Case = (&'static str, &'static str, u8, &'static str);

const AGAIN: &str =
    "replay|host:2|--query|count host=3|--schedule|d0 p0.0 p0.1 d1 p1.0 p1.1 p1.2 f1 f1 f1";

const AGAIN_TEXT: &str = "draw 0 place 0\ndraw 1 place 1\nask 1.0 again server 2 had 0 floor 2\n";

const ANSWERED: &str =
    "replay|host:2|--query|count host=3|--schedule|d0 p0.0 p0.1 d1 p1.0 p1.1 p1.2 f1 f1 f1 p0.2 f1 f1 f1 a1.0";

const ANSWERED_TEXT: &str =
    "draw 0 place 0\ndraw 1 place 1\nask 1.0 again server 2 had 0 floor 2\nask 1.1 rows 2 count 1\n";

const CASES: [Case; 55] = [
    (COUNT, INPUT, 0, "ask 0 rows 3 count 2\n"),
    (COUNT, "host,value\n", 0, "ask 0 rows 0 count 0\n"),
    (
        "ask|host:2|--query|count host=0",
        INPUT,
        0,
        "ask 0 rows 3 count 0\n",
    ),
    (
        COUNT,
        "host,value\r\n3,10\r\n\r\n\"3\",5",
        0,
        "ask 0 rows 2 count 2\n",
    ),
    ("", INPUT, 2, "waldo: missing command\n"),
    ("sum", INPUT, 2, "waldo: bad word 0\n"),
    ("ask", INPUT, 2, "waldo: missing schema\n"),
    ("ask|host:9", INPUT, 2, "waldo: bad word 1\n"),
    ("ask|host:2", INPUT, 2, "waldo: missing --query\n"),
    ("ask|host:2|--count", INPUT, 2, "waldo: bad word 2\n"),
    ("ask|host:2|--query", INPUT, 2, "waldo: bad word 2\n"),
    (
        "ask|host:2|--query|count host=3 host=1",
        INPUT,
        2,
        "waldo: bad word 3\n",
    ),
    (
        "ask|host:2|--query|count host=3|more",
        INPUT,
        2,
        "waldo: bad word 4\n",
    ),
    (COUNT, "", 5, "waldo: header\n"),
    (
        COUNT,
        "host,value\n3,10\n1\n",
        5,
        "waldo: record 2 Fields\n",
    ),
    (
        COUNT,
        "host,value\n3,10\n1,4294967296\n",
        5,
        "waldo: record 2 Value\n",
    ),
    (COUNT, "host,value\n4,10\n", 5, "waldo: record 1 Domain\n"),
    (COUNT, "host,value\n+1,10\n", 5, "waldo: record 1 Number\n"),
    (
        TIME,
        "time,value\n1699999999,1\n",
        5,
        "waldo: record 1 Domain\n",
    ),
    (
        "ask|time:8@1700000000/3600,host:4,level:3|--query|sum time=1700000000..1700086399 host=3 level<=2",
        "time,host,level,value\n1699999999,0,0,1\n",
        5,
        "waldo: record 1 Domain\n",
    ),
    (
        TIME,
        "time,value\n1700003599,1\n",
        0,
        "ask 0 rows 1 count 1\n",
    ),
    (
        "ask|a:8,b:8,c:8,d:8|--query|count c=9",
        "a,b,c,d,value\n1,2,9,4,5\n1,2,3,4,5\n",
        0,
        "ask 0 rows 2 count 1\n",
    ),
    (
        "ask|host:2|--query|sum host=3",
        INPUT,
        0,
        "ask 0 rows 3 sum 15\n",
    ),
    (
        "ask|x:8|--query|sum x=255",
        "x,value\n255,4294967295\n255,4294967295\n",
        0,
        "ask 0 rows 2 sum 8589934590\n",
    ),
    (
        "ask|host:2|--query|sum host=0..3",
        INPUT,
        0,
        "ask 0 rows 3 sum 35\n",
    ),
    (
        "ask|host:2|--query|sum host<=1",
        INPUT,
        0,
        "ask 0 rows 3 sum 20\n",
    ),
    (
        "ask|host:2|--query|count host=3..1",
        INPUT,
        2,
        "waldo: bad word 3\n",
    ),
    (
        "ask|a:8,b:8,c:8,d:8|--query|sum a<=1 b=2..3 c=9 d=4..4",
        "a,b,c,d,value\n1,2,9,4,5\n0,3,9,4,70\n1,4,9,4,600\n2,2,9,4,8000\n",
        0,
        "ask 0 rows 4 sum 75\n",
    ),
    // Several queries, options in any order, and both forms of an option.
    (
        "ask|host:2|--query|sum host=0..3|--query|sum host<=1",
        INPUT,
        0,
        "ask 0 rows 3 sum 35\nask 1 rows 3 sum 20\n",
    ),
    (
        "ask|host:2|--workers=16|--query=sum host=3|--seed|00000000000000000000000000000000000000000000000000000000000000FF",
        INPUT,
        0,
        "ask 0 rows 3 sum 15\n",
    ),
    (
        "ask|host:2|--query|count host=3|--capacity|2",
        INPUT,
        5,
        "waldo: more rows than 2\n",
    ),
    (
        "ask|host:2|--query|count host=3|--capacity|3",
        INPUT,
        0,
        "ask 0 rows 3 count 2\n",
    ),
    (
        "ask|--query|count host=3|host:2",
        INPUT,
        2,
        "waldo: bad word 1\n",
    ),
    (
        "ask|host:2|--query|count host=3|--workers|17",
        INPUT,
        2,
        "waldo: bad word 5\n",
    ),
    (
        "ask|host:2|--seed|-1|--query|count host=3",
        INPUT,
        2,
        "waldo: bad word 3\n",
    ),
    // Schedules.
    (AGAIN, INPUT, 0, AGAIN_TEXT),
    (ANSWERED, INPUT, 0, ANSWERED_TEXT),
    (
        "replay|host:2|--query|count host=3|--schedule|d0 p0.0 p0.1 p0.2 d1 p1.0 l2.0 f2 f2",
        INPUT,
        0,
        "draw 0 place 0\ndraw 1 place 1\nlook 2 server 0 prefix 2\nask 2.0 again server 1 had 1 floor 2\n",
    ),
    (
        "replay|host:2|--query|count host=3|--schedule|d0 p0.0 p0.0 f1 f1",
        INPUT,
        0,
        "draw 0 place 0\n",
    ),
    (
        "replay|host:2|--query|count host=3|--schedule|a0.0",
        INPUT,
        2,
        "waldo: step 0 not allowed\n",
    ),
    (
        "replay|host:2|--query|count host=3|--schedule|d0 p0.0 p0.1 p0.2 d0 p0.0 p0.1 p0.2 d0 p0.0 p0.1 p0.2 d0",
        INPUT,
        2,
        "waldo: step 12 not allowed\n",
    ),
    (
        "replay|host:2|--schedule|f0 f0 f0 a0.1|--query|count host=3",
        INPUT,
        2,
        "waldo: step 3 not allowed\n",
    ),
    (
        "replay|host:2|--query|sum host=3|--schedule|d0 p0.2 p0.1 p0.0 l5.1 f5 f5 f5 a5.0 d9 a5.0 p9.1 p9.0 p9.2 f5 f5 f5 a5.0",
        INPUT,
        0,
        "draw 0 place 0\nlook 5 server 1 prefix 1\nask 5.0 rows 1 sum 10\ndraw 9 place 1\nask 5.1 rows 1 sum 10\nask 5.2 rows 2 sum 10\n",
    ),
    (
        "replay|host:2|--query|count host=3",
        INPUT,
        2,
        "waldo: missing --schedule\n",
    ),
    (
        "replay|host:2|--query|count host=3|--schedule|d16",
        INPUT,
        2,
        "waldo: bad word 5\n",
    ),
    // Rows that are made: the input is not read.
    (
        "make|host:2|--number|7|--rows|4096|--query|sum host=3",
        INPUT,
        0,
        "ask 0 rows 4096 sum 9263104\n",
    ),
    (
        "make|a:8,b:1|--rows|3|--number|4294967295|--query|sum a<=0 b=1|--query|count a=1",
        "",
        0,
        "ask 0 rows 3 sum 4294966297\nask 1 rows 3 count 1\n",
    ),
    (
        "make|host:5|--number|1|--rows|65536|--query|count host=0|--query|sum host<=1",
        "",
        0,
        "ask 0 rows 65536 count 2048\nask 1 rows 65536 sum 138311680\n",
    ),
    ("make|host:2", "", 2, "waldo: missing --query\n"),
    // A race, which run_still never has.
    ("race", INPUT, 2, "waldo: bad word 0\n"),
    // What servers see: one chunk, and key messages of 40 and 64 words.
    (
        "trace|host:2|--query|count host=3",
        INPUT,
        0,
        "trace 0 server 0 visits 2 words 54\ntrace 0 server 1 visits 2 words 54\ntrace 0 server 2 visits 2 words 54\n",
    ),
    (
        "trace|host:2,level:1|--query|sum host=3 level=1",
        "host,level,value\n3,1,10\n3,0,20\n1,1,40\n3,1,80\n",
        0,
        "trace 0 server 0 visits 6 words 114\ntrace 0 server 1 visits 6 words 114\ntrace 0 server 2 visits 6 words 114\n",
    ),
    (
        "trace|host:2|--query|count host=3",
        "host,value\n",
        0,
        "trace 0 server 0 visits 0 words 42\ntrace 0 server 1 visits 0 words 42\ntrace 0 server 2 visits 0 words 42\n",
    ),
    ("trace|host:2", INPUT, 2, "waldo: missing --query\n"),
    (
        "trace|host:2|--query|count host=3",
        "host,value\n4,10\n",
        5,
        "waldo: record 1 Domain\n",
    ),
];

// The words of a text, cut at each bar; none for the empty text.
pub(crate) fn words_of(alloc: Global, text: &str) -> Result<Vec<String>, Memory> {
    let mut words = Vec::new(alloc);
    if text.is_empty() {
        return Ok(words);
    }
    for word in text.split('|') {
        words.push(String::from_str(alloc, word)?)?;
    }
    Ok(words)
}

// Sixteen wires that alter nothing.
pub(crate) fn straight_wires(alloc: Global) -> Result<Vec<StraightWire>, Memory> {
    let mut wires = Vec::new(alloc);
    for _ in 0..16 {
        wires.push(StraightWire::new())?;
    }
    Ok(wires)
}

fn record_wires(alloc: Global) -> Result<Vec<RecordWire>, Memory> {
    let mut wires = Vec::new(alloc);
    for _ in 0..16 {
        wires.push(RecordWire::new(alloc))?;
    }
    Ok(wires)
}

// Sixteen wires that keep their messages, of which the first adds each amount to a word of a message.
pub(crate) fn shift_wires(
    alloc: Global,
    amounts: &[(u64, u64, u128)],
) -> Result<Vec<ShiftWire<RecordWire>>, Memory> {
    let mut wires = Vec::new(alloc);
    for i in 0..16 {
        let mut shifts = Shifts::new(alloc);
        for (message, word, amount) in amounts {
            if i == 0 {
                shifts.push(Shift {
                    message: *message,
                    word: *word,
                    amount: *amount,
                })?;
            }
        }
        wires.push(ShiftWire::over(alloc, RecordWire::new(alloc), shifts))?;
    }
    Ok(wires)
}

// The status and the text of a run over these wires, of whose source and sink the reads and puts with these numbers fail.
pub(crate) fn runs<R: Abort + Threads + Sync, W: Wire>(
    rt: &R,
    alloc: Global,
    case: &Case,
    wires: &mut Vec<W>,
    reads: &[u64],
    puts: &[u64],
) -> Result<(), Memory> {
    let (words, input, status, text) = *case;
    let list = words_of(alloc, words)?;
    let mut source = MemorySource::new(alloc, input.as_bytes(), reads)?;
    let mut sink = MemorySink::new(alloc, ROOM, puts)?;
    let mut trace = Trace::new(alloc);
    assert_eq!(rt; wires.len(), 16);
    assert_eq!(rt;
        run_still(rt, alloc, &list, &mut source, &mut sink, wires, &mut trace),
        status,
        "{words}"
    );
    assert!(rt; sink.bytes() == text.as_bytes(), "{words}");
    Ok(())
}

pub(crate) fn straight<R: Abort + Threads + Sync>(
    rt: &R,
    alloc: Global,
    case: &Case,
    reads: &[u64],
    puts: &[u64],
) -> Result<(), Memory> {
    let mut wires = straight_wires(alloc)?;
    runs(rt, alloc, case, &mut wires, reads, puts)
}

#[test]
fn answers_and_refusals(rt: HostRuntime) -> Result<(), Fail> {
    for case in &CASES {
        straight(&rt, rt.alloc(), case, &[], &[])
            .ok()
            .ok_or("memory")?;
    }
    Ok(())
}

#[test]
fn faults(rt: HostRuntime) -> Result<(), Fail> {
    let alloc = rt.alloc();
    let count = (COUNT, INPUT, 0, "ask 0 rows 3 count 2\n");
    let cases: [(Case, &[u64], &[u64]); 6] = [
        ((COUNT, INPUT, 3, "waldo: read fault\n"), &[1], &[]),
        (count, &[2], &[]), // nothing is read after the end
        ((COUNT, INPUT, 4, ""), &[], &[0]),
        (count, &[], &[1]), // the text is put in one piece
        ((NOTHING_SAID, "host,value\n", 4, ""), &[], &[0]), // and so is an empty one
        (("ask|host:9", INPUT, 2, ""), &[0], &[0]),
    ];
    for (case, reads, puts) in &cases {
        straight(&rt, alloc, case, reads, puts)
            .ok()
            .ok_or("memory")?;
    }
    Ok(())
}

// The numbers of words of the messages of a run: those of the first wire, and none on the others.
pub(crate) fn lengths<R: Abort + Threads + Sync>(
    rt: &R,
    alloc: Global,
    case: &Case,
    lengths: &[usize],
) -> Result<(), Memory> {
    let mut wires = record_wires(alloc)?;
    runs(rt, alloc, case, &mut wires, &[], &[])?;
    assert_eq!(rt; wires.len(), 16);
    let messages = wires[0].messages();
    assert_eq!(rt; messages.len(), lengths.len());
    for (message, length) in messages.iter().zip(lengths) {
        assert_eq!(rt; message.sent.len(), *length);
        assert_eq!(rt; message.received.len(), *length);
    }
    for wire in wires.iter().skip(1) {
        assert!(rt; wire.messages().is_empty());
    }
    Ok(())
}

#[test]
fn messages(rt: HostRuntime) -> Result<(), Fail> {
    let alloc = rt.alloc();
    let cases: [(Case, &[usize]); 4] = [
        (
            (COUNT, INPUT, 0, "ask 0 rows 3 count 2\n"),
            &[40, 40, 40, 3, 3, 3, 1, 1, 1, 3, 3, 3, 1, 1, 1],
        ),
        (
            (COUNT, "host,value\n", 0, "ask 0 rows 0 count 0\n"),
            &[40, 40, 40, 0, 0, 0, 1, 1, 1, 0, 0, 0, 1, 1, 1],
        ),
        (
            (
                "ask|host:2,level:1|--query|sum host=3 level=1",
                "host,level,value\n3,1,10\n3,0,20\n1,1,40\n3,1,80\n",
                0,
                "ask 0 rows 4 sum 90\n",
            ),
            &[
                64, 64, 64, 4, 4, 4, 4, 4, 4, 4, 4, 4, 1, 1, 1, 4, 4, 4, 4, 4, 4, 4, 4, 4, 1, 1, 1,
            ],
        ),
        ((COUNT, "", 5, "waldo: header\n"), &[]),
    ];
    for (case, expected) in &cases {
        lengths(&rt, alloc, case, expected).ok().ok_or("memory")?;
    }
    Ok(())
}

// The key of the one predicate: the number of the first two words of its weight's seed, made odd.
pub(crate) const KEY: u128 = 11186861279801934813;

#[test]
fn alterations(rt: HostRuntime) -> Result<(), Fail> {
    let alloc = rt.alloc();
    let cases: [(Case, &[(u64, u64, u128)]); 6] = [
        (
            (
                COUNT,
                INPUT,
                7,
                "ask 0 rows 3 altered total 3 weighted 22373722559603869626\n",
            ),
            &[(6, 0, 1)],
        ),
        // The first of two queries: the second, whose messages are as they were sent, has its plain answer.
        (
            (
                "ask|host:2|--query|count host=3|--query|count host=1",
                INPUT,
                7,
                "ask 0 rows 3 altered total 3 weighted 22373722559603869626\nask 1 rows 3 count 1\n",
            ),
            &[(6, 0, 1)],
        ),
        // Made good in the second run: the limit of the check.
        (
            (COUNT, INPUT, 0, "ask 0 rows 3 count 3\n"),
            &[(6, 0, 1), (12, 0, KEY)],
        ),
        // The relation is kept, and the total's signed reading is 2^64 and more.
        (
            (
                COUNT,
                INPUT,
                7,
                "ask 0 rows 3 altered total 18446744073709551618 weighted 206361167016597191147065126915094677434\n",
            ),
            &[(6, 0, 1 << 64), (12, 0, KEY << 64)],
        ),
        // What servers see of an altered query and of one that is not, with the line of the first.
        (
            (
                "trace|host:2|--query|count host=3|--query|sum host<=1",
                INPUT,
                7,
                "ask 0 rows 3 altered total 3 weighted 22373722559603869626\n\
                 trace 0 server 0 visits 2 words 54\n\
                 trace 0 server 1 visits 2 words 54\n\
                 trace 0 server 2 visits 2 words 54\n\
                 trace 1 server 0 visits 4 words 62\n\
                 trace 1 server 1 visits 4 words 62\n\
                 trace 1 server 2 visits 4 words 62\n",
            ),
            &[(6, 0, 1)],
        ),
        // A second that a count of one predicate does not use, made good at the opening.
        ((COUNT, INPUT, 0, "ask 0 rows 3 count 2\n"), &[(3, 0, 1)]),
    ];
    for (case, amounts) in &cases {
        let mut wires = shift_wires(alloc, amounts).ok().ok_or("memory")?;
        runs(&rt, alloc, case, &mut wires, &[], &[])
            .ok()
            .ok_or("memory")?;
    }
    Ok(())
}

// A day of readings: a row each 15 minutes of 16 hosts and 5 levels in turn.
fn day(alloc: Global) -> Result<String, Memory> {
    let mut text = String::from_str(alloc, "time,host,level,value\n")?;
    for i in 0..200u64 {
        writeln!(
            text,
            "{},{},{},{}",
            1_700_000_000 + 900 * i,
            i % 16,
            i % 5,
            100 + i
        )?;
    }
    Ok(text)
}

#[test]
fn an_interval_of_a_day(rt: HostRuntime) -> Result<(), Fail> {
    let alloc = rt.alloc();
    let words = words_of(
        alloc,
        "ask|time:8@1700000000/3600,host:4,level:3|--query|sum time=1700000000..1700086399 host=3 level<=2",
    )
    .ok()
    .ok_or("memory")?;
    let text = day(alloc).ok().ok_or("memory")?;
    let mut source = SureSource::new(alloc, text.as_bytes())
        .ok()
        .ok_or("memory")?;
    let mut sink = MemorySink::new(alloc, 1000, &[]).ok().ok_or("memory")?;
    let mut wires = straight_wires(alloc).ok().ok_or("memory")?;
    let mut trace = Trace::new(alloc);
    assert_eq!(&rt; wires.len(), 16);
    assert_eq!(&rt;
        run_still(
            &rt,
            alloc,
            &words,
            &mut source,
            &mut sink,
            &mut wires,
            &mut trace
        ),
        0
    );
    assert!(&rt; sink.bytes() == b"ask 0 rows 200 sum 453\n".as_slice());
    Ok(())
}

// `rows` rows, row i of host i modulo 4 and with value i.
fn hosts(alloc: Global, rows: u64) -> Result<String, Memory> {
    let mut text = String::from_str(alloc, "host,value\n")?;
    for i in 0..rows {
        writeln!(text, "{},{}", i % 4, i)?;
    }
    Ok(text)
}

// The words over these rows put this text. What the servers see of the queries.
pub(crate) fn answers<R: Abort + Threads + Sync>(
    rt: &R,
    alloc: Global,
    words: &str,
    input: &str,
    text: &str,
) -> Result<Trace, Memory> {
    let list = words_of(alloc, words)?;
    let mut source = SureSource::new(alloc, input.as_bytes())?;
    let mut sink = MemorySink::new(alloc, ROOM, &[])?;
    let mut wires = straight_wires(alloc)?;
    let mut trace = Trace::new(alloc);
    assert_eq!(rt; wires.len(), 16);
    assert_eq!(rt;
        run_still(
            rt,
            alloc,
            &list,
            &mut source,
            &mut sink,
            &mut wires,
            &mut trace
        ),
        0
    );
    assert!(rt; sink.bytes() == text.as_bytes(), "{words}");
    Ok(trace)
}

// One chunk, and one row more, scanned in one part and in 16.
#[test]
fn chunks_and_workers(rt: HostRuntime) -> Result<(), Fail> {
    let alloc = rt.alloc();
    let cases = [
        (64, "ask 0 rows 64 sum 480\n"),
        (65, "ask 0 rows 65 sum 544\n"),
    ];
    for (rows, text) in cases {
        let input = hosts(alloc, rows).ok().ok_or("memory")?;
        for words in [
            "ask|host:2|--query|sum host=0|--workers|1",
            "ask|host:2|--query|sum host=0|--workers|16",
        ] {
            answers(&rt, alloc, words, &input, text)
                .ok()
                .ok_or("memory")?;
        }
    }
    Ok(())
}

// This many rows, each of this text.
fn rows_alike(alloc: Global, rows: u64, row: &str) -> Result<String, Memory> {
    let mut text = String::from_str(alloc, "host,value\n")?;
    for _ in 0..rows {
        writeln!(text, "{row}")?;
    }
    Ok(text)
}

const SUM_SEEN: &str =
    "trace 0 server 0 visits 12 words 614\ntrace 0 server 1 visits 12 words 614\ntrace 0 server 2 visits 12 words 614\n";

const COUNT_SEEN: &str =
    "trace 0 server 0 visits 6 words 562\ntrace 0 server 1 visits 6 words 562\ntrace 0 server 2 visits 6 words 562\n";

// Neither the values of the rows nor the bounds of the query change what the servers see.
#[test]
fn traces(rt: HostRuntime) -> Result<(), Fail> {
    let alloc = rt.alloc();
    let cases = [
        ("trace|host:2|--query|sum host=0..1", "0,0", SUM_SEEN),
        (
            "trace|host:2|--query|sum host=2..3",
            "3,4294967295",
            SUM_SEEN,
        ),
        ("trace|host:2|--query|count host=3", "0,0", COUNT_SEEN),
    ];
    for (words, row, text) in cases {
        let input = rows_alike(alloc, 130, row).ok().ok_or("memory")?;
        answers(&rt, alloc, words, &input, text)
            .ok()
            .ok_or("memory")?;
    }
    Ok(())
}

// What the servers see where words, each over as many rows of one text, put these texts.
fn traces_of<R: Abort + Threads + Sync>(
    rt: &R,
    alloc: Global,
    rows: u64,
    cases: [(&str, &str, &str); 2],
) -> Result<Vec<Trace>, Memory> {
    let mut traces = Vec::new(alloc);
    for (words, row, text) in cases {
        let input = rows_alike(alloc, rows, row)?;
        traces.push(answers(rt, alloc, words, &input, text)?)?;
    }
    Ok(traces)
}

// Two queries of one shape, over other values: the servers see the same of them. Each run visits two chunks of one column and then of
// the values' column.
#[test]
fn seen_alike(rt: HostRuntime) -> Result<(), Fail> {
    let cases = [
        (
            "ask|host:2|--query|sum host=0..1",
            "0,0",
            "ask 0 rows 65 sum 0\n",
        ),
        (
            "ask|host:2|--query|sum host=2..3",
            "3,2",
            "ask 0 rows 65 sum 130\n",
        ),
    ];
    let traces = traces_of(&rt, rt.alloc(), 65, cases).ok().ok_or("memory")?;
    assert_eq!(&rt; traces.len(), 2);
    assert!(&rt; same(&traces[0], &traces[1]));
    assert_eq!(&rt; traces[0].visits(2).take(9).count(), 8);
    assert_eq!(&rt; traces[0].lengths(2).len(), 7);
    Ok(())
}

// One schedule over other rows and with other bounds: the servers see the same of it. The first answer is over one row, the second
// over two; each run of each visits the chunk of one column and that of the values.
#[test]
fn schedules_seen_alike(rt: HostRuntime) -> Result<(), Fail> {
    let cases = [
        (
            "replay|host:2|--query|sum host=0..1|--schedule|d0 p0.0 p0.1 p0.2 f1 f1 f1 a1.0 d0 p0.0 p0.1 p0.2 f1 f1 f1 a1.0",
            "0,7",
            "draw 0 place 0\nask 1.0 rows 1 sum 7\ndraw 0 place 1\nask 1.1 rows 2 sum 14\n",
        ),
        (
            "replay|host:2|--query|sum host=2..3|--schedule|d0 p0.0 p0.1 p0.2 f1 f1 f1 a1.0 d0 p0.0 p0.1 p0.2 f1 f1 f1 a1.0",
            "1,9",
            "draw 0 place 0\nask 1.0 rows 1 sum 0\ndraw 0 place 1\nask 1.1 rows 2 sum 0\n",
        ),
    ];
    let traces = traces_of(&rt, rt.alloc(), 2, cases).ok().ok_or("memory")?;
    assert_eq!(&rt; traces.len(), 2);
    assert!(&rt; same(&traces[0], &traces[1]));
    assert_eq!(&rt; traces[0].visits(2).take(9).count(), 8);
    assert_eq!(&rt; traces[0].lengths(2).len(), 14);
    Ok(())
}

#[test]
fn a_host_that_is_no_text(rt: HostRuntime) -> Result<(), Fail> {
    let alloc = rt.alloc();
    let words = words_of(alloc, COUNT).ok().ok_or("memory")?;
    let mut bytes = Vec::from_slice(alloc, INPUT.as_bytes())?;
    assert_eq!(&rt; bytes.len(), 25);
    bytes[16] = 255;
    let mut source = SureSource::new(alloc, &bytes).ok().ok_or("memory")?;
    let mut sink = MemorySink::new(alloc, 1000, &[]).ok().ok_or("memory")?;
    let mut wires = straight_wires(alloc).ok().ok_or("memory")?;
    let mut trace = Trace::new(alloc);
    assert_eq!(&rt; wires.len(), 16);
    assert_eq!(&rt;
        run_still(
            &rt,
            alloc,
            &words,
            &mut source,
            &mut sink,
            &mut wires,
            &mut trace
        ),
        5
    );
    assert!(&rt; sink.bytes() == b"waldo: record 2 Text\n".as_slice());
    Ok(())
}

#[test]
fn a_byte_too_many(rt: HostRuntime) -> Result<(), Fail> {
    let alloc = rt.alloc();
    let words = words_of(alloc, COUNT).ok().ok_or("memory")?;
    let mut bytes = Vec::with_capacity(alloc, 16_777_217)?;
    bytes.resize(16_777_217, b'\n')?;
    let mut source = SureSource::new(alloc, &bytes).ok().ok_or("memory")?;
    let mut sink = MemorySink::new(alloc, 1000, &[]).ok().ok_or("memory")?;
    let mut wires = straight_wires(alloc).ok().ok_or("memory")?;
    let mut trace = Trace::new(alloc);
    assert_eq!(&rt; wires.len(), 16);
    assert_eq!(&rt;
        run_still(
            &rt,
            alloc,
            &words,
            &mut source,
            &mut sink,
            &mut wires,
            &mut trace
        ),
        5
    );
    assert!(&rt; sink.bytes() == b"waldo: input too long\n".as_slice());
    Ok(())
}
