//! Prints the messages of two queries, word by word. The gate compares what it prints with the file `stdout`, which holds the messages
//! that two other programs, written from the protocol alone, agree on.
#![tactic(auto)]

ghost use Rattle.std.specs.Prelude.{◌≡◌, IfOk, length};

use report_lines::SureSink;
use ring128::Memory;
use row_source::MemorySource;
use std::alloc::Global;
use std::fmt::Write;
use std::io;
use std::process::ExitCode;
use std::thread::Threads;
use visit_trace::Trace;
use waldo_run::run_still;
use wire_line::{Message, Peer, RecordWire};

const TWO_POINTS: &str = "ask|host:2,level:1|--query|sum host=3 level=1";

const TWO_POINTS_ROWS: &str = "host,level,value\n3,1,10\n3,0,20\n1,1,40\n3,1,80\n";

const THREE_KINDS: &str =
    "ask|host:2,level:1,time:3|--query|count host=3 level<=0 time=2..5|--seed|\
     00112233445566778899aabbccddeeff00112233445566778899aabbccddeeff";

const THREE_KINDS_ROWS: &str = "host,level,time,value\n3,0,2,10\n3,0,7,20\n3,1,4,5\n";

// The words of a line, which stand between bars.
fn words_of(alloc: Global, line: &str) -> Result<Vec<String>, Memory> {
    let mut words = Vec::new(alloc);
    for word in line.split('|') {
        words.push(String::from_str(alloc, word)?)?;
    }
    Ok(words)
}

fn name(peer: Peer) -> &'static str {
    match peer {
        Peer::Client => "client",
        Peer::Server0 => "server0",
        Peer::Server1 => "server1",
        Peer::Server2 => "server2",
    }
}

// A message in one line: its number, its sender and receiver, and its words.
fn line_of(alloc: Global, number: usize, message: &Message) -> Result<String, Memory> {
    let mut line = String::new(alloc);
    write!(
        line,
        "{number} {} {}",
        name(message.sender),
        name(message.receiver)
    )?;
    for word in message.received.as_slice() {
        write!(line, " {word}")?;
    }
    Ok(line)
}

// Sixteen wires that keep their messages.
fn record_wires(alloc: Global) -> Result<Vec<RecordWire>, Memory>
    ensures { IfOk result (λ wires. length wires.items ≡ 16) }
{
    let mut wires = Vec::with_capacity(alloc, 16)?;
    for _i in 0..16u8 {
        wires.push(RecordWire::new(alloc))?;
    }
    Ok(wires)
}

// The messages that a command over these rows sends over the first wire, a line each.
fn lines_of<R: Threads + Sync>(
    rt: &R,
    alloc: Global,
    words: &str,
    rows: &str,
) -> Result<Vec<String>, Memory> {
    let words = words_of(alloc, words)?;
    let mut source = MemorySource::new(alloc, rows.as_bytes(), &[])?;
    let mut sink = SureSink::new();
    let mut wires = record_wires(alloc)?;
    let mut trace = Trace::new(alloc);
    run_still(
        rt,
        alloc,
        &words,
        &mut source,
        &mut sink,
        &mut wires,
        &mut trace,
    );
    let mut lines = Vec::new(alloc);
    for (number, message) in wires[0].messages().iter().enumerate() {
        lines.push(line_of(alloc, number, message)?)?;
    }
    Ok(lines)
}

fn print_lines(rt: &HostRuntime, lines: &[String]) -> io::Result<()> {
    for line in lines {
        println!(rt; "{line}")?;
    }
    Ok(())
}

/// Ends with status 1 where there is no memory, or a line can't be printed.
fn main(rt: HostRuntime) -> ExitCode {
    let Ok(two) = lines_of(&rt, rt.alloc(), TWO_POINTS, TWO_POINTS_ROWS) else {
        return ExitCode::from(1);
    };
    let Ok(three) = lines_of(&rt, rt.alloc(), THREE_KINDS, THREE_KINDS_ROWS) else {
        return ExitCode::from(1);
    };
    if print_lines(&rt, &two).is_ok() && print_lines(&rt, &three).is_ok() {
        ExitCode::SUCCESS
    } else {
        ExitCode::from(1)
    }
}
