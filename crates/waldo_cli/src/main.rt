//! The program: command words, standard input and standard output.
//!
//! It never looks at a word or a byte itself: it hands the words, a source over standard input, a sink over standard
//! output, sixteen wires that alter nothing and a gate that holds no one to the top call, and ends with the status that this
//! answers.
#![tactic(auto)]

mod ends;
mod unknown;

ghost use Rattle.std.specs.Prelude.{◌≡◌, IfOk, length};

use ends::{Reading, Writing};
use ring128::Memory;
use std::alloc::Global;
use std::process::ExitCode;
use std::{env, io};
use visit_trace::Trace;
use waldo_run::{OpenGate, run};
use wire_line::StraightWire;

// The command words, without the program's name.
fn words_of(rt: &HostRuntime) -> io::Result<Vec<String>> {
    let mut words = Vec::new(rt.alloc());
    for word in env::args(rt)?.skip(1) {
        words.push(word)?;
    }
    Ok(words)
}

fn read_words(rt: &HostRuntime) -> io::Result<Vec<String>> {
    match words_of(rt) {
        Err(error) if error.kind() == io::ErrorKind::InvalidData => {
            Ok(unknown::command(rt.alloc())?)
        }
        words => words,
    }
}

// The sixteen wires of the top call, which alter nothing.
fn straight_wires(alloc: Global) -> Result<Vec<StraightWire>, Memory>
    ensures { IfOk result (λ wires. length wires.items ≡ 16) }
{
    let mut wires = Vec::with_capacity(alloc, 16)?;
    for _i in 0..16u8 {
        wires.push(StraightWire::new())?;
    }
    Ok(wires)
}

/// Ends with the status of the top call, and with 6, putting nothing, where there is no memory for the words or the wires.
fn main(rt: HostRuntime) -> ExitCode {
    let Ok(words) = read_words(&rt) else {
        return ExitCode::from(6);
    };
    let Ok(mut wires) = straight_wires(rt.alloc()) else {
        return ExitCode::from(6);
    };
    let mut source = Reading::new(rt.stdin());
    let mut sink = Writing::new(rt.stdout());
    let mut trace = Trace::new(rt.alloc());
    let status = run(
        &rt,
        rt.alloc(),
        &words,
        &mut source,
        &mut sink,
        &mut wires,
        &mut trace,
        &OpenGate,
    );
    ExitCode::from(status)
}
