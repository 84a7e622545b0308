//! A run of the program, from bytes in to bytes out.
ghost use Rattle.std.specs.Prelude.{◌≡◌, ◌≢◌, ◌≤◌, ◌⊎◌, ℕ, List, true, All, map, string_bytes, Ok, IfOk, OnErr, IfSome, IsErr, length};
ghost use Rattle.report_lines.specs.Line.{text_of};
ghost use Rattle.schedule_play.specs.History.{Done};
ghost use Rattle.table_schema.specs.declared.rows.Row.{Row};
ghost use Rattle.wire_line.specs.Lists.{SomeRose};
ghost use Rattle.visit_trace.specs.Seen.{GrewBy};
ghost use Rattle.waldo_run.specs.Grown.{SeesIn, Traces, TracesOf};
ghost use Rattle.waldo_run.specs.Complete.{Completes, IsAccepted};
ghost use Rattle.waldo_run.specs.Headline.{AsksOver, plain_answers};
ghost use Rattle.waldo_run.specs.Run.{Answers, Breaks, HasSchedule, IsUnchanged, Puts, ReadsNothing, Refuses, Replies, Runs, plain_reply};
ghost use Rattle.waldo_run.specs.Tampered.{AltersNothing, CarriedBy, UnalteredBy};
ghost use Rattle.waldo_run.specs.Tasks.{AreWidthsIn, common_in, reads_input, rows_in, rows_made};
ghost use Rattle.waldo_run.specs.Words.{IsBuilt, command_in};
ghost use Rattle.waldo_words.specs.Legal.{IsLegal};
ghost use Rattle.waldo_words.specs.declared.command.Command.{Command};
ghost use Rattle.waldo_words.specs.declared.command.Command.TheVariants as commands;
ghost use Rattle.fault_count.specs.Streams.{HasFailed, change};

use crate::finish::finish;
use crate::made::made_rows;
use crate::refusals::{refused_rows, refused_words, unread_input};
use crate::reply::Reply;
use crate::task::answer_rows;
use crate::words::read_command;
use report_lines::Sink;
use ring128::Memory;
use row_source::{Source, read_all, read_rows};
use std::alloc::Global;
use std::thread::Threads;
use visit_trace::Trace;
use waldo_words::{Command, Common};
use wire_line::Wire;

// What the options have in common.
fn common_of(command: &Command) -> &Common
    ensures { result.now ≡ common_in command.now }
{
    match command {
        Command::Ask(common)
        | Command::Replay { common, .. }
        | Command::Race { common, .. }
        | Command::Make { common, .. }
        | Command::Trace(common)
        | Command::Tamper { common, .. }
        | Command::Tree { common, .. }
        | Command::Groups { common, .. } => common,
    }
}

// The reply of a command to all bytes of an input.
fn answer_bytes<R: Threads + Sync, W: Wire>(
    rt: &R,
    alloc: Global,
    command: &Command,
    bytes: Vec<u8>,
    wires: &mut Vec<W>,
    trace: &mut Trace,
) -> Result<Reply, Memory>
    requires legal { IsLegal command.now }
    requires built { IsBuilt command.now }
    requires wires { length wires.old.items ≡ 16 }
    ensures wires { length wires.new.items ≡ 16 }
    ensures answers { Answers command.now (rows_in (common_in command.now) bytes.items)
        (CarriedBy W.sight (Ok command.now) wires.old.items wires.new.items)
        (UnalteredBy W.sight (Ok command.now) wires.old.items wires.new.items) result }
    ensures trace { SeesIn command.now (λ part. GrewBy trace.old trace.new part result) (rows_in (common_in command.now) bytes.items) }
{
    let common = common_of(command);
    let widths = common.schema.widths();
    let rows = read_rows(alloc, &common.schema, common.capacity, &bytes);
    drop(bytes); // the rows stand for them
    match rows {
        Ok(rows) => answer_rows(rt, alloc, command, &widths, &rows, wires, trace),
        Err(fault) => refused_rows(alloc, fault),
    }
}

// The reply of a command that reads its rows.
fn answer_input<R: Threads + Sync, S: Source, W: Wire>(
    rt: &R,
    alloc: Global,
    command: &Command,
    source: &mut S,
    wires: &mut Vec<W>,
    trace: &mut Trace,
) -> Result<Reply, Memory>
    requires legal { IsLegal command.now }
    requires built { IsBuilt command.now }
    requires reads { reads_input command.now ≡ true }
    requires wires { length wires.old.items ≡ 16 }
    ensures wires { length wires.new.items ≡ 16 }
    ensures reply { IfOk result (λ reply. Replies (Ok command.now) (change S.sight source.old source.new)
        (CarriedBy W.sight (Ok command.now) wires.old.items wires.new.items)
        (UnalteredBy W.sight (Ok command.now) wires.old.items wires.new.items) reply) }
    ensures memory { OnErr result (Breaks (Ok command.now) (change S.sight source.old source.new)
        (CarriedBy W.sight (Ok command.now) wires.old.items wires.new.items)) }
    ensures trace { TracesOf (Ok command.now) (change S.sight source.old source.new) trace.old trace.new result }
{
    match read_all(alloc, source) {
        Ok(bytes) => answer_bytes(rt, alloc, command, bytes, wires, trace),
        Err(fault) => unread_input(alloc, fault),
    }
}

// The reply of a command that makes `count` rows by a number.
fn answer_made<R: Threads + Sync, W: Wire>(
    rt: &R,
    alloc: Global,
    command: &Command,
    number: u32,
    count: u32,
    wires: &mut Vec<W>,
    trace: &mut Trace,
) -> Result<Reply, Memory>
    requires legal { IsLegal command.now }
    requires made { command.now ≡ commands.Make (common_in command.now) number count }
    requires wires { length wires.old.items ≡ 16 }
    ensures wires { length wires.new.items ≡ 16 }
    ensures answers { Answers command.now (Ok (rows_made command.now))
        (CarriedBy W.sight (Ok command.now) wires.old.items wires.new.items)
        (UnalteredBy W.sight (Ok command.now) wires.old.items wires.new.items) result }
    ensures trace { SeesIn command.now (λ part. GrewBy trace.old trace.new part result) (Ok (rows_made command.now)) }
{
    let widths = common_of(command).schema.widths();
    let rows = made_rows(alloc, &widths, number, count)?;
    answer_rows(rt, alloc, command, &widths, &rows, wires, trace)
}

// The reply of a command.
fn answer<R: Threads + Sync, S: Source, W: Wire>(
    rt: &R,
    alloc: Global,
    command: &Command,
    source: &mut S,
    wires: &mut Vec<W>,
    trace: &mut Trace,
) -> Result<Reply, Memory>
    requires legal { IsLegal command.now }
    requires built { IsBuilt command.now }
    requires wires { length wires.old.items ≡ 16 }
    ensures wires { length wires.new.items ≡ 16 }
    ensures reply { IfOk result (λ reply. Replies (Ok command.now) (change S.sight source.old source.new)
        (CarriedBy W.sight (Ok command.now) wires.old.items wires.new.items)
        (UnalteredBy W.sight (Ok command.now) wires.old.items wires.new.items) reply) }
    ensures memory { OnErr result (Breaks (Ok command.now) (change S.sight source.old source.new)
        (CarriedBy W.sight (Ok command.now) wires.old.items wires.new.items)) }
    ensures unread { ReadsNothing (Ok command.now) → IsUnchanged (change S.sight source.old source.new) }
    ensures trace { TracesOf (Ok command.now) (change S.sight source.old source.new) trace.old trace.new result }
{
    match command {
        Command::Make { number, rows, .. } => answer_made(
            rt, alloc, command, *number, *rows, wires, trace,
        ),
        _ => answer_input(rt, alloc, command, source, wires, trace),
    }
}

// The reply to the words.
fn reply_in<R: Threads + Sync, S: Source, W: Wire>(
    rt: &R,
    alloc: Global,
    words: &[String],
    source: &mut S,
    wires: &mut Vec<W>,
    trace: &mut Trace,
) -> Result<Reply, Memory>
    requires wires { length wires.old.items ≡ 16 }
    ensures wires { length wires.new.items ≡ 16 }
    ensures reply { IfOk result (λ reply. Replies (command_in (map string_bytes words.now)) (change S.sight source.old source.new)
        (CarriedBy W.sight (command_in (map string_bytes words.now)) wires.old.items wires.new.items)
        (UnalteredBy W.sight (command_in (map string_bytes words.now)) wires.old.items wires.new.items) reply) }
    ensures memory { OnErr result (Breaks (command_in (map string_bytes words.now)) (change S.sight source.old source.new)
        (CarriedBy W.sight (command_in (map string_bytes words.now)) wires.old.items wires.new.items)) }
    ensures unread { ReadsNothing (command_in (map string_bytes words.now)) → IsUnchanged (change S.sight source.old source.new) }
    ensures trace { TracesOf (command_in (map string_bytes words.now)) (change S.sight source.old source.new) trace.old trace.new result }
{
    match read_command(alloc, words) {
        Ok(command) => answer(rt, alloc, &command, source, wires, trace),
        Err(fault) => refused_words(alloc, fault),
    }
}

/// Runs the program on these words, this source, this sink and 16 wires. The messages of an answer go over its actor's wire: those of
/// `ask` and `make` over the first one. At the return the list has the same 16 wires, each in its place. The trace grows by what the
/// servers see of each query.
pub fn run_still<R: Threads + Sync, S: Source, K: Sink, W: Wire>(
    rt: &R,
    alloc: Global,
    words: &[String],
    source: &mut S,
    sink: &mut K,
    wires: &mut Vec<W>,
    trace: &mut Trace,
) -> u8
    requires wires { length wires.old.items ≡ 16 }
    ensures wires { length wires.new.items ≡ 16 }
    // The headline: the words say `ask` or `make`, these are the rows, no read failed and no wire was altered. Then, unless out of memory,
    // the plain answer of each query over all rows was put, with status 0, or a prefix of it where the put failed, with status 4.
    ensures asked { result ≢ 6 → ¬ HasFailed S.sight source.old source.new → ¬ SomeRose W.sight wires.old.items wires.new.items
        → (command : Command) (rows : List Row) → command_in (map string_bytes words.now) ≡ Ok command
        → AsksOver command (S.sight.bytes source.old) rows
        → Puts (plain_answers (common_in command).queries rows) (change K.sight sink.old sink.new) result }
    // Out of memory nothing is put, and the first messages of the command may have been carried.
    ensures memory { result ≡ 6 → IsUnchanged (change K.sight sink.old sink.new) }
    ensures broken { result ≡ 6 → Breaks (command_in (map string_bytes words.now)) (change S.sight source.old source.new)
        (CarriedBy W.sight (command_in (map string_bytes words.now)) wires.old.items wires.new.items) }
    // Else the source was met in one of four ways, each answer's messages went over its actor's wire, and the reply to the words, to what
    // was read and to what the answers opened was put: the replies of the core to the command's steps, in order. An answer whose messages
    // were received as they were sent is the plain one, whatever was altered before; and where no wire was altered the reply is the plain
    // one to what was read, whether or not the source reports its bytes.
    ensures run { result ≢ 6 → Runs (command_in (map string_bytes words.now)) (change S.sight source.old source.new)
        (CarriedBy W.sight (command_in (map string_bytes words.now)) wires.old.items wires.new.items)
        (UnalteredBy W.sight (command_in (map string_bytes words.now)) wires.old.items wires.new.items)
        (change K.sight sink.old sink.new) result }
    // Where the source reports its bytes, no read failed and nothing was altered, the reply is the plain one, a function of the
    // words and of these bytes.
    ensures plain { result ≢ 6 → AltersNothing (command_in (map string_bytes words.now))
        → ¬ HasFailed S.sight source.old source.new → ¬ SomeRose W.sight wires.old.items wires.new.items
        → IfSome (S.sight.bytes source.old) (λ bytes.
        Puts (plain_reply (command_in (map string_bytes words.now)) bytes) (change K.sight sink.old sink.new) result) }
    // Nothing else can come of accepted words over an accepted input whose steps all have a case, where no read, no put and no wire
    // had a fault: status 6, or status 0 with the whole plain text; where the command alters its own messages the reply to what they
    // opened, with status 0, or 7 where the check refuses a pair.
    ensures complete { ¬ HasFailed S.sight source.old source.new → ¬ HasFailed K.sight sink.old sink.new
        → ¬ SomeRose W.sight wires.old.items wires.new.items → (command : Command) (rows : List Row)
        → command_in (map string_bytes words.now) ≡ Ok command → IsAccepted command (S.sight.bytes source.old) rows
        → Completes command rows (CarriedBy W.sight (command_in (map string_bytes words.now)) wires.old.items wires.new.items)
        (UnalteredBy W.sight (command_in (map string_bytes words.now)) wires.old.items wires.new.items)
        (change K.sight sink.old sink.new) result }
    // A refused word, and nothing was read; or a step of a schedule without a case.
    ensures refused { result ≡ 2
        → IsErr (command_in (map string_bytes words.now)) ⊎ HasSchedule (command_in (map string_bytes words.now)) }
    ensures unread { ReadsNothing (command_in (map string_bytes words.now)) → IsUnchanged (change S.sight source.old source.new) }
    ensures read_fault { result ≡ 3 → HasFailed S.sight source.old source.new }
    ensures write_fault { result ≡ 4 → HasFailed K.sight sink.old sink.new }
    ensures input { result ≡ 5 → IfSome (S.sight.bytes source.old) (Refuses (command_in (map string_bytes words.now))) }
    // A message was altered, by a wire or by the command itself.
    ensures altered { result ≡ 7 → ¬ AltersNothing (command_in (map string_bytes words.now))
        ⊎ SomeRose W.sight wires.old.items wires.new.items }
    // The trace grew by the traces of the queries that were answered, one after another: each follows from how many rows it was asked over,
    // from their widths, from its shape and, by buckets, from its column. Of refused words or rows the servers see nothing. Out of memory
    // it grew by a prefix of these.
    ensures trace { Traces (command_in (map string_bytes words.now)) (change S.sight source.old source.new) trace.old trace.new result }
{
    schedule_play::laws::asked_in_order();
    schedule_play::laws::asked_plainly();
    schedule_play::laws::plainly_played();
    match reply_in(rt, alloc, words, source, wires, trace) {
        Err(_) => 6,
        Ok(reply) => finish(alloc, &reply, sink),
    }
}
