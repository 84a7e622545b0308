//! A run of `race`, from bytes in to bytes out.
ghost use Rattle.std.specs.Prelude.{◌≡◌, ◌≢◌, ◌≤◌, ◌⊎◌, [], true, All, List, if◌then◌else◌};
ghost use Rattle.std.specs.Prelude.{map, string_bytes, Ok, IfOk, IfSome, IsErr, OnErr, length};
ghost use Rattle.query_plan.specs.Query.{AreWidthsOf};
ghost use Rattle.race_play.specs.Askers.{CarriedEach};
ghost use Rattle.table_schema.specs.Widths.{Holds};
ghost use Rattle.waldo_words.specs.Legal.{IsLegal, IsRace};
ghost use Rattle.waldo_words.specs.Words.{command_of};
ghost use Rattle.waldo_words.specs.declared.command.Command.TheVariants as commands;
ghost use Rattle.visit_trace.specs.Seen.{Grew};
ghost use Rattle.wire_line.specs.Lists.{SomeRose};
ghost use Rattle.wire_line.specs.declared.message.Message.{Message};
ghost use Rattle.waldo_run.specs.Races.{CarriedIn, IsRacing, RaceCarries, RaceReplies, RacedIn, RacedOver, Races, SeesFirst, SeesUpTo};
ghost use Rattle.waldo_run.specs.Races.{begin_race, crew_of};
ghost use Rattle.waldo_run.specs.Run.{IsUnchanged, ReadsNothing, Refuses};
ghost use Rattle.waldo_run.specs.Tasks.{rows_in};
ghost use Rattle.fault_count.specs.Streams.{HasFailed, change};

use crate::finish::finish;
use crate::refusals::{refused_rows, refused_words, unread_input};
use crate::reply::Reply;
use race_play::{Crew, Gate, Race, Ran, race};
use report_lines::Sink;
use ring128::Memory;
use row_source::{Source, read_all, read_rows};
use std::alloc::Global;
use std::sync::Wait;
use std::thread::Threads;
use table_schema::{Row, Widths};
use visit_trace::Trace;
use waldo_words::{Command, Common, read_words};
use wire_line::Wire;

// The reply of a race that has come to an end.
fn reply_of(ran: Ran) -> Reply
    ensures { result ≡ record { status = if ran.altered then 7 else 0; report = ran.report } }
{
    Reply::new(if ran.altered { 7 } else { 0 }, ran.report)
}

// The reply of a race over its rows.
fn race_rows<R: Threads + Wait + Sync, W: Wire + Send, G: Gate + Sync>(
    rt: &R,
    alloc: Global,
    common: &Common,
    crew: Crew,
    widths: &Widths,
    rows: &[Row],
    gate: &G,
    wires: &mut Vec<W>,
    trace: &mut Trace,
) -> Result<Reply, Memory>
    requires legal { IsRace common.now crew.writers crew.askers crew.rounds }
    requires workers { crew.workers ≡ common.now.workers }
    requires widths { AreWidthsOf common.now.schema widths.now }
    requires held { All (Holds widths.now) rows.now }
    requires few { length rows.now ≤ common.now.capacity }
    requires wires { length wires.old.items ≡ 16 }
    ensures wires { length wires.new.items ≡ 16 }
    ensures raced { IfOk result (λ reply. (sent : List (List Message)) × CarriedEach W.sight wires.old.items wires.new.items sent
        × RacedOver common.now crew rows.now sent (Grew trace.old trace.new) reply) }
    ensures accepted { ¬ SomeRose W.sight wires.old.items wires.new.items → IfOk result (λ reply. reply.status ≢ 7) }
    ensures carried { (sent : List (List Message)) × CarriedEach W.sight wires.old.items wires.new.items sent
        × CarriedIn common.now crew (Ok rows.now) sent }
    ensures trace_first { OnErr result (SeesFirst common.now crew trace.old trace.new) }
{
    let setting = Race {
        widths: *widths,
        rows,
        queries: common.queries.as_slice(),
        master: common.seed,
        crew,
    };
    let ran = race(rt, alloc, &setting, gate, wires, trace)?;
    Ok(reply_of(ran))
}

// The reply of a race to all bytes of its input.
fn race_bytes<R: Threads + Wait + Sync, W: Wire + Send, G: Gate + Sync>(
    rt: &R,
    alloc: Global,
    common: &Common,
    crew: Crew,
    bytes: Vec<u8>,
    gate: &G,
    wires: &mut Vec<W>,
    trace: &mut Trace,
) -> Result<Reply, Memory>
    requires legal { IsRace common.now crew.writers crew.askers crew.rounds }
    requires workers { crew.workers ≡ common.now.workers }
    requires wires { length wires.old.items ≡ 16 }
    ensures wires { length wires.new.items ≡ 16 }
    ensures raced { IfOk result (λ reply. (sent : List (List Message)) × CarriedEach W.sight wires.old.items wires.new.items sent
        × RacedIn common.now crew (rows_in common.now bytes.items) sent (Grew trace.old trace.new) reply) }
    ensures accepted { ¬ SomeRose W.sight wires.old.items wires.new.items → IfOk result (λ reply. reply.status ≢ 7) }
    ensures carried { (sent : List (List Message)) × CarriedEach W.sight wires.old.items wires.new.items sent
        × ((sent ≡ []) ⊎ CarriedIn common.now crew (rows_in common.now bytes.items) sent) }
    ensures trace_first { OnErr result ((trace.new ≡ trace.old) ⊎ SeesFirst common.now crew trace.old trace.new) }
{
    let widths = common.schema.widths();
    let rows = read_rows(alloc, &common.schema, common.capacity, &bytes);
    drop(bytes); // the rows stand for them
    match rows {
        Ok(rows) => race_rows(rt, alloc, common, crew, &widths, &rows, gate, wires, trace),
        Err(fault) => refused_rows(alloc, fault),
    }
}

// The reply of a race to its input.
fn race_input<R: Threads + Wait + Sync, S: Source, W: Wire + Send, G: Gate + Sync>(
    rt: &R,
    alloc: Global,
    common: &Common,
    crew: Crew,
    source: &mut S,
    gate: &G,
    wires: &mut Vec<W>,
    trace: &mut Trace,
) -> Result<Reply, Memory>
    requires legal { IsRace common.now crew.writers crew.askers crew.rounds }
    requires crew { crew ≡ crew_of common.now crew.writers crew.askers crew.rounds }
    requires wires { length wires.old.items ≡ 16 }
    ensures wires { length wires.new.items ≡ 16 }
    ensures raced { IfOk result (RaceReplies (Ok (commands.Race common.now crew.writers crew.askers crew.rounds))
        (change S.sight source.old source.new) (CarriedEach W.sight wires.old.items wires.new.items)
        (Grew trace.old trace.new)) }
    ensures accepted { ¬ SomeRose W.sight wires.old.items wires.new.items → IfOk result (λ reply. reply.status ≢ 7) }
    ensures carried { RaceCarries (Ok (commands.Race common.now crew.writers crew.askers crew.rounds))
        (change S.sight source.old source.new) (CarriedEach W.sight wires.old.items wires.new.items) }
    ensures trace_first { OnErr result (SeesUpTo (Ok (commands.Race common.now crew.writers crew.askers crew.rounds))
        trace.old trace.new) }
{
    match read_all(alloc, source) {
        Ok(bytes) => race_bytes(rt, alloc, common, crew, bytes, gate, wires, trace),
        Err(fault) => unread_input(alloc, fault),
    }
}

// The reply of a race.
fn race_command<R: Threads + Wait + Sync, S: Source, W: Wire + Send, G: Gate + Sync>(
    rt: &R,
    alloc: Global,
    command: &Command,
    source: &mut S,
    gate: &G,
    wires: &mut Vec<W>,
    trace: &mut Trace,
) -> Result<Reply, Memory>
    requires legal { IsLegal command.now }
    requires racing { IsRacing command.now }
    requires wires { length wires.old.items ≡ 16 }
    ensures wires { length wires.new.items ≡ 16 }
    ensures raced { IfOk result (RaceReplies (Ok command.now) (change S.sight source.old source.new)
        (CarriedEach W.sight wires.old.items wires.new.items) (Grew trace.old trace.new)) }
    ensures unread { ReadsNothing (Ok command.now) → IsUnchanged (change S.sight source.old source.new) }
    ensures accepted { ¬ SomeRose W.sight wires.old.items wires.new.items → IfOk result (λ reply. reply.status ≢ 7) }
    ensures carried { RaceCarries (Ok command.now) (change S.sight source.old source.new)
        (CarriedEach W.sight wires.old.items wires.new.items) }
    ensures trace_first { OnErr result (SeesUpTo (Ok command.now) trace.old trace.new) }
{
    match command {
        Command::Race {
            common,
            writers,
            askers,
            rounds,
        } => {
            let crew = Crew {
                writers: *writers,
                askers: *askers,
                rounds: *rounds,
                workers: common.workers,
            };
            race_input(rt, alloc, common, crew, source, gate, wires, trace)
        }
        Command::Ask(_)
        | Command::Replay { .. }
        | Command::Make { .. }
        | Command::Trace(_)
        | Command::Tamper { .. }
        | Command::Tree { .. }
        | Command::Groups { .. } => unreachable!(),
    }
}

// The reply of a race to its words.
fn race_words<R: Threads + Wait + Sync, S: Source, W: Wire + Send, G: Gate + Sync>(
    rt: &R,
    alloc: Global,
    words: &[String],
    source: &mut S,
    gate: &G,
    wires: &mut Vec<W>,
    trace: &mut Trace,
) -> Result<Reply, Memory>
    requires begins { begin_race (map string_bytes words.now) ≡ true }
    requires wires { length wires.old.items ≡ 16 }
    ensures wires { length wires.new.items ≡ 16 }
    ensures raced { IfOk result (RaceReplies (command_of (map string_bytes words.now)) (change S.sight source.old source.new)
        (CarriedEach W.sight wires.old.items wires.new.items) (Grew trace.old trace.new)) }
    ensures unread { ReadsNothing (command_of (map string_bytes words.now)) → IsUnchanged (change S.sight source.old source.new) }
    ensures accepted { ¬ SomeRose W.sight wires.old.items wires.new.items → IfOk result (λ reply. reply.status ≢ 7) }
    ensures carried { RaceCarries (command_of (map string_bytes words.now)) (change S.sight source.old source.new)
        (CarriedEach W.sight wires.old.items wires.new.items) }
    ensures trace_first { OnErr result (SeesUpTo (command_of (map string_bytes words.now)) trace.old trace.new) }
{
    match read_words(alloc, words) {
        Ok(command) => race_command(rt, alloc, &command, source, gate, wires, trace),
        Err(fault) => refused_words(alloc, fault),
    }
}

/// Runs `race` on these words, which begin with it, this source, this sink and 16 wires. Asker a asks over wire a, and the queries of
/// the end go over the first one. The trace grows by what the servers see of the answers that the report prints. Waits for the threads.
pub(crate) fn run_race<
    R: Threads + Wait + Sync,
    S: Source,
    K: Sink,
    W: Wire + Send,
    G: Gate + Sync,
>(
    rt: &R,
    alloc: Global,
    words: &[String],
    source: &mut S,
    sink: &mut K,
    wires: &mut Vec<W>,
    trace: &mut Trace,
    gate: &G,
) -> u8
    requires begins { begin_race (map string_bytes words.now) ≡ true }
    requires wires { length wires.old.items ≡ 16 }
    ensures wires { length wires.new.items ≡ 16 }
    ensures memory { result ≡ 6 → IsUnchanged (change K.sight sink.old sink.new) }
    ensures raced { result ≢ 6 → Races (command_of (map string_bytes words.now)) (change S.sight source.old source.new)
        (CarriedEach W.sight wires.old.items wires.new.items) (Grew trace.old trace.new) (change K.sight sink.old sink.new) result }
    ensures trace_first { result ≡ 6 → SeesUpTo (command_of (map string_bytes words.now)) trace.old trace.new }
    ensures carried { RaceCarries (command_of (map string_bytes words.now)) (change S.sight source.old source.new)
        (CarriedEach W.sight wires.old.items wires.new.items) }
    ensures refused { result ≡ 2 → IsErr (command_of (map string_bytes words.now)) }
    ensures unread { ReadsNothing (command_of (map string_bytes words.now)) → IsUnchanged (change S.sight source.old source.new) }
    ensures read_fault { result ≡ 3 → HasFailed S.sight source.old source.new }
    ensures write_fault { result ≡ 4 → HasFailed K.sight sink.old sink.new }
    ensures input { result ≡ 5 → IfSome (S.sight.bytes source.old) (Refuses (command_of (map string_bytes words.now))) }
    ensures altered { result ≡ 7 → SomeRose W.sight wires.old.items wires.new.items }
{
    match race_words(rt, alloc, words, source, gate, wires, trace) {
        Err(_) => 6,
        Ok(reply) => finish(alloc, &reply, sink),
    }
}
