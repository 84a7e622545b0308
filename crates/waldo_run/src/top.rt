//! The top call: `race`, and every other command.
ghost use Rattle.std.specs.Prelude.{◌≡◌, ◌≢◌, ◌⊎◌, ℕ, true, false, List, map, string_bytes, Ok, IfSome, IsErr, length};
ghost use Rattle.table_schema.specs.declared.rows.Row.{Row};
ghost use Rattle.visit_trace.specs.Seen.{Grew};
ghost use Rattle.wire_line.specs.Lists.{SomeRose};
ghost use Rattle.waldo_run.specs.Grown.{Traces};
ghost use Rattle.waldo_run.specs.Complete.{Completes, EndsRaced, GivesRows, IsAccepted};
ghost use Rattle.waldo_run.specs.Headline.{AsksOver, plain_answers};
ghost use Rattle.waldo_run.specs.Races.{RaceCarries, Races, SeesUpTo, begin_race, command_at, crew_of};
ghost use Rattle.waldo_run.specs.Run.{Breaks, HasSchedule, IsUnchanged, Puts, ReadsNothing, Refuses, Runs, plain_reply};
ghost use Rattle.waldo_run.specs.Tasks.{common_in};
ghost use Rattle.waldo_words.specs.declared.command.Command.{Command};
ghost use Rattle.waldo_words.specs.declared.command.Command.TheVariants as commands;
ghost use Rattle.waldo_words.specs.declared.command.Common.{Common};
ghost use Rattle.fault_count.specs.Streams.{HasFailed, change};
ghost use Rattle.waldo_run.specs.Tampered.{AltersNothing, CarriedBy, UnalteredBy};
ghost use Rattle.race_play.specs.Askers.{CarriedEach};

use crate::race::run_race;
use crate::still::run_still;
use crate::words::begin_race;
use race_play::Gate;
use report_lines::Sink;
use row_source::Source;
use std::alloc::Global;
use std::sync::Wait;
use std::thread::Threads;
use visit_trace::Trace;
use wire_line::Wire;

/// Runs the program on these words, this source, this sink and 16 wires. For every command but `race` it is [`run_still`]. In a race
/// writers and askers work at once, each in a thread of its own, and pass the gate on their way; asker a asks over wire a, and the
/// queries of the end go over the first wire. Waits for the threads. At the return the list has the same 16 wires, each in its place.
pub fn run<R: Threads + Wait + Sync, S: Source, K: Sink, W: Wire + Send, G: Gate + Sync>(
    rt: &R,
    alloc: Global,
    words: &[String],
    source: &mut S,
    sink: &mut K,
    wires: &mut Vec<W>,
    trace: &mut Trace,
    gate: &G,
) -> u8
    requires wires { length wires.old.items ≡ 16 }
    ensures wires { length wires.new.items ≡ 16 }
    // The headline, as of `run_still`: the plain answer of each query of `ask` or `make` over all rows.
    ensures asked { begin_race (map string_bytes words.now) ≡ false → result ≢ 6 → ¬ HasFailed S.sight source.old source.new
        → ¬ SomeRose W.sight wires.old.items wires.new.items
        → (command : Command) (rows : List Row) → command_at (map string_bytes words.now) ≡ Ok command
        → AsksOver command (S.sight.bytes source.old) rows
        → Puts (plain_answers (common_in command).queries rows) (change K.sight sink.old sink.new) result }
    // Out of memory nothing is put.
    ensures memory { result ≡ 6 → IsUnchanged (change K.sight sink.old sink.new) }
    // Every command but `race`: as `run_still` says.
    ensures broken { begin_race (map string_bytes words.now) ≡ false → result ≡ 6
        → Breaks (command_at (map string_bytes words.now)) (change S.sight source.old source.new)
        (CarriedBy W.sight (command_at (map string_bytes words.now)) wires.old.items wires.new.items) }
    ensures run { begin_race (map string_bytes words.now) ≡ false → result ≢ 6
        → Runs (command_at (map string_bytes words.now)) (change S.sight source.old source.new)
        (CarriedBy W.sight (command_at (map string_bytes words.now)) wires.old.items wires.new.items)
        (UnalteredBy W.sight (command_at (map string_bytes words.now)) wires.old.items wires.new.items)
        (change K.sight sink.old sink.new) result }
    ensures plain { begin_race (map string_bytes words.now) ≡ false → result ≢ 6
        → AltersNothing (command_at (map string_bytes words.now))
        → ¬ HasFailed S.sight source.old source.new → ¬ SomeRose W.sight wires.old.items wires.new.items
        → IfSome (S.sight.bytes source.old) (λ bytes.
        Puts (plain_reply (command_at (map string_bytes words.now)) bytes) (change K.sight sink.old sink.new) result) }
    ensures complete { begin_race (map string_bytes words.now) ≡ false
        → ¬ HasFailed S.sight source.old source.new → ¬ HasFailed K.sight sink.old sink.new
        → ¬ SomeRose W.sight wires.old.items wires.new.items → (command : Command) (rows : List Row)
        → command_at (map string_bytes words.now) ≡ Ok command → IsAccepted command (S.sight.bytes source.old) rows
        → Completes command rows (CarriedBy W.sight (command_at (map string_bytes words.now)) wires.old.items wires.new.items)
        (UnalteredBy W.sight (command_at (map string_bytes words.now)) wires.old.items wires.new.items)
        (change K.sight sink.old sink.new) result }
    // A race: the source was met in one of its ways, each asker's messages went over its wire, and a report was put that a race over the
    // input's rows may come to with these messages; or the line of what was refused was put, and the wires are as they were. The trace grew
    // by what the servers see of the answers in that report, each over the number of rows that its line says, in the order of the lines.
    ensures raced { begin_race (map string_bytes words.now) ≡ true → result ≢ 6
        → Races (command_at (map string_bytes words.now)) (change S.sight source.old source.new)
        (CarriedEach W.sight wires.old.items wires.new.items) (Grew trace.old trace.new) (change K.sight sink.old sink.new) result }
    // Nothing else can come of an accepted race over an accepted input, where nothing had a fault: status 6, or status 0 and a report
    // that such a race may have.
    ensures completed { begin_race (map string_bytes words.now) ≡ true
        → ¬ HasFailed S.sight source.old source.new → ¬ HasFailed K.sight sink.old sink.new
        → ¬ SomeRose W.sight wires.old.items wires.new.items
        → (common : Common) (writers askers rounds : ℕ) (rows : List Row)
        → command_at (map string_bytes words.now) ≡ Ok (commands.Race common writers askers rounds)
        → GivesRows common (S.sight.bytes source.old) rows
        → (result ≡ 6) ⊎ EndsRaced common (crew_of common writers askers rounds) rows
        (CarriedEach W.sight wires.old.items wires.new.items) (Grew trace.old trace.new) (change K.sight sink.old sink.new) result }
    // And whatever the status is, out of memory too, each wire carried the messages of its asker's first rounds, and perhaps the first
    // ones of the next.
    ensures carried { begin_race (map string_bytes words.now) ≡ true
        → RaceCarries (command_at (map string_bytes words.now)) (change S.sight source.old source.new)
        (CarriedEach W.sight wires.old.items wires.new.items) }
    // Whatever the command is, each status has its cause.
    ensures refused { result ≡ 2
        → IsErr (command_at (map string_bytes words.now)) ⊎ HasSchedule (command_at (map string_bytes words.now)) }
    ensures unread { ReadsNothing (command_at (map string_bytes words.now)) → IsUnchanged (change S.sight source.old source.new) }
    ensures read_fault { result ≡ 3 → HasFailed S.sight source.old source.new }
    ensures write_fault { result ≡ 4 → HasFailed K.sight sink.old sink.new }
    ensures input { result ≡ 5 → IfSome (S.sight.bytes source.old) (Refuses (command_at (map string_bytes words.now))) }
    ensures altered { result ≡ 7 → ¬ AltersNothing (command_at (map string_bytes words.now))
        ⊎ SomeRose W.sight wires.old.items wires.new.items }
    // Every command but `race`: the trace grew as `run_still` says.
    ensures trace { begin_race (map string_bytes words.now) ≡ false
        → Traces (command_at (map string_bytes words.now)) (change S.sight source.old source.new) trace.old trace.new result }
    // A race: `raced` says that it grew by what the servers see of the answers in the report. Out of memory it stays, or grew by a prefix
    // of what they see of the race's first queries.
    ensures trace_first { begin_race (map string_bytes words.now) ≡ true → result ≡ 6
        → SeesUpTo (command_at (map string_bytes words.now)) trace.old trace.new }
{
    if begin_race(words) {
        run_race(rt, alloc, words, source, sink, wires, trace, gate)
    } else {
        run_still(rt, alloc, words, source, sink, wires, trace)
    }
}
