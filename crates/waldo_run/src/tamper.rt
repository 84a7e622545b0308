//! The command that alters messages on their way.
ghost use Rattle.std.specs.Prelude.{◌≡◌, ◌≤◌, IfOk, length, map};
ghost use Rattle.schedule_play.specs.Plays.{Plays, seen};
ghost use Rattle.schedule_play.specs.Tasks.{IsSetting, asking};
ghost use Rattle.schedule_play.specs.Traces.{AddsTraces, asked_sizes};
ghost use Rattle.waldo_run.specs.Tampered.{WireShifted, first_key, shift_by, shifts_over};

use prg_chacha::{Seed, derive};
use query_plan::{Query, key_of};
use ring128::{Memory, mul};
use schedule_play::{PlayFault, Played, Setting, ask_over};
use std::alloc::Global;
use std::thread::Threads;
use visit_trace::Trace;
use waldo_words::{Amount, ShiftWord};
use wire_line::{LentWire, Shift, ShiftWire, Shifts, Wire};

// The key of the first query, with its seed.
fn first_key(queries: &[Query], seed: &Seed) -> u128
    ensures { result ≡ first_key queries.now seed.now }
{
    match queries {
        [] => 1,
        [query, ..] => key_of(query, seed),
    }
}

// The shift of a word, where the key is this.
fn shift_by(key: u128, word: &ShiftWord) -> Shift
    ensures { result ≡ shift_by key word.now }
{
    let amount = match word.amount {
        Amount::Plain(amount) => amount,
        Amount::TimesKey(amount) => mul(amount, key),
    };
    Shift {
        message: word.message,
        word: word.word,
        amount,
    }
}

// The shifts of words, in order.
fn shifts_by(alloc: Global, key: u128, words: &[ShiftWord]) -> Result<Shifts, Memory>
    ensures { IfOk result (λ shifts. shifts ≡ map (shift_by key) words.now) }
{
    let mut shifts = Shifts::new(alloc);
    for word in words {
        shifts.push(shift_by(key, word))?;
    }
    Ok(shifts)
}

/// Appends the rows and asks each query, over a wire that adds these amounts to words of the messages which the given wire has carried.
/// A number times the key is times that of the first query.
pub(crate) fn tamper<R: Threads + Sync, W: Wire>(
    rt: &R,
    alloc: Global,
    setting: &Setting<'_>,
    words: &[ShiftWord],
    wire: &mut W,
    trace: &mut Trace,
) -> Result<Played, PlayFault>
    requires legal { IsSetting setting.now.widths (seen setting.now) }
    requires queries { length setting.now.queries.now ≤ 16 }
    requires some { 1 ≤ setting.now.workers }
    requires few { setting.now.workers ≤ 16 }
    ensures plays { Plays setting.now.widths (asking (seen setting.now)) (λ history.
        WireShifted W.sight (shifts_over (seen setting.now) words.now) history wire.old wire.new) (λ actor. ⊥) result }
    ensures trace { AddsTraces (asked_sizes setting.now.widths (length setting.now.rows.now) setting.now.queries.now)
        trace.old trace.new result }
{
    let seed = derive(&setting.master, 2, 0, 0);
    let key = first_key(setting.queries, &seed);
    let Ok(shifts) = shifts_by(alloc, key, words) else {
        return Err(PlayFault::Memory);
    };
    let over = ShiftWire::over(alloc, LentWire::over(wire), shifts);
    let (played, over) = ask_over(rt, alloc, setting, over, trace);
    let _last = over.into_lent();
    played
}
