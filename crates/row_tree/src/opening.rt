//! The three words of a run, and what the client opens.
ghost use Rattle.std.specs.Prelude.{◌≡◌, ◌<◌, ◌+◌, ◌*◌, List, [], ◌∷◌, length, IfOk};
ghost use Rattle.onehot_column.specs.Code.{width_of};
ghost use Rattle.wire_line.specs.declared.message.Message.{Message};
ghost use Rattle.wire_line.specs.Messages.{Went};
ghost use Rattle.transcript.specs.Setup.{column_of};
ghost use Rattle.server_rounds.specs.Groups.{by_server, IsGroup};
ghost use Rattle.server_rounds.specs.Plans.{views_of};
ghost use Rattle.server_rounds.specs.Rounds.{IsOpened, sum_word};
ghost use Rattle.server_rounds.specs.declared.way.Way.{Way};
ghost use Rattle.row_tree.specs.Rounds.{tree_counter};

use ring128::{Memory, Words, add};
use server_rounds::{Ready, Trio, Way, carry_three};
use std::alloc::Global;
use visit_trace::Trace;
use wire_line::Wire;

/// A server's two sums of rows.
#[derive(Drop)]
pub(crate) struct Sums {
    pub first: Vec<u128>,
    pub second: Vec<u128>,
}

// A server's word.
fn word(alloc: Global, ready: &Ready, server: u8, run: u8, sums: &Sums) -> Result<Words, Memory>
    requires server { server < 3 }
    requires run { run < 2 }
    requires first { length sums.now.first.items ≡ width_of ready.now.plan.widths (column_of ready.now.plan 0) }
    requires second { length sums.now.second.items ≡ width_of ready.now.plan.widths (column_of ready.now.plan 0) }
    ensures words { let view = views_of ready.now.keys server in
        IfOk result (λ w. w ≡ sum_word view run sums.now.first.items sums.now.second.items (tree_counter run) ∷ []) }
    ensures long { IfOk result (λ w. length w ≡ 1) }
{
    let counter = (40 + u64::from(run)) * 65_536;
    let word = ready.sum_word(
        alloc,
        server,
        run,
        sums.first.as_slice(),
        sums.second.as_slice(),
        counter,
    )?;
    let mut words = Vec::with_capacity(alloc, 1)?;
    words.push_reserved(word);
    Ok(Words::from_vec(words))
}

// Each server sends its word to the client, which adds up what it received.
fn open_words<W: Wire>(wire: &mut W, trace: &mut Trace, words: Trio) -> Result<u128, Memory>
    requires zero { length words.zero ≡ 1 }
    requires one { length words.one ≡ 1 }
    requires two { length words.two ≡ 1 }
    ensures { (ms : List Message) × Went W.sight wire.old ms wire.new
        × IsGroup Way.ToClient (by_server words.zero words.one words.two) ms
        × IfOk result (λ total. IsOpened ms total) }
{
    let got = carry_three(wire, trace, Way::ToClient, words)?;
    let near = add(got.zero.as_slice()[0], got.one.as_slice()[0]);
    Ok(add(near, got.two.as_slice()[0]))
}

/// The three words of a run over the servers' sums, and the sum of those that the client received.
pub(crate) fn open_run<W: Wire>(
    alloc: Global,
    ready: &Ready,
    zero: &Sums,
    one: &Sums,
    two: &Sums,
    run: u8,
    wire: &mut W,
    trace: &mut Trace,
) -> Result<u128, Memory>
    requires run { run < 2 }
    requires zero_first { length zero.now.first.items ≡ width_of ready.now.plan.widths (column_of ready.now.plan 0) }
    requires zero_second { length zero.now.second.items ≡ width_of ready.now.plan.widths (column_of ready.now.plan 0) }
    requires one_first { length one.now.first.items ≡ width_of ready.now.plan.widths (column_of ready.now.plan 0) }
    requires one_second { length one.now.second.items ≡ width_of ready.now.plan.widths (column_of ready.now.plan 0) }
    requires two_first { length two.now.first.items ≡ width_of ready.now.plan.widths (column_of ready.now.plan 0) }
    requires two_second { length two.now.second.items ≡ width_of ready.now.plan.widths (column_of ready.now.plan 0) }
    ensures { (ms : List Message) × Went W.sight wire.old ms wire.new
        × IsGroup Way.ToClient (by_server
        (sum_word (views_of ready.now.keys 0) run zero.now.first.items zero.now.second.items (tree_counter run) ∷ [])
        (sum_word (views_of ready.now.keys 1) run one.now.first.items one.now.second.items (tree_counter run) ∷ [])
        (sum_word (views_of ready.now.keys 2) run two.now.first.items two.now.second.items (tree_counter run) ∷ [])) ms
        × IfOk result (λ total. IsOpened ms total) }
{
    let zero = word(alloc, ready, 0, run, zero)?;
    let one = word(alloc, ready, 1, run, one)?;
    let two = word(alloc, ready, 2, run, two)?;
    let total = open_words(wire, trace, Trio { zero, one, two })?;
    Ok(total)
}
