//! The three messages of a step, at all servers.
ghost use Rattle.std.specs.Prelude.{◌≡◌, ◌<◌, List, [], ◌∷◌, map, length, IfOk};
ghost use Rattle.wire_line.specs.declared.message.Message.{Message};
ghost use Rattle.wire_line.specs.Messages.{Went};
ghost use Rattle.transcript.specs.Setup.{column_of, count_of};
ghost use Rattle.server_rounds.specs.Groups.{by_server, AreLong, AreReshared, IsGroup};
ghost use Rattle.server_rounds.specs.Plans.{HaveTables, views_of};
ghost use Rattle.server_rounds.specs.Rounds.{IsOpened, bits_of, products_of, openings_of};
ghost use Rattle.server_rounds.specs.Shelves.{AreShelves, pieces_of};
ghost use Rattle.server_rounds.specs.Visits.{AllVisited, HaveVisits, opened_columns, servers_last};
ghost use Rattle.server_rounds.specs.Noted.{group_seen, values_last};
ghost use Rattle.table_schema.specs.declared.shapes.Aggregate.TheVariants.{Sum};
ghost use Rattle.visit_trace.specs.Seen.{GrewBy};
ghost use Rattle.visit_trace.specs.Growing.{seen_then};
ghost use Rattle.visit_trace.specs.Expected.{bits_part, opening_part, product_part};

use crate::at_once::{all_three, locals_at_once, openings_at_once};
use crate::carry::{Trio, carry_three};
use crate::held::{Held, reshare};
use crate::keys::ThreeKeys;
use crate::noted::{note_last, note_values};
use crate::plan::Plan;
use crate::servers::Servers;
use crate::stretches::bits_at_once;
use crate::way::Way;
use crate::zeros::with_three_zeros;
use ring128::{Memory, add};
use scan_chunks::Shelf;
use std::alloc::Global;
use std::thread::Threads;
use visit_trace::Trace;
use wire_line::Wire;

/// The bits of predicate j, and the pairs that the servers then hold of them.
pub(crate) fn bits_round<R: Threads + Sync, S: Shelf + Send, W: Wire>(
    rt: &R,
    alloc: Global,
    plan: &Plan,
    keys: &ThreeKeys,
    shelves: &mut Servers<S>,
    wire: &mut W,
    trace: &mut Trace,
    run: u8,
    j: u8,
) -> Result<Held, Memory>
    requires run { run < 2 }
    requires j { j < count_of plan.now }
    requires keys { HaveTables plan.now keys.now }
    requires zero { AreShelves plan.now.widths plan.now.rows (map S.held shelves.old.zero.items) }
    requires one { AreShelves plan.now.widths plan.now.rows (map S.held shelves.old.one.items) }
    requires two { AreShelves plan.now.widths plan.now.rows (map S.held shelves.old.two.items) }
    ensures zero { map S.held shelves.new.zero.items ≡ map S.held shelves.old.zero.items }
    ensures one { map S.held shelves.new.one.items ≡ map S.held shelves.old.one.items }
    ensures two { map S.held shelves.new.two.items ≡ map S.held shelves.old.two.items }
    ensures visits { AllVisited S.held S.visited (column_of plan.now j ∷ []) shelves.old shelves.new result }
    ensures long { IfOk result (λ held. AreLong plan.now.rows held) }
    ensures messages { let pieces = by_server (pieces_of (map S.held shelves.old.zero.items))
        (pieces_of (map S.held shelves.old.one.items)) (pieces_of (map S.held shelves.old.two.items)) in
        (ms : List Message) × Went W.sight wire.old ms wire.new
        × IsGroup Way.Around (bits_of plan.now run (views_of keys.now) pieces j) ms
        × IfOk result (λ held. AreReshared held ms) }
    ensures trace { GrewBy trace.old trace.new (bits_part plan.now (column_of plan.now j)) result }
{
    let words = bits_at_once(
        rt,
        alloc,
        plan,
        keys,
        run,
        j,
        &mut shelves.zero,
        &mut shelves.one,
        &mut shelves.two,
    )?;
    let held = reshare_noted(alloc, shelves, wire, trace, words)?;
    Ok(held)
}

/// Notes the visits that the servers' shelves had last, one for each chunk, and then reshares the words. The only error is out of
/// memory; the first of these messages may then have been carried, and the first of these visits noted.
pub fn reshare_noted<S: Shelf, W: Wire>(
    alloc: Global,
    shelves: &Servers<S>,
    wire: &mut W,
    trace: &mut Trace,
    words: Trio,
) -> Result<Held, Memory>
    requires one { length words.one ≡ length words.zero }
    requires two { length words.two ≡ length words.zero }
    requires zero_seen { HaveVisits S.held S.visited shelves.now.zero.items }
    requires one_seen { HaveVisits S.held S.visited shelves.now.one.items }
    requires two_seen { HaveVisits S.held S.visited shelves.now.two.items }
    ensures long { IfOk result (λ held. AreLong (length words.zero) held) }
    ensures messages { (ms : List Message) × Went W.sight wire.old ms wire.new
        × IsGroup Way.Around (by_server words.zero words.one words.two) ms
        × IfOk result (λ held. AreReshared held ms) }
    ensures trace { GrewBy trace.old trace.new (seen_then (servers_last S.held S.visited shelves.now)
        (group_seen Way.Around (length words.zero) (length words.zero) (length words.zero))) result }
{
    note_last(trace, shelves)?;
    reshare(alloc, wire, trace, words)
}

/// The product of the chain with the bits of predicate j, made in `parts` stretches of rows at once, and the pairs that the servers
/// then hold of it.
pub(crate) fn product_round<R: Threads + Sync, W: Wire>(
    rt: &R,
    alloc: Global,
    plan: &Plan,
    keys: &ThreeKeys,
    chain: &Held,
    bits: &Held,
    parts: usize,
    wire: &mut W,
    trace: &mut Trace,
    run: u8,
    j: u8,
) -> Result<Held, Memory>
    requires run { run < 2 }
    requires j { j < count_of plan.now }
    requires chain { AreLong plan.now.rows chain.now }
    requires bits { AreLong plan.now.rows bits.now }
    ensures long { IfOk result (λ held. AreLong plan.now.rows held) }
    ensures messages { (ms : List Message) × Went W.sight wire.old ms wire.new
        × IsGroup Way.Around (products_of plan.now run (views_of keys.now) j chain.now bits.now) ms
        × IfOk result (λ held. AreReshared held ms) }
    ensures trace { GrewBy trace.old trace.new (product_part plan.now) result }
{
    let (zero, others) = locals_at_once(rt, alloc, chain, bits, parts > 1);
    let numbers = all_three(zero, others)?;
    plan.rows();
    let start = plan.product_counter(run, j);
    let words = with_three_zeros(rt, keys, start, parts, numbers);
    let held = reshare(alloc, wire, trace, words)?;
    Ok(held)
}

// Each server sends its word to the client, which adds up what it received. The visits of the values are noted before, where they
// were summed.
fn opened<S: Shelf, W: Wire>(
    plan: &Plan,
    shelves: &Servers<S>,
    wire: &mut W,
    trace: &mut Trace,
    words: Trio,
) -> Result<u128, Memory>
    requires zero { length words.zero ≡ 1 }
    requires one { length words.one ≡ 1 }
    requires two { length words.two ≡ 1 }
    requires zero_seen { plan.now.shape.aggregate ≡ Sum → HaveVisits S.held S.visited shelves.now.zero.items }
    requires one_seen { plan.now.shape.aggregate ≡ Sum → HaveVisits S.held S.visited shelves.now.one.items }
    requires two_seen { plan.now.shape.aggregate ≡ Sum → HaveVisits S.held S.visited shelves.now.two.items }
    ensures messages { (ms : List Message) × Went W.sight wire.old ms wire.new
        × IsGroup Way.ToClient (by_server words.zero words.one words.two) ms
        × IfOk result (λ total. IsOpened ms total) }
    ensures trace { GrewBy trace.old trace.new (seen_then (values_last plan.now.shape.aggregate (servers_last S.held S.visited shelves.now))
        (group_seen Way.ToClient 1 1 1)) result }
{
    note_values(trace, plan, shelves)?;
    let got = carry_three(wire, trace, Way::ToClient, words)?;
    let near = add(got.zero.as_slice()[0], got.one.as_slice()[0]);
    Ok(add(near, got.two.as_slice()[0]))
}

/// The openings, and the sum of the words that the client received.
pub(crate) fn opening_round<R: Threads + Sync, S: Shelf + Send, W: Wire>(
    rt: &R,
    alloc: Global,
    plan: &Plan,
    keys: &ThreeKeys,
    chain: &Held,
    shelves: &mut Servers<S>,
    wire: &mut W,
    trace: &mut Trace,
    run: u8,
) -> Result<u128, Memory>
    requires run { run < 2 }
    requires chain { AreLong plan.now.rows chain.now }
    requires zero { AreShelves plan.now.widths plan.now.rows (map S.held shelves.old.zero.items) }
    requires one { AreShelves plan.now.widths plan.now.rows (map S.held shelves.old.one.items) }
    requires two { AreShelves plan.now.widths plan.now.rows (map S.held shelves.old.two.items) }
    ensures zero { map S.held shelves.new.zero.items ≡ map S.held shelves.old.zero.items }
    ensures one { map S.held shelves.new.one.items ≡ map S.held shelves.old.one.items }
    ensures two { map S.held shelves.new.two.items ≡ map S.held shelves.old.two.items }
    ensures visits { AllVisited S.held S.visited
        (opened_columns plan.now.shape.aggregate plan.now.widths.columns) shelves.old shelves.new result }
    ensures messages { let pieces = by_server (pieces_of (map S.held shelves.old.zero.items))
        (pieces_of (map S.held shelves.old.one.items)) (pieces_of (map S.held shelves.old.two.items)) in
        (ms : List Message) × Went W.sight wire.old ms wire.new
        × IsGroup Way.ToClient (openings_of plan.now run (views_of keys.now) pieces chain.now) ms
        × IfOk result (λ total. IsOpened ms total) }
    ensures trace { GrewBy trace.old trace.new (opening_part plan.now) result }
{
    let (zero, others) = openings_at_once(
        rt,
        alloc,
        plan,
        keys,
        chain,
        run,
        &mut shelves.zero,
        &mut shelves.one,
        &mut shelves.two,
    );
    let words = all_three(zero, others)?;
    let total = opened(plan, shelves, wire, trace, words)?;
    Ok(total)
}
