//! The three messages of a step that comes after the products of the bits, at all servers.
ghost use Rattle.std.specs.Prelude.{◌≡◌, ◌<◌, List, [], ◌∷◌, map, length, IfOk};
ghost use Rattle.wire_line.specs.declared.message.Message.{Message};
ghost use Rattle.wire_line.specs.Messages.{Went};
ghost use Rattle.server_rounds.specs.Groups.{by_server, AreLong, AreReshared, IsGroup};
ghost use Rattle.server_rounds.specs.Plans.{views_of};
ghost use Rattle.server_rounds.specs.Shelves.{AreShelves, pieces_of};
ghost use Rattle.server_rounds.specs.Noted.{group_seen};
ghost use Rattle.server_rounds.specs.Visits.{AllVisited};
ghost use Rattle.server_rounds.specs.declared.way.Way.TheVariants.{Around, ToClient};
ghost use Rattle.visit_trace.specs.Seen.{GrewBy};
ghost use Rattle.visit_trace.specs.Expected.{bits_part};
ghost use Rattle.visit_trace.specs.Sizes.{opened_columns};
ghost use Rattle.bucket_groups.specs.Rounds.{AreOpened, AreValued, IsValuePart, buckets_of, values_of};
ghost use Rattle.bucket_groups.specs.Seen.{buckets_part, values_part};

use crate::at_once::{buckets_at_once, values_at_once};
use crate::part::counter;
use ring128::{Memory, Words, add_into};
use scan_chunks::Shelf;
use server_rounds::{
    Held, Ready, Servers, Trio, Way, all_three, carry_three, note_last, reshare_noted,
};
use std::alloc::Global;
use std::thread::Threads;
use table_schema::Aggregate;
use visit_trace::Trace;
use wire_line::Wire;

// The products with the values, and the pairs that the servers then hold of them.
fn value_round<R: Threads + Sync, S: Shelf + Send, W: Wire>(
    rt: &R,
    alloc: Global,
    ready: &Ready,
    chain: &Held,
    shelves: &mut Servers<S>,
    wire: &mut W,
    trace: &mut Trace,
    run: u8,
) -> Result<Held, Memory>
    requires run { run < 2 }
    requires chain { AreLong ready.now.plan.rows chain.now }
    requires zero { AreShelves ready.now.plan.widths ready.now.plan.rows (map S.held shelves.old.zero.items) }
    requires one { AreShelves ready.now.plan.widths ready.now.plan.rows (map S.held shelves.old.one.items) }
    requires two { AreShelves ready.now.plan.widths ready.now.plan.rows (map S.held shelves.old.two.items) }
    ensures zero { map S.held shelves.new.zero.items ≡ map S.held shelves.old.zero.items }
    ensures one { map S.held shelves.new.one.items ≡ map S.held shelves.old.one.items }
    ensures two { map S.held shelves.new.two.items ≡ map S.held shelves.old.two.items }
    ensures visits { AllVisited S.held S.visited (ready.now.plan.widths.columns ∷ []) shelves.old shelves.new result }
    ensures long { IfOk result (λ held. AreLong ready.now.plan.rows held) }
    ensures messages { let pieces = by_server (pieces_of (map S.held shelves.old.zero.items))
        (pieces_of (map S.held shelves.old.one.items)) (pieces_of (map S.held shelves.old.two.items)) in
        let views = views_of ready.now.keys in
        (ms : List Message) × Went W.sight wire.old ms wire.new
        × IsGroup Around (values_of ready.now.plan run views pieces chain.now) ms
        × IfOk result (λ held. AreReshared held ms) }
    ensures trace { GrewBy trace.old trace.new (bits_part ready.now.plan ready.now.plan.widths.columns) result }
{
    let (zero, others) = values_at_once(
        rt,
        alloc,
        ready,
        chain,
        &mut shelves.zero,
        &mut shelves.one,
        &mut shelves.two,
    );
    let numbers = all_three(zero, others)?;
    ready.rows();
    let start = counter(32, run);
    let words = ready.with_three_zeros(rt, start, shelves.zero.len(), numbers);
    let held = reshare_noted(alloc, shelves, wire, trace, words)?;
    Ok(held)
}

/// What the servers hold before the openings: where rows are counted, the products of the bits; where values are summed, their
/// products with the values.
pub(crate) fn before_buckets<R: Threads + Sync, S: Shelf + Send, W: Wire>(
    rt: &R,
    alloc: Global,
    ready: &Ready,
    chain: Held,
    shelves: &mut Servers<S>,
    wire: &mut W,
    trace: &mut Trace,
    run: u8,
) -> Result<Held, Memory>
    requires run { run < 2 }
    requires chain { AreLong ready.now.plan.rows chain }
    requires zero { AreShelves ready.now.plan.widths ready.now.plan.rows (map S.held shelves.old.zero.items) }
    requires one { AreShelves ready.now.plan.widths ready.now.plan.rows (map S.held shelves.old.one.items) }
    requires two { AreShelves ready.now.plan.widths ready.now.plan.rows (map S.held shelves.old.two.items) }
    ensures zero { map S.held shelves.new.zero.items ≡ map S.held shelves.old.zero.items }
    ensures one { map S.held shelves.new.one.items ≡ map S.held shelves.old.one.items }
    ensures two { map S.held shelves.new.two.items ≡ map S.held shelves.old.two.items }
    ensures visits { AllVisited S.held S.visited (opened_columns ready.now.plan.shape.aggregate ready.now.plan.widths.columns)
        shelves.old shelves.new result }
    ensures long { IfOk result (λ held. AreLong ready.now.plan.rows held) }
    ensures messages { let pieces = by_server (pieces_of (map S.held shelves.old.zero.items))
        (pieces_of (map S.held shelves.old.one.items)) (pieces_of (map S.held shelves.old.two.items)) in
        let views = views_of ready.now.keys in
        (ms : List Message) × Went W.sight wire.old ms wire.new
        × IsValuePart ready.now.plan.shape.aggregate (values_of ready.now.plan run views pieces chain) ms
        × IfOk result (λ held. AreValued ready.now.plan.shape.aggregate chain ms held) }
    ensures trace { GrewBy trace.old trace.new (values_part ready.now.plan.shape.aggregate ready.now.plan) result }
{
    match ready.aggregate() {
        Aggregate::Count => Ok(chain),
        Aggregate::Sum => {
            let held = value_round(rt, alloc, ready, &chain, shelves, wire, trace, run)?;
            Ok(held)
        }
    }
}

// Each server sends its words to the client, which adds up what it received.
fn opened<W: Wire>(wire: &mut W, trace: &mut Trace, words: Trio) -> Result<Words, Memory>
    requires one { length words.one ≡ length words.zero }
    requires two { length words.two ≡ length words.zero }
    ensures messages { (ms : List Message) × Went W.sight wire.old ms wire.new
        × IsGroup ToClient (by_server words.zero words.one words.two) ms
        × IfOk result (λ totals. AreOpened ms totals) }
    ensures trace { let n = length words.zero in GrewBy trace.old trace.new (group_seen ToClient n n n) result }
{
    let got = carry_three(wire, trace, Way::ToClient, words)?;
    let mut totals = got.zero.into_vec();
    add_into(&mut totals, got.one.as_slice());
    add_into(&mut totals, got.two.as_slice());
    Ok(Words::from_vec(totals))
}

/// The openings, and the sums of the words that the client received, one a bucket.
pub(crate) fn bucket_round<R: Threads + Sync, S: Shelf + Send, W: Wire>(
    rt: &R,
    alloc: Global,
    ready: &Ready,
    column: u8,
    held: &Held,
    shelves: &mut Servers<S>,
    wire: &mut W,
    trace: &mut Trace,
    run: u8,
) -> Result<Words, Memory>
    requires run { run < 2 }
    requires column { column < ready.now.plan.widths.columns }
    requires held { AreLong ready.now.plan.rows held.now }
    requires zero { AreShelves ready.now.plan.widths ready.now.plan.rows (map S.held shelves.old.zero.items) }
    requires one { AreShelves ready.now.plan.widths ready.now.plan.rows (map S.held shelves.old.one.items) }
    requires two { AreShelves ready.now.plan.widths ready.now.plan.rows (map S.held shelves.old.two.items) }
    ensures zero { map S.held shelves.new.zero.items ≡ map S.held shelves.old.zero.items }
    ensures one { map S.held shelves.new.one.items ≡ map S.held shelves.old.one.items }
    ensures two { map S.held shelves.new.two.items ≡ map S.held shelves.old.two.items }
    ensures visits { AllVisited S.held S.visited (column ∷ []) shelves.old shelves.new result }
    ensures messages { let pieces = by_server (pieces_of (map S.held shelves.old.zero.items))
        (pieces_of (map S.held shelves.old.one.items)) (pieces_of (map S.held shelves.old.two.items)) in
        let views = views_of ready.now.keys in
        (ms : List Message) × Went W.sight wire.old ms wire.new
        × IsGroup ToClient (buckets_of ready.now.plan column run views pieces held.now) ms
        × IfOk result (λ totals. AreOpened ms totals) }
    ensures trace { GrewBy trace.old trace.new (buckets_part ready.now.plan column) result }
{
    let (zero, others) = buckets_at_once(
        rt,
        alloc,
        ready,
        held,
        column,
        run,
        &mut shelves.zero,
        &mut shelves.one,
        &mut shelves.two,
    );
    let words = all_three(zero, others)?;
    note_last(trace, shelves)?;
    let totals = opened(wire, trace, words)?;
    Ok(totals)
}
