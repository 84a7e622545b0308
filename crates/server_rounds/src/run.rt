//! A run, and both runs of a query.
ghost use Rattle.std.specs.Prelude.{◌≡◌, ◌<◌, ◌≤◌, ◌+◌, List, [], ◌∷◌, ◌++◌, Some, map, IfOk};
ghost use Rattle.wire_line.specs.declared.message.Message.{Message};
ghost use Rattle.wire_line.specs.Messages.{Went};
ghost use Rattle.transcript.specs.Setup.{Ending, column_of, count_of};
ghost use Rattle.transcript.specs.Formulas.{setup_for, total_ending};
ghost use Rattle.transcript.specs.Transcript.{IsPart, IsTranscript, opened_of};
ghost use Rattle.server_rounds.specs.Groups.{by_server, AreReshared, IsGroup};
ghost use Rattle.server_rounds.specs.OneServer.{OneServer};
ghost use Rattle.server_rounds.specs.Plans.{sizes_for, views_of};
ghost use Rattle.server_rounds.specs.Rounds.{bits_of};
ghost use Rattle.server_rounds.specs.Runs.{HaveProducts, IsPredicatePart, IsRun, IsRunPart};
ghost use Rattle.server_rounds.specs.Shelves.{AreShelves, pieces_of, rows_of};
ghost use Rattle.server_rounds.specs.Visits.{AllVisited, predicate_columns, query_columns, run_columns};
ghost use Rattle.server_rounds.specs.declared.way.Way.TheVariants.{Around};
ghost use Rattle.visit_trace.specs.Seen.{GrewBy};
ghost use Rattle.visit_trace.specs.Expected.{bits_part, part_seen, products_part, run_part, step_lengths, trace_of};

use crate::opened::OpenedPair;
use crate::product::Product;
use crate::ready::Ready;
use crate::servers::Servers;
use crate::shelves::count_rows;
use query_plan::Keys;
use ring128::Memory;
use scan_chunks::Shelf;
use std::alloc::Global;
use std::thread::Threads;
use visit_trace::Trace;
use wire_line::Wire;

// The first predicate of a run.
fn first_predicate<R: Threads + Sync, S: Shelf + Send, W: Wire>(
    rt: &R,
    alloc: Global,
    ready: &Ready,
    run: u8,
    shelves: &mut Servers<S>,
    wire: &mut W,
    trace: &mut Trace,
) -> Result<Product, Memory>
    requires run { run < 2 }
    requires zero { AreShelves ready.now.plan.widths ready.now.plan.rows (map S.held shelves.old.zero.items) }
    requires one { AreShelves ready.now.plan.widths ready.now.plan.rows (map S.held shelves.old.one.items) }
    requires two { AreShelves ready.now.plan.widths ready.now.plan.rows (map S.held shelves.old.two.items) }
    ensures zero { map S.held shelves.new.zero.items ≡ map S.held shelves.old.zero.items }
    ensures one { map S.held shelves.new.one.items ≡ map S.held shelves.old.one.items }
    ensures two { map S.held shelves.new.two.items ≡ map S.held shelves.old.two.items }
    ensures visits { AllVisited S.held S.visited (column_of ready.now.plan 0 ∷ []) shelves.old shelves.new result }
    ensures plan { IfOk result (λ p. p.plan ≡ ready.now.plan) }
    ensures run { IfOk result (λ p. p.run ≡ run) }
    ensures j { IfOk result (λ p. p.j ≡ 0) }
    ensures messages { let pieces = by_server (pieces_of (map S.held shelves.old.zero.items))
        (pieces_of (map S.held shelves.old.one.items)) (pieces_of (map S.held shelves.old.two.items)) in
        (ms : List Message) × Went W.sight wire.old ms wire.new
        × IsGroup Around (bits_of ready.now.plan run (views_of ready.now.keys) pieces 0) ms
        × IfOk result (λ p. AreReshared p.chain ms) }
    ensures trace { GrewBy trace.old trace.new (bits_part ready.now.plan (column_of ready.now.plan 0)) result }
{
    let bits = ready.bits(rt, alloc, run, shelves, wire, trace)?;
    let product = bits.product(rt, alloc, ready, wire, trace)?;
    Ok(product)
}

// The next predicate of a run.
fn next_predicate<R: Threads + Sync, S: Shelf + Send, W: Wire>(
    rt: &R,
    alloc: Global,
    ready: &Ready,
    chain: Product,
    shelves: &mut Servers<S>,
    wire: &mut W,
    trace: &mut Trace,
) -> Result<Product, Memory>
    requires began { chain.plan ≡ ready.now.plan }
    requires left { chain.j + 1 < count_of chain.plan }
    requires zero { AreShelves chain.plan.widths chain.plan.rows (map S.held shelves.old.zero.items) }
    requires one { AreShelves chain.plan.widths chain.plan.rows (map S.held shelves.old.one.items) }
    requires two { AreShelves chain.plan.widths chain.plan.rows (map S.held shelves.old.two.items) }
    ensures zero { map S.held shelves.new.zero.items ≡ map S.held shelves.old.zero.items }
    ensures one { map S.held shelves.new.one.items ≡ map S.held shelves.old.one.items }
    ensures two { map S.held shelves.new.two.items ≡ map S.held shelves.old.two.items }
    ensures visits { AllVisited S.held S.visited (column_of chain.plan (chain.j + 1) ∷ []) shelves.old shelves.new result }
    ensures plan { IfOk result (λ p. p.plan ≡ chain.plan) }
    ensures run { IfOk result (λ p. p.run ≡ chain.run) }
    ensures j { IfOk result (λ p. p.j ≡ chain.j + 1) }
    ensures messages { let pieces = by_server (pieces_of (map S.held shelves.old.zero.items))
        (pieces_of (map S.held shelves.old.one.items)) (pieces_of (map S.held shelves.old.two.items)) in
        (ms : List Message) × Went W.sight wire.old ms wire.new
        × ((part : IsPredicatePart chain.plan chain.run (views_of ready.now.keys) pieces (chain.j + 1) chain.chain ms)
        × IfOk result (λ p. AreReshared p.chain part.product_messages)) }
    ensures trace { GrewBy trace.old trace.new
        (part_seen chain.plan (column_of chain.plan (chain.j + 1) ∷ []) (step_lengths chain.plan ++ step_lengths chain.plan)) result }
{
    let bits = chain.bits(rt, alloc, ready, shelves, wire, trace)?;
    let product = bits.product(rt, alloc, ready, wire, trace)?;
    Ok(product)
}

/// The bits and the products of a run, for all its predicates, however the run then ends. Each server visits the predicates'
/// columns in order, each chunk of a column once, rising. The only error is out of memory; the messages carried by then, and
/// the visits of each shelf, are the first ones of the run.
pub fn run_products<R: Threads + Sync, S: Shelf + Send, W: Wire>(
    rt: &R,
    alloc: Global,
    ready: &Ready,
    run: u8,
    shelves: &mut Servers<S>,
    wire: &mut W,
    trace: &mut Trace,
) -> Result<Product, Memory>
    requires run { run < 2 }
    requires zero { AreShelves ready.now.plan.widths ready.now.plan.rows (map S.held shelves.old.zero.items) }
    requires one { AreShelves ready.now.plan.widths ready.now.plan.rows (map S.held shelves.old.one.items) }
    requires two { AreShelves ready.now.plan.widths ready.now.plan.rows (map S.held shelves.old.two.items) }
    ensures zero { map S.held shelves.new.zero.items ≡ map S.held shelves.old.zero.items }
    ensures one { map S.held shelves.new.one.items ≡ map S.held shelves.old.one.items }
    ensures two { map S.held shelves.new.two.items ≡ map S.held shelves.old.two.items }
    ensures visits { AllVisited S.held S.visited (predicate_columns ready.now.plan) shelves.old shelves.new result }
    ensures plan { IfOk result (λ p. p.plan ≡ ready.now.plan) }
    ensures run { IfOk result (λ p. p.run ≡ run) }
    ensures last { IfOk result (λ p. p.j + 1 ≡ count_of ready.now.plan) }
    ensures messages { let pieces = by_server (pieces_of (map S.held shelves.old.zero.items))
        (pieces_of (map S.held shelves.old.one.items)) (pieces_of (map S.held shelves.old.two.items)) in
        let views = views_of ready.now.keys in
        (ms : List Message) × Went W.sight wire.old ms wire.new
        × ((ending : Ending) → IsRunPart ready.now.plan ending pieces run views ms)
        × IfOk result (λ p. HaveProducts ready.now.plan pieces run views (count_of ready.now.plan) p.chain ms) }
    ensures trace { GrewBy trace.old trace.new (products_part ready.now.plan) result }
{
    let count = ready.plan.count();
    let mut product = first_predicate(rt, alloc, ready, run, shelves, wire, trace)?;
    for _j in 1..count {
        product = next_predicate(rt, alloc, ready, product, shelves, wire, trace)?;
    }
    Ok(product)
}

// A run, and what the client opened in it.
fn run_once<R: Threads + Sync, S: Shelf + Send, W: Wire>(
    rt: &R,
    alloc: Global,
    ready: &Ready,
    run: u8,
    shelves: &mut Servers<S>,
    wire: &mut W,
    trace: &mut Trace,
) -> Result<u128, Memory>
    requires run { run < 2 }
    requires zero { AreShelves ready.now.plan.widths ready.now.plan.rows (map S.held shelves.old.zero.items) }
    requires one { AreShelves ready.now.plan.widths ready.now.plan.rows (map S.held shelves.old.one.items) }
    requires two { AreShelves ready.now.plan.widths ready.now.plan.rows (map S.held shelves.old.two.items) }
    ensures zero { map S.held shelves.new.zero.items ≡ map S.held shelves.old.zero.items }
    ensures one { map S.held shelves.new.one.items ≡ map S.held shelves.old.one.items }
    ensures two { map S.held shelves.new.two.items ≡ map S.held shelves.old.two.items }
    ensures visits { AllVisited S.held S.visited (run_columns ready.now.plan) shelves.old shelves.new result }
    ensures some { IfOk result (λ _. 0 < count_of ready.now.plan) }
    ensures messages { let pieces = by_server (pieces_of (map S.held shelves.old.zero.items))
        (pieces_of (map S.held shelves.old.one.items)) (pieces_of (map S.held shelves.old.two.items)) in
        let views = views_of ready.now.keys in
        (ms : List Message) × Went W.sight wire.old ms wire.new
        × IsRunPart ready.now.plan (total_ending ready.now.plan) pieces run views ms
        × IfOk result (λ total. IsRun ready.now.plan (total_ending ready.now.plan) pieces run views ms 0 total) }
    ensures trace { GrewBy trace.old trace.new (run_part ready.now.plan) result }
{
    let product = run_products(rt, alloc, ready, run, shelves, wire, trace)?;
    let opened = product.reveal(rt, alloc, ready, shelves, wire, trace)?;
    Ok(opened.total)
}

/// Both runs of a query over the rows at three servers, through a wire: run 0 opens the total, and run 1, with the weights of the
/// keys, the weighted total. The shelves have the columns that the keys were made for, and the same number of rows at each
/// server, at most 65,536. In each run a server visits the predicates' columns in order, and for a sum then the value's column,
/// each chunk of a column once, rising. The only error is out of memory; the messages carried by then, and the visits of each
/// shelf, are the first ones of the query.
///
/// Where a wire alters messages, and all altered ones have one server as their sender or receiver, the two openings are what the
/// rows' chains of products add up to with the shifts of that server's messages, with the weights of their run.
pub fn both_runs<R: Threads + Sync, S: Shelf + Send, W: Wire>(
    rt: &R,
    alloc: Global,
    shelves: &mut Servers<S>,
    keys: &Keys,
    wire: &mut W,
    trace: &mut Trace,
) -> Result<OpenedPair, Memory>
    requires few { rows_of (map S.held shelves.old.zero.items) ≤ 65536 }
    requires zero { AreShelves keys.now.widths (rows_of (map S.held shelves.old.zero.items)) (map S.held shelves.old.zero.items) }
    requires one { AreShelves keys.now.widths (rows_of (map S.held shelves.old.zero.items)) (map S.held shelves.old.one.items) }
    requires two { AreShelves keys.now.widths (rows_of (map S.held shelves.old.zero.items)) (map S.held shelves.old.two.items) }
    ensures zero { map S.held shelves.new.zero.items ≡ map S.held shelves.old.zero.items }
    ensures one { map S.held shelves.new.one.items ≡ map S.held shelves.old.one.items }
    ensures two { map S.held shelves.new.two.items ≡ map S.held shelves.old.two.items }
    ensures visits { AllVisited S.held S.visited
        (query_columns (sizes_for keys.now (rows_of (map S.held shelves.old.zero.items)))) shelves.old shelves.new result }
    ensures messages { let pieces = by_server (pieces_of (map S.held shelves.old.zero.items))
        (pieces_of (map S.held shelves.old.one.items)) (pieces_of (map S.held shelves.old.two.items)) in
        let setup = setup_for keys.now.query keys.now.widths keys.now.seed (rows_of (map S.held shelves.old.zero.items)) pieces in
        (ms : List Message) × Went W.sight wire.old ms wire.new
        × IsPart setup ms
        × IfOk result (λ pair. IsTranscript setup ms × (pair.total ≡ opened_of setup ms 0) × (pair.weighted ≡ opened_of setup ms 1)) }
    ensures trace { GrewBy trace.old trace.new (trace_of (sizes_for keys.now (rows_of (map S.held shelves.old.zero.items)))) result }
    // Where the wire reports its messages and one server is an end of each altered one, both openings are sums of shifted chains.
    ensures one_server { let pieces = by_server (pieces_of (map S.held shelves.old.zero.items))
        (pieces_of (map S.held shelves.old.one.items)) (pieces_of (map S.held shelves.old.two.items)) in
        let setup = setup_for keys.now.query keys.now.widths keys.now.seed (rows_of (map S.held shelves.old.zero.items)) pieces in
        IfOk result (λ pair. (old ms : List Message) → W.sight.reported wire.old ≡ Some old
        → W.sight.reported wire.new ≡ Some (old ++ ms)
        → OneServer setup keys.now.query keys.now.seed ms pair) }
{
    transcript::laws::shifted_open();
    keys.shape();
    let rows = count_rows(shelves.zero.as_slice());
    let ready = Ready::send(alloc, keys, rows, wire, trace)?;
    let total = run_once(rt, alloc, &ready, 0, shelves, wire, trace)?;
    let weighted = run_once(rt, alloc, &ready, 1, shelves, wire, trace)?;
    Ok(OpenedPair { total, weighted })
}
