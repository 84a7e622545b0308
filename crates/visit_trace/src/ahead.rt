//! Traces from sizes alone.
ghost use Rattle.std.specs.Prelude.{◌≡◌, ◌≤◌, ◌++◌, IfOk, OnOk};
ghost use Rattle.visit_trace.specs.Expected.{chunk_visits, product_lengths, query_lengths, run_lengths, trace_of, visits_over};
ghost use Rattle.visit_trace.specs.Sizes.{AreLegal, count_of, predicate_columns, query_columns, run_columns};

use crate::run::Run;
use crate::runs::Runs;
use crate::sizes::Sizes;
use crate::trace::{Notes, Trace};
use query_plan::message_length;
use ring128::Memory;
use std::alloc::Global;
use table_schema::Aggregate;

/// What the servers see of a query of these sizes, from the sizes alone. In each of two runs a server visits the columns of the
/// predicates in order, and for a sum then the value's column, each chunk of a column once, rising. It receives its key message;
/// in a run it sends one message and receives one, of a word a row each, in the bits of each predicate and in each product, and
/// sends one word in the opening. The only error is out of memory.
pub fn expected(alloc: Global, sizes: &Sizes) -> Result<Trace, Memory>
    requires { AreLegal sizes.now }
    ensures { IfOk result (λ t. t ≡ trace_of sizes.now) }
{
    let zero = query_notes(alloc, sizes)?;
    let one = query_notes(alloc, sizes)?;
    let two = query_notes(alloc, sizes)?;
    Ok(Trace { zero, one, two })
}

// What one server sees.
fn query_notes(alloc: Global, sizes: &Sizes) -> Result<Notes, Memory>
    requires { AreLegal sizes.now }
    ensures visits { IfOk result (λ n. n.visits ≡ visits_over sizes.now.rows (query_columns sizes.now)) }
    ensures lengths { IfOk result (λ n. n.lengths.items ≡ query_lengths sizes.now) }
{
    let mut notes = Notes::new(alloc);
    notes
        .lengths
        .push(message_length(&sizes.shape, &sizes.widths))?;
    add_run(&mut notes, sizes)?;
    add_run(&mut notes, sizes)?;
    Ok(notes)
}

// Adds what a server sees of a run.
fn add_run(notes: &mut Notes, sizes: &Sizes) -> Result<(), Memory>
    requires { AreLegal sizes.now }
    ensures visits { OnOk result (notes.new.visits ≡ notes.old.visits ++ visits_over sizes.now.rows (run_columns sizes.now)) }
    ensures lengths { OnOk result (notes.new.lengths.items ≡ notes.old.lengths.items ++ run_lengths sizes.now) }
{
    add_predicates(&mut notes.visits, sizes)?;
    if sizes.shape.aggregate == Aggregate::Sum {
        add_column(&mut notes.visits, sizes.rows, sizes.widths.columns)?;
    }
    add_products(&mut notes.lengths, sizes)?;
    notes.lengths.push(1)?;
    Ok(())
}

// Adds the visits of the bits of a run.
fn add_predicates(visits: &mut Runs, sizes: &Sizes) -> Result<(), Memory>
    requires { AreLegal sizes.now }
    ensures { OnOk result (visits.new ≡ visits.old ++ visits_over sizes.now.rows (predicate_columns sizes.now)) }
{
    for j in 0..sizes.shape.count as usize {
        add_column(visits, sizes.rows, sizes.shape.parts[j].column)?;
    }
    Ok(())
}

// Adds the visits of a column.
fn add_column(visits: &mut Runs, rows: u64, column: u8) -> Result<(), Memory>
    requires { rows ≤ 65536 }
    ensures { OnOk result (visits.new ≡ visits.old ++ chunk_visits rows column) }
{
    let chunks = rows.div_ceil(64) as u32;
    if chunks > 0 {
        visits.add(&[Run {
            column,
            first: 0,
            last: chunks - 1,
        }])?;
    }
    Ok(())
}

// Adds the lengths of the bits and products of a run.
fn add_products(lengths: &mut Vec<u64>, sizes: &Sizes) -> Result<(), Memory>
    requires { AreLegal sizes.now }
    ensures { OnOk result (lengths.new.items ≡ lengths.old.items ++ product_lengths sizes.now (count_of sizes.now)) }
{
    for _i in 0..2 * (2 * sizes.shape.count - 1) {
        lengths.push(sizes.rows)?;
    }
    Ok(())
}
