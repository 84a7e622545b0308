//! What one server sends after the products of the bits.
ghost use Rattle.std.specs.Prelude.{◌≡◌, ◌+◌, ◌*◌, ◌^◌, ◌<◌, ◌≤◌, [], ◌∷◌, map, length, IfOk};
ghost use Rattle.onehot_column.specs.Code.{width_of};
ghost use Rattle.server_rounds.specs.Groups.{AreLong, first_of, second_of};
ghost use Rattle.server_rounds.specs.Plans.{views_of};
ghost use Rattle.server_rounds.specs.Shelves.{AreShelves, pieces_of};
ghost use Rattle.server_rounds.specs.Visits.{AreVisited};
ghost use Rattle.bucket_groups.specs.Ending.{bucket_words, value_products};

use crate::sums::bucket_sums;
use ring128::{Memory, Words};
use scan_chunks::Shelf;
use server_rounds::{Held, Ready, with_zeros};
use share_product::locals;
use std::alloc::Global;
use table_schema::Widths;

// How many cells a row has at a column.
fn width(widths: &Widths, column: u8) -> usize
    requires { column < widths.now.columns }
    ensures value { result ≡ width_of widths.now column }
    ensures narrow { result ≤ 256 }
{
    1 << widths.bits[column as usize]
}

/// The counter of a step's first zero part in a run.
pub(crate) fn counter(step: u64, run: u8) -> u64
    requires step { step < 64 }
    requires run { run < 2 }
    ensures value { result ≡ (step + 2 * run) * 65536 }
    ensures small { result + 65536 < 2 ^ 64 }
{
    (step + 2 * u64::from(run)) * 65_536
}

/// A server's numbers of the products with the values, without their parts of zero.
pub(crate) fn value_part<S: Shelf>(
    alloc: Global,
    ready: &Ready,
    server: u8,
    shelves: &mut Vec<S>,
    chain: &Held,
) -> Result<Words, Memory>
    requires server { server < 3 }
    requires chain { AreLong ready.now.plan.rows chain.now }
    requires shelves { AreShelves ready.now.plan.widths ready.now.plan.rows (map S.held shelves.old.items) }
    ensures held { map S.held shelves.new.items ≡ map S.held shelves.old.items }
    ensures long { IfOk result (λ w. length w ≡ ready.now.plan.rows) }
    ensures numbers { IfOk result (λ w. w ≡ value_products ready.now.plan (pieces_of (map S.held shelves.old.items))
        (first_of chain.now server) (second_of chain.now server)) }
    ensures visits { AreVisited S.held S.visited (ready.now.plan.widths.columns ∷ []) shelves.old.items shelves.new.items result }
{
    let values = ready.cells(alloc, shelves, ready.widths().columns)?;
    let numbers = locals(alloc, chain.of_server(server), &values)?;
    Ok(numbers)
}

/// A server's words of the openings, one a bucket.
pub(crate) fn bucket_part<S: Shelf>(
    alloc: Global,
    ready: &Ready,
    server: u8,
    shelves: &mut Vec<S>,
    held: &Held,
    column: u8,
    run: u8,
) -> Result<Words, Memory>
    requires server { server < 3 }
    requires run { run < 2 }
    requires column { column < ready.now.plan.widths.columns }
    requires chain { AreLong ready.now.plan.rows held.now }
    requires shelves { AreShelves ready.now.plan.widths ready.now.plan.rows (map S.held shelves.old.items) }
    ensures held { map S.held shelves.new.items ≡ map S.held shelves.old.items }
    ensures long { IfOk result (λ w. length w ≡ width_of ready.now.plan.widths column) }
    ensures words { IfOk result (λ w. w ≡ bucket_words ready.now.plan column run (views_of ready.now.keys server)
        (pieces_of (map S.held shelves.old.items)) (first_of held.now server) (second_of held.now server)) }
    ensures visits { AreVisited S.held S.visited (column ∷ []) shelves.old.items shelves.new.items result }
{
    let pairs = held.of_server(server);
    let (first, second) = (pairs.first.as_slice(), pairs.second.as_slice());
    let width = width(&ready.widths(), column);
    let sums = bucket_sums(alloc, first, second, column, width, shelves.as_mut_slice())?;
    let start = counter(33, run);
    Ok(with_zeros(sums, ready.zero(server), start))
}
