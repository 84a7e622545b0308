//! A server's part of a sum of values, added up as its shelves lend them.
ghost use Rattle.std.specs.Prelude.{◌≡◌, ◌++◌, length, All, IfOk, OnOk, OnErr};
ghost use Rattle.std.specs.List.{AllZip, flat_map};
ghost use Rattle.list_facts.specs.Count.{total};
ghost use Rattle.share_product.specs.Product.{inner_of};
ghost use Rattle.scan_chunks.specs.Scan.{visits_of, VisitsPart};

use ring128::{Memory, add};
use scan_chunks::Shelf;
use share_product::inner_lent;

// The part of one shelf: the local products of a pair a row with the row's value.
fn inner_of_shelf<S: Shelf>(
    value: u8,
    first: &[u128],
    second: &[u128],
    shelf: &mut S,
) -> Result<u128, Memory>
    requires value { value ≡ (S.held shelf.old).columns }
    requires first { length first.now ≡ (S.held shelf.old).rows }
    requires second { length second.now ≡ (S.held shelf.old).rows }
    ensures held { S.held shelf.new ≡ S.held shelf.old }
    ensures sum { let pieces = (S.held shelf.old).pieces in
        IfOk result (λ n. n ≡ inner_of first.now second.now (pieces.first value) (pieces.second value)) }
    ensures visits { OnOk result (S.visited shelf.new ≡ S.visited shelf.old ++ visits_of (S.held shelf.old) value) }
    ensures part { OnErr result (VisitsPart (S.visited shelf.old) (S.visited shelf.new) (visits_of (S.held shelf.old) value)) }
{
    let rows = shelf.rows() as usize;
    let start = shelf.first();
    let mut sum = 0;
    for c in 0..rows.div_ceil(64) {
        let lent = shelf.chunk(start + c as u32, value)?;
        let row = 64 * c;
        let count = 64.min(rows - row);
        let near = &first[row..row + count];
        let far = &second[row..row + count];
        sum = add(sum, inner_lent(near, far, lent.first, lent.second));
    }
    Ok(sum)
}

/// A server's part of the sum of the values of its rows, with a pair a row: the sum of the local products. Each chunk of the values is
/// visited once, rising. The only error is out of memory; each shelf's visits are then the first of its own.
pub(crate) fn inner_of_values<S: Shelf>(
    value: u8,
    first: &[u128],
    second: &[u128],
    shelves: &mut [S],
) -> Result<u128, Memory>
    requires value { All (λ s. value ≡ (S.held s).columns) shelves.old }
    requires first { length first.now ≡ total (λ s. (S.held s).rows) shelves.old }
    requires second { length second.now ≡ length first.now }
    ensures held { AllZip (λ s t. S.held t ≡ S.held s) shelves.old shelves.new }
    ensures sum { IfOk result (λ n. n ≡ inner_of first.now second.now
        (flat_map (λ s. (S.held s).pieces.first value) shelves.old) (flat_map (λ s. (S.held s).pieces.second value) shelves.old)) }
    ensures visits { OnOk result (AllZip (λ s t. S.visited t ≡ S.visited s ++ visits_of (S.held s) value) shelves.old shelves.new) }
    ensures part { OnErr result (AllZip
        (λ s t. VisitsPart (S.visited s) (S.visited t) (visits_of (S.held s) value)) shelves.old shelves.new) }
{
    let mut sum = 0;
    let mut from = 0;
    for i in 0..shelves.len() {
        let shelf = &mut shelves[i];
        let to = from + shelf.rows() as usize;
        let part = inner_of_shelf(value, &first[from..to], &second[from..to], shelf)?;
        sum = add(sum, part);
        from = to;
    }
    Ok(sum)
}
