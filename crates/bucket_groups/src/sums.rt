//! Sums over rows, bucket by bucket, added up as a server's shelves lend their cells.
ghost use Rattle.std.specs.Prelude.{◌≡◌, ◌*◌, ◌^◌, ◌++◌, ◌<◌, ◌≤◌, length, slice_index, All, IfOk, OnOk, OnErr};
ghost use Rattle.std.specs.List.{AllZip, flat_map};
ghost use Rattle.list_facts.specs.Count.{total};
ghost use Rattle.list_facts.specs.Listed.{listed};
ghost use Rattle.ring128.specs.Ring.{plus};
ghost use Rattle.share_product.specs.Product.{local_of};
ghost use Rattle.scan_chunks.specs.Scan.{visits_of, VisitsPart};
ghost use Rattle.bucket_groups.specs.Ending.{sums_of, with_rows};

use replicated_share::Pair;
use ring128::{Memory, Words, add, mul};
use scan_chunks::{Shelf, row};
use std::alloc::Global;

// Adds to each place the local product of a pair with the pair of cells at that place.
fn add_row(to: &mut [u128], by: Pair, first: &[u128], second: &[u128])
    requires first { length first.now ≡ length to.old }
    requires second { length second.now ≡ length to.old }
    ensures { to.new ≡ listed (length to.old) (λ b. plus (slice_index to.old b)
        (local_of by.first by.second (slice_index first.now b) (slice_index second.now b))) }
{
    let both = add(by.first, by.second);
    for b in 0..to.len() {
        let part = add(mul(both, first[b]), mul(by.first, second[b]));
        to[b] = add(to[b], part);
    }
}

// Adds the rows of a chunk, whose cells are `near` and `far`, with a pair a row.
fn add_chunk(sums: &mut [u128], first: &[u128], second: &[u128], near: &[u128], far: &[u128])
    requires small { All (λ n. n < 2 ^ 128) sums.old }
    requires second { length second.now ≡ length first.now }
    requires near { length near.now ≡ length first.now * length sums.old }
    requires far { length far.now ≡ length first.now * length sums.old }
    ensures { sums.new ≡ with_rows sums.old first.now second.now near.now far.now }
{
    let (count, width) = (first.len(), sums.len());
    for i in 0..count {
        let by = Pair {
            first: first[i],
            second: second[i],
        };
        add_row(
            sums,
            by,
            row(near, i, count, width),
            row(far, i, count, width),
        );
    }
}

// Adds the rows of a shelf, with a pair a row. Each chunk of the column is visited once, rising.
fn add_shelf<S: Shelf>(
    sums: &mut [u128],
    column: u8,
    first: &[u128],
    second: &[u128],
    shelf: &mut S,
) -> Result<(), Memory>
    requires small { All (λ n. n < 2 ^ 128) sums.old }
    requires column { column ≤ (S.held shelf.old).columns }
    requires wide { (S.held shelf.old).width column ≡ length sums.old }
    requires first { length first.now ≡ (S.held shelf.old).rows }
    requires second { length second.now ≡ (S.held shelf.old).rows }
    ensures held { S.held shelf.new ≡ S.held shelf.old }
    ensures sums { let pieces = (S.held shelf.old).pieces in
        OnOk result (sums.new ≡ with_rows sums.old first.now second.now (pieces.first column) (pieces.second column)) }
    ensures visits { OnOk result (S.visited shelf.new ≡ S.visited shelf.old ++ visits_of (S.held shelf.old) column) }
    ensures part { OnErr result (VisitsPart (S.visited shelf.old) (S.visited shelf.new) (visits_of (S.held shelf.old) column)) }
{
    let rows = shelf.rows() as usize;
    let start = shelf.first();
    for c in 0..rows.div_ceil(64) {
        let lent = shelf.chunk(start + c as u32, column)?;
        let from = 64 * c;
        let count = 64.min(rows - from);
        add_chunk(
            sums,
            &first[from..from + count],
            &second[from..from + count],
            lent.first,
            lent.second,
        );
    }
    Ok(())
}

/// For each bucket, the sum over a server's rows, with a pair a row, of the local products with the pairs of their cells of the bucket.
/// Each chunk of the column is visited once, rising. The only error is out of memory; each shelf's visits are then the first of its
/// own.
pub(crate) fn bucket_sums<S: Shelf>(
    alloc: Global,
    first: &[u128],
    second: &[u128],
    column: u8,
    width: usize,
    shelves: &mut [S],
) -> Result<Words, Memory>
    requires column { All (λ s. column ≤ (S.held s).columns) shelves.old }
    requires wide { All (λ s. (S.held s).width column ≡ width) shelves.old }
    requires first { length first.now ≡ total (λ s. (S.held s).rows) shelves.old }
    requires second { length second.now ≡ length first.now }
    requires narrow { width ≤ 256 }
    ensures held { AllZip (λ s t. S.held t ≡ S.held s) shelves.old shelves.new }
    ensures sums { IfOk result (λ words. words ≡ sums_of (length first.now) width first.now second.now
        (flat_map (λ s. (S.held s).pieces.first column) shelves.old) (flat_map (λ s. (S.held s).pieces.second column) shelves.old)) }
    ensures visits { OnOk result (AllZip (λ s t. S.visited t ≡ S.visited s ++ visits_of (S.held s) column) shelves.old shelves.new) }
    ensures part { OnErr result (AllZip
        (λ s t. VisitsPart (S.visited s) (S.visited t) (visits_of (S.held s) column)) shelves.old shelves.new) }
{
    let mut sums = vec![in alloc; 0; width]?;
    let mut from = 0;
    for i in 0..shelves.len() {
        let shelf = &mut shelves[i];
        let to = from + shelf.rows() as usize;
        add_shelf(
            &mut sums,
            column,
            &first[from..to],
            &second[from..to],
            shelf,
        )?;
        from = to;
    }
    Ok(Words::from_vec(sums))
}
