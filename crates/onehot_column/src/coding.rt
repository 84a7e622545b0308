ghost use Rattle.std.specs.Prelude.{◌≡◌, ◌+◌, ◌≤◌, ◌++◌, IfOk, vec_len, vec_capacity};
ghost use Rattle.table_schema.specs.Widths.{Holds};
ghost use Rattle.onehot_column.specs.Code.{one_hot, code_of};
ghost use Rattle.ring128.specs.Signed.{word_of};

use ring128::{Memory, Words, neg};
use std::alloc::Global;
use table_schema::{Row, Widths};

/// The code of a row: for each column in order 2^bits numbers, 1 at the bucket and 0 elsewhere, and then the
/// value modulo 2^128. The only error is out of memory.
pub fn code(alloc: Global, widths: &Widths, row: &Row) -> Result<Words, Memory>
    requires { Holds widths.now row.now }
    ensures { IfOk result (λ w. w ≡ code_of widths.now row.now) }
{
    let mut cells = Vec::with_capacity(alloc, widths.cells(1) as usize)?;
    for c in 0..widths.columns as usize {
        push_one_hot(&mut cells, 1 << widths.bits[c], row.buckets[c] as usize);
    }
    cells.push_reserved(word(row.value));
    Ok(Words::from_vec(cells))
}

// Appends `size` numbers, 1 at a place and 0 elsewhere.
fn push_one_hot(cells: &mut Vec<u128>, size: usize, place: usize)
    requires { vec_len cells.old + size ≤ vec_capacity cells.old }
    ensures items { cells.new.items ≡ cells.old.items ++ one_hot size place }
    ensures len { vec_len cells.new ≡ vec_len cells.old + size }
    ensures capacity { vec_capacity cells.new ≡ vec_capacity cells.old }
{
    for x in 0..size {
        cells.push_reserved(u128::from(x == place));
    }
}

// The number of a value.
fn word(value: i64) -> u128
    ensures { result ≡ word_of value }
{
    let size = value.unsigned_abs() as u128;
    if value < 0 { neg(size) } else { size }
}
