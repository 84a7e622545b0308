ghost use Rattle.std.specs.Prelude.{◌≡◌, ◌<◌, ◌≤◌, ◌+◌, ◌-◌, IfOk, length, slice_index};
ghost use Rattle.table_schema.specs.Widths.{Holds, code_length, column_bits};
ghost use Rattle.onehot_column.specs.Code.{start_of, width_of, cells_at};
ghost use Rattle.onehot_column.specs.Piece.{HasWidths, IsPiece};

use crate::coding::code;
use prg_chacha::Seed;
use replicated_share::{Pair, PairList, split};
use ring128::Memory;
use std::alloc::Global;
use table_schema::{Row, Widths};

/// What server 0, 1 or 2 holds of a row: its pairs of shares of the code.
#[derive(Drop)]
pub struct Piece {
    pub server: u8,
    pub cells: PairList,
}

/// The pieces of a row at servers 0, 1 and 2.
#[derive(Drop)]
pub struct RowPieces {
    pub zero: Piece,
    pub one: Piece,
    pub two: Piece,
}

/// The pieces of a row: its code, split by the seed, two shares at each server. The only error is out
/// of memory.
pub fn pieces(alloc: Global, widths: &Widths, row: &Row, seed: &Seed) -> Result<RowPieces, Memory>
    requires { Holds widths.now row.now }
    ensures zero { IfOk result (λ p. IsPiece widths.now row.now seed.now 0 p.zero) }
    ensures one { IfOk result (λ p. IsPiece widths.now row.now seed.now 1 p.one) }
    ensures two { IfOk result (λ p. IsPiece widths.now row.now seed.now 2 p.two) }
    ensures zero_widths { IfOk result (λ p. HasWidths widths.now p.zero) }
    ensures one_widths { IfOk result (λ p. HasWidths widths.now p.one) }
    ensures two_widths { IfOk result (λ p. HasWidths widths.now p.two) }
{
    let code = code(alloc, widths, row)?;
    let (zero, one, two) = split(alloc, code.as_slice(), seed)?.into_pairs(alloc)?;
    Ok(RowPieces {
        zero: Piece {
            server: 0,
            cells: zero,
        },
        one: Piece {
            server: 1,
            cells: one,
        },
        two: Piece {
            server: 2,
            cells: two,
        },
    })
}

// Where a column begins and ends in a list that is as long as a code.
fn bounds(widths: &Widths, c: u8) -> (usize, usize)
    requires { c < widths.now.columns }
    ensures start { result.0 ≡ start_of widths.now c }
    ensures end { result.1 ≡ start_of widths.now c + width_of widths.now c }
    ensures within { result.1 ≤ code_length (column_bits widths.now) }
{
    let mut start = 0;
    for b in &widths.bits[..c as usize] {
        start += 1usize << *b;
    }
    (start, start + (1usize << widths.bits[c as usize]))
}

impl Piece {
    /// The own and the next server's shares at a column, 2^bits numbers each.
    pub fn column(&self, widths: &Widths, c: u8) -> (&[u128], &[u128])
        requires column { c < widths.now.columns }
        requires widths { HasWidths widths.now self.now }
        ensures first { result.0.now ≡ cells_at widths.now c self.now.cells.first }
        ensures second { result.1.now ≡ cells_at widths.now c self.now.cells.second }
    {
        let (start, end) = bounds(widths, c);
        let first = &self.cells.first.as_slice()[start..end];
        let second = &self.cells.second.as_slice()[start..end];
        (first, second)
    }

    /// The shares of the row's value modulo 2^128, which is the last number of the code.
    pub fn value(&self) -> Pair
        requires { 0 < length self.now.cells.first }
        ensures first { result.first ≡ slice_index self.now.cells.first (length self.now.cells.first - 1) }
        ensures second { result.second ≡ slice_index self.now.cells.second (length self.now.cells.first - 1) }
    {
        self.cells.at(self.cells.len() - 1)
    }
}
