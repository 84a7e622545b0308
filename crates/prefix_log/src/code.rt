//! The parts of a piece at the columns.
ghost use Rattle.std.specs.Prelude.{◌≡◌, ◌≤◌};
ghost use Rattle.onehot_column.specs.Code.{cells_at, width_of};
ghost use Rattle.onehot_column.specs.Piece.{HasWidths};

use onehot_column::Piece;
use table_schema::Widths;

// The firsts and the seconds of a piece's cells at a column, or at the value's, which is the last one.
pub(crate) fn part<'a>(piece: &'a Piece, widths: &Widths, c: u8) -> (&'a [u128], &'a [u128])
    requires column { c ≤ widths.now.columns }
    requires widths { HasWidths widths.now piece.now }
    ensures first { result.0.now ≡ cells_at widths.now c piece.now.cells.first }
    ensures second { result.1.now ≡ cells_at widths.now c piece.now.cells.second }
{
    if c < widths.columns {
        return piece.column(widths, c);
    }
    let last = piece.cells.len() - 1;
    (
        &piece.cells.first.as_slice()[last..],
        &piece.cells.second.as_slice()[last..],
    )
}

// How many cells a row has at a column.
pub(crate) fn width(widths: &Widths, c: u8) -> u64
    requires { c ≤ widths.now.columns }
    ensures value { result ≡ width_of widths.now c }
    ensures narrow { result ≤ 256 }
{
    if c < widths.columns {
        1 << widths.bits[c as usize]
    } else {
        1
    }
}
