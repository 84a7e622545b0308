//! A row's pieces before it is drawn.
ghost use Rattle.std.specs.Prelude.{◌≡◌, IfOk};
ghost use Rattle.table_schema.specs.Widths.{Holds};

use onehot_column::{Piece, RowPieces, pieces};
use prg_chacha::Seed;
use ring128::Memory;
use std::alloc::Global;
use std::marker::Model;
use table_schema::{Row, Widths};

/// A row with its seed, and its pieces for the three servers: all that an append needs of memory.
///
/// Contracts see it as the widths and the entry.
#[derive(Drop)]
pub struct Prepared {
    pub(crate) widths: Widths,
    pub(crate) row: Row,
    pub(crate) seed: Seed,
    pub(crate) zero: Piece,
    pub(crate) one: Piece,
    pub(crate) two: Piece,
}

impl Model for Prepared {
    ghost use Rattle.waldo_table.specs.Pieces.{Ready, HasPieces};

    ghost Value = { Ready };

    ghost view = { λ p. record { widths = p.widths; entry = (p.row, p.seed) } };

    ghost invariant = { λ p. HasPieces p.widths (p.row, p.seed) p.zero p.one p.two };
}

/// Splits a row of these widths by its seed. The only error is that memory ran out.
pub fn prepare(alloc: Global, widths: &Widths, row: &Row, seed: &Seed) -> Result<Prepared, Memory>
    requires { Holds widths.now row.now }
    ensures { IfOk result (λ p. p ≡ record { widths = widths.now; entry = (row.now, seed.now) }) }
{
    let RowPieces { zero, one, two } = pieces(alloc, widths, row, seed)?;
    Ok(Prepared {
        widths: *widths,
        row: *row,
        seed: *seed,
        zero,
        one,
        two,
    })
}
