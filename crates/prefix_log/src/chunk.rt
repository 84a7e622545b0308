//! The cells of at most 64 places.
ghost use Rattle.std.specs.Prelude.{◌≡◌, ◌+◌, ◌<◌, ◌≤◌, IfOk, length};
ghost use Rattle.onehot_column.specs.Piece.{HasWidths};
ghost use Rattle.prefix_log.specs.Chunks.{HasRoom, HasRows, IsCopy, RowWritten, halves_at};

use crate::cells::Cells;
use crate::code::{part, width};
use onehot_column::Piece;
use ring128::Memory;
use std::alloc::Global;
use std::marker::Model;
use table_schema::Widths;

// The columns of some rows; the value's is the last one.
#[derive(Drop)]
pub(crate) struct Chunk {
    columns: Vec<Cells>,
}

impl Model for Chunk {
    ghost use Rattle.std.specs.Prelude.{List};
    ghost use Rattle.prefix_log.specs.Chunks.{Halves};

    ghost Value = { List Halves };

    ghost view = { λ s. s.columns.items };
}

impl Chunk {
    // No rows, with room for `rows` rows.
    pub fn new(alloc: Global, widths: &Widths, rows: usize) -> Result<Chunk, Memory>
        requires { rows ≤ 64 }
        ensures { IfOk result (HasRoom widths.now rows) }
    {
        let mut columns = Vec::with_capacity(alloc, widths.columns as usize + 1)?;
        for c in 0..widths.columns + 1 {
            columns.push(Cells::new(alloc, rows * width(widths, c) as usize)?)?;
        }
        Ok(Chunk { columns })
    }

    // Writes the cells of a piece at a row for which there is room. It takes no memory.
    pub fn write(&mut self, widths: &Widths, row: usize, piece: &Piece)
        requires few { row < 64 }
        requires room { HasRoom widths.now (row + 1) self.old }
        requires widths { HasWidths widths.now piece.now }
        ensures { RowWritten widths.now row piece.now.cells.first piece.now.cells.second self.old self.new }
    {
        write_row(&mut self.columns, widths, row, piece);
    }

    // A column.
    pub fn column(&self, c: u8) -> &Cells
        requires { c < length self.now }
        ensures { result.now ≡ halves_at self.now c }
    {
        &self.columns[c as usize]
    }

    // A copy of the first rows.
    pub fn copy(&self, alloc: Global, widths: &Widths, rows: usize) -> Result<Chunk, Memory>
        requires few { rows ≤ 64 }
        requires there { HasRows widths.now rows self.now }
        ensures { IfOk result (IsCopy widths.now rows self.now) }
    {
        let mut columns = Vec::with_capacity(alloc, widths.columns as usize + 1)?;
        for c in 0..widths.columns + 1 {
            let count = rows * width(widths, c) as usize;
            columns.push(self.column(c).copy(alloc, count)?)?;
        }
        Ok(Chunk { columns })
    }
}

// Writes the cells of a piece at a row of these columns.
fn write_row(columns: &mut Vec<Cells>, widths: &Widths, row: usize, piece: &Piece)
    requires few { row < 64 }
    requires room { HasRoom widths.now (row + 1) columns.old.items }
    requires widths { HasWidths widths.now piece.now }
    ensures { RowWritten widths.now row piece.now.cells.first piece.now.cells.second columns.old.items columns.new.items }
{
    for c in 0..widths.columns + 1 {
        let (first, second) = part(piece, widths, c);
        let start = row * width(widths, c) as usize;
        columns[c as usize].write(start, first, second);
    }
}
