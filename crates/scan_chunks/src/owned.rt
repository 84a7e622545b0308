ghost use Rattle.std.specs.Prelude.{◌≡◌, ◌<◌, ◌≤◌, ◌+◌, ◌-◌, ◌*◌, [], length};
ghost use Rattle.scan_chunks.specs.Pieces.{chunk_of, chunks_of};
ghost use Rattle.scan_chunks.specs.Shelf.{IsShelf};
ghost use Rattle.scan_chunks.specs.Columns.{column_at, held_of};

use crate::column::Column;
use crate::shelf::{Lent, Shelf};
use crate::visit::Visit;
use ring128::Memory;
use std::alloc::Global;

/// A shelf in memory. It owns its columns, and lends parts of them.
#[derive(Drop)]
pub struct OwnedShelf {
    rows: Rows,
    visits: Vec<Visit>,
}

impl OwnedShelf {
    /// A shelf of `rows` rows, without visits yet. The last column is the value's. It takes no memory.
    pub fn new(alloc: Global, rows: u64, start: u32, columns: Vec<Column>) -> OwnedShelf
        requires some { 0 < length columns.items }
        requires shelf { IsShelf (held_of rows start columns.items) }
        ensures held { ⟦<OwnedShelf as Shelf>⟧.held result ≡ held_of rows start columns.items }
        ensures visits { ⟦<OwnedShelf as Shelf>⟧.visited result ≡ [] }
    {
        OwnedShelf {
            rows: Rows {
                rows,
                start,
                columns,
            },
            visits: Vec::new(alloc),
        }
    }
}

impl Shelf for OwnedShelf {
    ghost held = { λ s. held_of s.rows.rows s.rows.start s.rows.columns.items };

    ghost visited = { λ s. s.visits.items };

    fn rows(&self) -> u64 {
        self.rows.count()
    }

    fn first(&self) -> u32 {
        self.rows.start
    }

    fn width(&self, column: u8) -> u64 {
        self.rows.width(column)
    }

    fn visits(&self) -> &[Visit] {
        self.visits.as_slice()
    }

    fn chunk(&mut self, c: u32, column: u8) -> Result<Lent<'_>, Memory> {
        self.visits.push(Visit { column, chunk: c })?;
        Ok(self.rows.chunk(c, column))
    }
}

// What the shelf holds.
#[derive(Drop)]
struct Rows {
    rows: u64,
    start: u32,
    columns: Vec<Column>,
    ghost some: { 0 < length columns.items },
    ghost shelf: { IsShelf (held_of rows start columns.items) },
}

impl Rows {
    // How many there are.
    fn count(&self) -> u64
        ensures value { result ≡ self.now.rows }
        ensures shelf { IsShelf (held_of self.now.rows self.now.start self.now.columns.items) }
    {
        self.rows
    }

    // How many cells a row has in a column.
    fn width(&self, column: u8) -> u64
        requires { column ≤ length self.now.columns.items - 1 }
        ensures { result ≡ (column_at self.now.columns.items column).width }
    {
        self.columns[column as usize].width
    }

    // A chunk of a column.
    fn chunk(&self, c: u32, column: u8) -> Lent<'_>
        requires column { column ≤ length self.now.columns.items - 1 }
        requires from { self.now.start ≤ c }
        requires below { c < self.now.start + chunks_of self.now.rows }
        ensures first { let at = column_at self.now.columns.items column in
            result.first.now ≡ chunk_of at.width (c - self.now.start) at.first }
        ensures second { let at = column_at self.now.columns.items column in
            result.second.now ≡ chunk_of at.width (c - self.now.start) at.second }
    {
        let chunk = u64::from(c - self.start);
        let column = &self.columns[column as usize];
        Lent {
            first: part(column.first.as_slice(), chunk, self.rows, column.width),
            second: part(column.second.as_slice(), chunk, self.rows, column.width),
        }
    }
}

// A chunk of the cells of `rows` rows, counted from 0.
fn part(cells: &[u128], chunk: u64, rows: u64, width: u64) -> &[u128]
    requires long { length cells.now ≡ rows * width }
    requires there { chunk < chunks_of rows }
    ensures { result.now ≡ chunk_of width chunk cells.now }
{
    let row = 64 * chunk;
    let count = 64.min(rows - row);
    let start = (row * width) as usize;
    &cells[start..start + (count * width) as usize]
}
