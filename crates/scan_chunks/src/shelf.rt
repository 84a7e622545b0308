ghost use Rattle.std.specs.Prelude.{◌≡◌, ◌+◌, ◌-◌, ◌<◌, ◌≤◌, [], ◌∷◌, ◌++◌, OnOk, IfOk, OnErr, ⊤};
ghost use Rattle.std.specs.Borrow.{sem};
ghost use denote.Follow.{follows_so};
ghost use mathlib.Core.Option.{none};
ghost use Rattle.scan_chunks.specs.Pieces.{chunk_of, chunks_of};
ghost use Rattle.scan_chunks.specs.Shelf.{IsShelf};

use crate::visit::Visit;
use ring128::Memory;

/// One chunk of one column: the firsts and the seconds of its cells, row after row.
#[derive(Clone, Copy)]
pub struct Lent<'a> {
    pub first: &'a [u128],
    pub second: &'a [u128],
}

/// The pieces of consecutive rows, column by column, which are lent in chunks of 64 rows; the last chunk may have fewer.
/// The value's column has the number of columns, and one cell a row.
pub trait Shelf {
    ghost use Rattle.std.specs.Prelude.{List};
    ghost use Rattle.scan_chunks.specs.Shelf.{Held};
    ghost use Rattle.scan_chunks.specs.declared.visit.Visit.{Visit};

    // What the shelf holds, which no call changes.
    ghost held: { Self → Held };

    // The chunks that were lent.
    ghost visited: { Self → List Visit };

    /// How many rows there are.
    fn rows(&self) -> u64
        ensures value { result ≡ (held self.now).rows }
        ensures shelf { IsShelf (held self.now) };

    /// The number of the first chunk.
    fn first(&self) -> u32
        ensures { result ≡ (held self.now).start };

    /// How many cells a row has in a column.
    fn width(&self, column: u8) -> u64
        requires { column ≤ (held self.now).columns }
        ensures { result ≡ (held self.now).width column };

    /// The chunks that were lent, in order.
    fn visits(&self) -> &[Visit]
        ensures { result.now ≡ visited self.now };

    /// Lends a chunk of a column and notes the visit. Chunk c begins at row 64 * (c - first).
    fn chunk(&mut self, c: u32, column: u8) -> Result<Lent<'_>, Memory>
        requires column { column ≤ (held self.old).columns }
        requires from { (held self.old).start ≤ c }
        requires below { c < (held self.old).start + chunks_of (held self.old).rows }
        ensures* after { sem 𝓛 (follows_so Self.row Self.row self.entry.ghost_name none (λ _ _. ⊤)
            (λ v. (held v ≡ held self.old)
            × OnOk result (visited v ≡ visited self.old ++ record { column = column; chunk = c } ∷ [])
            × OnErr result (visited v ≡ visited self.old))) }
        ensures first { IfOk result (λ l. l.first.now
            ≡ chunk_of ((held self.old).width column) (c - (held self.old).start) ((held self.old).pieces.first column)) }
        ensures second { IfOk result (λ l. l.second.now
            ≡ chunk_of ((held self.old).width column) (c - (held self.old).start) ((held self.old).pieces.second column)) };
}
