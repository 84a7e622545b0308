ghost use Rattle.std.specs.Prelude.{◌≡◌, ◌<◌, ◌≤◌, ◌+◌, ◌*◌, ◌^◌, ◌++◌, [], ◌∷◌, length, IfOk, OnOk, OnErr, ⊤};
ghost use Rattle.std.specs.Borrow.{sem};
ghost use denote.Follow.{follows_so};
ghost use mathlib.Core.Option.{none};
ghost use Rattle.scan_chunks.specs.Scan.{visits_of, VisitsPart};
ghost use Rattle.row_tree.specs.Sums.{list_of};
ghost use Rattle.row_tree.specs.contracts.tree.RowTree.{the_row};

use crate::node::Node;
use crate::running::{run_chunks, sum_between};
use ring128::Memory;
use scan_chunks::{Lent, Shelf};
use std::alloc::Global;
use std::marker::Model;

/// One column of a server's rows, with the sum of the rows of any node at hand. It keeps running sums, which take as many words as the
/// cells of the rows: 32 bytes a cell for both shares. A node's list then costs a subtraction a cell, however many rows the node
/// has.
#[derive(Drop)]
pub struct RowTree {
    column: u8,
    width: u64,
    rows: u64,
    first: Vec<u128>,
    second: Vec<u128>,
    near: Near,
    visits: Vec<Node>,
}

// The list that was lent last.
#[derive(Drop)]
struct Near {
    first: Vec<u128>,
    second: Vec<u128>,
}

impl Near {
    // Lends it.
    fn lend(&self) -> Lent<'_>
        ensures first { result.first.now ≡ self.now.first.items }
        ensures second { result.second.now ≡ self.now.second.items }
    {
        Lent {
            first: self.first.as_slice(),
            second: self.second.as_slice(),
        }
    }
}

impl Model for RowTree {
    ghost use Rattle.std.specs.Prelude.{◌≡◌, ◌*◌, ◌≤◌, length};
    ghost use Rattle.row_tree.specs.Column.{Tree};
    ghost use Rattle.row_tree.specs.Running.{cells_in};

    ghost Value = { Tree };

    ghost view = { λ t. record {
      column = t.column;
      width = t.width;
      rows = t.rows;
      first = cells_in t.width t.first.items;
      second = cells_in t.width t.second.items;
      visits = t.visits.items;
    } };

    ghost invariant = { λ t. (2 ≤ t.width) × (t.width ≤ 256) × (t.rows ≤ 65536)
        × (length t.first.items ≡ t.rows * t.width) × (length t.second.items ≡ t.rows * t.width) };
}

impl RowTree {
    /// A tree over a column of a width from 2 to 256, without rows or visits. It takes no memory.
    pub fn new(alloc: Global, column: u8, width: u64) -> RowTree
        requires least { 2 ≤ width }
        requires most { width ≤ 256 }
        ensures { result ≡ record { column = column; width = width; rows = 0; first = []; second = []; visits = [] } }
    {
        RowTree {
            column,
            width,
            rows: 0,
            first: Vec::new(alloc),
            second: Vec::new(alloc),
            near: Near {
                first: Vec::new(alloc),
                second: Vec::new(alloc),
            },
            visits: Vec::new(alloc),
        }
    }

    /// How many rows there are.
    pub fn rows(&self) -> u64
        ensures value { result ≡ self.now.rows }
        ensures few { result ≤ 65536 }
    {
        self.rows
    }

    /// How many cells a row has.
    pub fn width(&self) -> u64
        ensures { result ≡ self.now.width }
    {
        self.width
    }

    /// The nodes that were lent, in order.
    pub fn visits(&self) -> &[Node]
        ensures { result.now ≡ self.now.visits }
    {
        self.visits.as_slice()
    }

    /// Appends the shelf's rows, chunk by chunk, without a copy of the column. Each chunk of the column is visited once, rising. The
    /// only error is out of memory; the tree is then as before, and the shelf's visits are the first of these.
    pub fn add_rows<S: Shelf>(&mut self, _alloc: Global, shelf: &mut S) -> Result<(), Memory>
        requires column { self.old.column ≤ (S.held shelf.old).columns }
        requires width { (S.held shelf.old).width self.old.column ≡ self.old.width }
        requires few { self.old.rows + (S.held shelf.old).rows ≤ 65536 }
        ensures held { S.held shelf.new ≡ S.held shelf.old }
        ensures rows { OnOk result (self.new ≡ record self.old {
          rows = self.old.rows + (S.held shelf.old).rows;
          first = self.old.first ++ (S.held shelf.old).pieces.first self.old.column;
          second = self.old.second ++ (S.held shelf.old).pieces.second self.old.column;
        }) }
        ensures visits { OnOk result (S.visited shelf.new ≡ S.visited shelf.old ++ visits_of (S.held shelf.old) self.old.column) }
        ensures kept { OnErr result (self.new ≡ self.old) }
        ensures part { OnErr result
            (VisitsPart (S.visited shelf.old) (S.visited shelf.new) (visits_of (S.held shelf.old) self.old.column)) }
    {
        let rows = shelf.rows();
        let width = self.width as usize;
        let more = rows as usize * width;
        self.first.reserve(more)?;
        self.second.reserve(more)?;
        let long = self.first.len();
        let (first, second) = (&mut self.first, &mut self.second);
        let added = run_chunks(shelf, self.column, width, first, second);
        if added.is_ok() {
            self.rows += rows;
        } else {
            self.first.truncate(long);
            self.second.truncate(long);
        }
        added
    }

    /// Lends the list of a node that is there, a cell for each of the column's buckets, and notes the visit. The only error is out of
    /// memory; nothing was then noted.
    pub fn node(&mut self, node: Node) -> Result<Lent<'_>, Memory>
        requires { (node.index + 1) * 2 ^ node.height ≤ self.old.rows }
        ensures* after { sem 𝓛 (follows_so the_row the_row self.entry.ghost_name none (λ _ _. ⊤)
            (λ v. OnOk result (v ≡ record self.old { visits = self.old.visits ++ node ∷ [] })
            × OnErr result (v ≡ self.old))) }
        ensures first { IfOk result (λ l. l.first.now ≡ list_of self.old.width self.old.first node) }
        ensures second { IfOk result (λ l. l.second.now ≡ list_of self.old.width self.old.second node) }
    {
        let alloc = *self.visits.allocator();
        let size = 1usize << node.height;
        let from = node.index as usize * size;
        let rows = self.rows as usize;
        let width = self.width as usize;
        let first = sum_between(alloc, self.first.as_slice(), rows, width, from, from + size)?;
        let second = sum_between(
            alloc,
            self.second.as_slice(),
            rows,
            width,
            from,
            from + size,
        )?;
        self.visits.push(node)?;
        self.near = Near { first, second };
        Ok(self.near.lend())
    }
}
