//! The order of draws.
ghost use Rattle.std.specs.Prelude.{◌≡◌, ◌<◌, ◌≤◌, ◌+◌, ◌++◌, ◌∷◌, [], IfOk, IfNone, IfSome, length, map};
ghost use Rattle.waldo_core.specs.InBulk.{pair_of};

use prg_chacha::Seed;
use ring128::Memory;
use std::alloc::Global;
use std::marker::Model;
use table_schema::Row;
use ticket_place::{Book, Entry, Sight};

/// The one order of draws: a book, and the only sight of it. It keeps how many draws there were; which row and which seed a place
/// has stands in the contracts alone.
#[derive(Drop)]
pub(crate) struct Order {
    book: Book,
    sight: Sight,
}

impl Model for Order {
    ghost use Rattle.waldo_core.specs.Orders.{Entries};

    ghost Value = { Entries };

    ghost use Rattle.waldo_core.specs.Orders.{IsOnly, entries_in};

    ghost view = { λ o. entries_in o.sight };

    ghost invariant = { λ o. IsOnly o.book o.sight };
}

impl Order {
    /// No draws yet, and at most `capacity`. The only error is out of memory.
    pub(crate) fn new(alloc: Global, capacity: u32) -> Result<Order, Memory>
        ensures { IfOk result (λ o. o ≡ record { all = []; capacity = capacity }) }
    {
        let (book, sight) = Book::new(alloc, capacity)?;
        Ok(Order { book, sight })
    }

    /// The sight of the book.
    pub(crate) fn sight(&self) -> &Sight
        ensures { result.now.order ≡ self.now.all }
    {
        &self.sight
    }

    /// Adds a row and its seed at the end, and answers their place; None where there are as many draws as the order takes. It takes
    /// no memory.
    pub(crate) fn add(&mut self, row: Row, seed: Seed) -> Option<u64>
        ensures place { IfSome result (λ place. place ≡ length self.old.all) }
        ensures room { IfSome result (λ place. place < self.old.capacity) }
        ensures added { IfSome result (λ place. self.new ≡ record self.old { all = self.old.all ++ (row, seed) ∷ [] }) }
        ensures full { IfNone result (self.old.capacity ≤ length self.old.all) }
        ensures stays { IfNone result (self.new ≡ self.old) }
    {
        match self.book.draw(&mut self.sight, Entry { row, seed }) {
            Ok(ticket) => Some(ticket.place),
            Err(_) => None,
        }
    }

    // Adds a row for which there is room.
    fn add_one(&mut self, entry: &prefix_log::Entry)
        requires { length self.old.all < self.old.capacity }
        ensures { self.new ≡ record self.old { all = self.old.all ++ pair_of entry.now ∷ [] } }
    {
        match self.add(entry.row, entry.seed) {
            Some(_) => {}
            None => unreachable!(),
        }
    }

    /// Adds rows at the end, one after another, where there is room.
    pub(crate) fn add_all(&mut self, entries: &[prefix_log::Entry])
        requires { length self.old.all + length entries.now ≤ self.old.capacity }
        ensures { self.new ≡ record self.old { all = self.old.all ++ map pair_of entries.now } }
    {
        for entry in entries {
            self.add_one(entry);
        }
    }
}
