//! The table.
ghost use Rattle.std.specs.Prelude.{◌≡◌, ℕ, ◌<◌, [], IfOk, IfErr, false};
ghost use Rattle.table_schema.specs.Widths.{Fits, column_bits};
ghost use Rattle.ticket_place.specs.Sights.{IsSound};
ghost use Rattle.waldo_table.specs.Tables.{HasOpenFault, IsLockOf, IsOf, seat_of};

use crate::pass::Pass;
use crate::vault::Vault;
use journal_lock::{JournalLock, Seat};
use prefix_log::{OpenFault, ServerLog};
use ring128::Memory;
use std::alloc::Global;
use std::marker::Model;
use table_schema::Widths;
use ticket_place::{Book, Sight};

/// One order of draws, and three servers, each behind a lock of its own. Threads share it by reference, each with a
/// [`Pass`] of its own.
///
/// Contracts see it as the widths of its rows, its book with the capacity, and which lock each server is behind.
#[derive(Drop)]
pub struct Table {
    pub(crate) widths: Widths,
    pub(crate) book: Book,
    pub(crate) zero: JournalLock<Vault>,
    pub(crate) one: JournalLock<Vault>,
    pub(crate) two: JournalLock<Vault>,
}

impl Model for Table {
    ghost use Rattle.std.specs.Prelude.{◌≤◌};
    ghost use Rattle.waldo_table.specs.Tables.{IsLockOf};
    ghost use Rattle.waldo_table.specs.View.{TableView};

    ghost Value = { TableView };

    ghost view = { λ t. record { widths = t.widths; book = t.book; zero = t.zero.id; one = t.one.id; two = t.two.id } };

    ghost invariant = { λ t. (t.book.capacity ≤ 65536) × IsLockOf 0 t.widths t.book t.zero
        × IsLockOf 1 t.widths t.book t.one × IsLockOf 2 t.widths t.book t.two };
}

// An empty server behind its lock.
fn guarded(
    alloc: Global,
    book: &Book,
    sight: &mut Sight,
    server: u8,
    widths: &Widths,
    capacity: u32,
) -> Result<(JournalLock<Vault>, Seat<Vault>), Memory>
    requires fits { Fits (column_bits widths.now) capacity }
    requires book { (sight.old.book ≡ book.now) × (book.now.capacity ≡ capacity) }
    ensures sight { sight.new ≡ sight.old }
    ensures lock { IfOk result (λ r. IsLockOf server widths.now book.now r.0) }
    ensures seat { IfOk result (λ r. r.1 ≡ record { lock = r.0.id; holds = false; seen = []; looks = 0; tries = 0 }) }
{
    let log = ServerLog::new(alloc, server, widths, capacity)?;
    let seen = book.again(sight);
    JournalLock::new(alloc, Vault::new(log, seen))
}

impl Table {
    // A table for a capacity that fits.
    fn fitting(alloc: Global, widths: &Widths, capacity: u32) -> Result<(Table, Pass), Memory>
        requires { Fits (column_bits widths.now) capacity }
        ensures table { IfOk result (λ r. (r.0.widths ≡ widths.now) × (r.0.book.capacity ≡ capacity)) }
        ensures of { IfOk result (λ r. IsOf r.0 r.1) }
        ensures floor { IfOk result (λ r. r.1.floor ≡ 0) }
        ensures sight { IfOk result (λ r. r.1.sight ≡ record { book = r.0.book; order = []; room = capacity; own = []; looks = 0 }) }
        ensures seats { IfOk result (λ r. (k : ℕ) → k < 3 → ((seat_of k r.1).seen ≡ []) × ((seat_of k r.1).looks ≡ 0)) }
    {
        let (book, mut sight) = Book::new(alloc, capacity)?;
        let (zero, at_zero) = guarded(alloc, &book, &mut sight, 0, widths, capacity)?;
        let (one, at_one) = guarded(alloc, &book, &mut sight, 1, widths, capacity)?;
        let (two, at_two) = guarded(alloc, &book, &mut sight, 2, widths, capacity)?;
        let pass = Pass {
            sight,
            zero: at_zero,
            one: at_one,
            two: at_two,
            floor: 0,
        };
        let table = Table {
            widths: *widths,
            book,
            zero,
            one,
            two,
        };
        Ok((table, pass))
    }

    /// An empty table for rows of these widths, and its first pass: floor 0, and room for every draw. `capacity` is the
    /// most rows that it takes. All slots of the three servers are taken here.
    ///
    /// `OpenFault::Cells` comes where the capacity does not fit the widths, with the number of cells that it asks for;
    /// `Memory` where memory ran out.
    pub fn new(alloc: Global, widths: Widths, capacity: u32) -> Result<(Table, Pass), OpenFault>
        ensures table { IfOk result (λ r. (r.0.widths ≡ widths) × (r.0.book.capacity ≡ capacity)) }
        ensures of { IfOk result (λ r. IsOf r.0 r.1) }
        ensures floor { IfOk result (λ r. r.1.floor ≡ 0) }
        ensures sight { IfOk result (λ r. r.1.sight ≡ record { book = r.0.book; order = []; room = capacity; own = []; looks = 0 }) }
        ensures seats { IfOk result (λ r. (k : ℕ) → k < 3 → ((seat_of k r.1).seen ≡ []) × ((seat_of k r.1).looks ≡ 0)) }
        ensures fits { IfOk result (λ r. Fits (column_bits widths) capacity) }
        ensures fault { IfErr result (HasOpenFault widths capacity) }
    {
        if !widths.fits(capacity) {
            return Err(OpenFault::Cells {
                had: widths.cells(capacity),
            });
        }
        match Table::fitting(alloc, &widths, capacity) {
            Ok(made) => Ok(made),
            Err(_) => Err(OpenFault::Memory),
        }
    }

    /// The widths of its rows.
    pub fn widths(&self) -> &Widths
        ensures { result.now ≡ self.now.widths }
    {
        &self.widths
    }
}
