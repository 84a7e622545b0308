//! Draws and placings.
ghost use Rattle.std.specs.Prelude.{◌≡◌, ℕ, ◌+◌, ◌<◌, length, slice_get, Some, IfOk, IfErr, OnErr, false};
ghost use Rattle.list_facts.specs.Count.{times};
ghost use Rattle.ticket_place.specs.Sights.{Draws, IsSound};
ghost use Rattle.waldo_table.specs.Pieces.{with_placed};
ghost use Rattle.waldo_table.specs.Tables.{Appends, Grows, IsOf, risen, seat_of};

use crate::drawn::{Drawn, finish};
use crate::faults::Full;
use crate::part::AtServer;
use crate::pass::Pass;
use crate::prepared::Prepared;
use crate::table::Table;
use crate::under;
use std::snapshot::Snapshot;
use std::sync::Wait;
use ticket_place::{Entry, Ticket};

impl Pass {
    // The floor of a draw whose pieces are all placed.
    fn rise(&mut self, drawn: &Drawn)
        requires { drawn.now.place < length self.old.sight.order }
        ensures { self.new ≡ record self.old { floor = risen drawn.now self.old.floor } }
    {
        if drawn.is_done() {
            self.floor = self.floor.max(drawn.place + 1);
        }
    }
}

impl Table {
    /// Draws the next place of the order for a row that was prepared with the table's widths. Others may have drawn since the
    /// pass last looked; it then sees their rows too. It takes no memory and does not wait.
    ///
    /// `Full` comes exactly where the pass has no room: nothing is drawn, the pass stays, and the prepared row comes back.
    pub fn draw(&self, pass: &mut Pass, prepared: Prepared) -> Result<Drawn, Full>
        requires pass { IsOf self.now pass.old }
        requires widths { prepared.widths ≡ self.now.widths }
        ensures pass { IsOf self.now pass.new }
        ensures room { IfOk result (λ _. 0 < pass.old.sight.room) }
        ensures draws { IfOk result (λ d. Draws prepared.entry pass.old.sight d.place pass.new.sight) }
        ensures rest { IfOk result (λ _. pass.new ≡ record pass.old { sight = pass.new.sight }) }
        ensures drawn { IfOk result (λ d. d ≡ record {
          table = self.now;
          entry = prepared.entry;
          place = d.place;
          zero = false;
          one = false;
          two = false;
        }) }
        ensures there { IfOk result (λ d. slice_get pass.new.sight.order d.place ≡ Some prepared.entry) }
        ensures sound { IsSound pass.new.sight }
        ensures full { OnErr result (pass.old.sight.room ≡ 0) }
        ensures back { IfErr result (λ f. (f.capacity ≡ self.now.book.capacity) × (f.prepared ≡ prepared)) }
        ensures same { OnErr result (pass.new ≡ pass.old) }
    {
        let Prepared {
            widths,
            row,
            seed,
            zero,
            one,
            two,
        } = prepared;
        match self.book.draw(&mut pass.sight, Entry { row, seed }) {
            Ok(Ticket { place }) => Ok(Drawn {
                table: Snapshot::of(self),
                row,
                seed,
                place,
                zero: AtServer::Left(zero),
                one: AtServer::Left(one),
                two: AtServer::Left(two),
            }),
            Err(full) => Err(Full {
                capacity: full.capacity,
                prepared: Prepared {
                    widths,
                    row,
                    seed,
                    zero,
                    one,
                    two,
                },
            }),
        }
    }

    // Puts a server's piece at its place.
    fn put<R: Wait>(&self, rt: &R, pass: &mut Pass, drawn: &mut Drawn, server: u8)
        requires pass { IsOf self.now pass.old }
        requires server { server < 3 }
        requires table { drawn.old.table ≡ self.now }
        requires entry { slice_get pass.old.sight.order drawn.old.place ≡ Some drawn.old.entry }
        ensures pass { IsOf self.now pass.new }
        ensures grows { Grows pass.old pass.new }
        ensures sight { pass.new.sight ≡ record pass.old.sight { order = pass.new.sight.order } }
        ensures drawn { drawn.new ≡ with_placed server drawn.old }
        ensures there { times drawn.old.place (seat_of server pass.new).seen ≡ 1 }
        ensures sound { IsSound pass.new.sight }
        ensures looks { (seat_of server pass.new).looks ≡ (seat_of server pass.old).looks + 1 }
        ensures others { (k : ℕ) → k < 3 → ¬ (k ≡ server) → seat_of k pass.new ≡ seat_of k pass.old }
        ensures floor { pass.new.floor ≡ pass.old.floor }
    {
        match server {
            0 => under::put(
                rt,
                &self.book,
                &self.zero,
                &mut pass.sight,
                &mut pass.zero,
                drawn.place,
                &mut drawn.zero,
            ),
            1 => under::put(
                rt,
                &self.book,
                &self.one,
                &mut pass.sight,
                &mut pass.one,
                drawn.place,
                &mut drawn.one,
            ),
            _ => under::put(
                rt,
                &self.book,
                &self.two,
                &mut pass.sight,
                &mut pass.two,
                drawn.place,
                &mut drawn.two,
            ),
        }
    }

    /// Puts the piece for a server (0, 1 or 2) at its place. Waits for the server's lock, and takes no memory. The place then
    /// stands in the journal that the pass has seen, once. With the third piece the pass's floor rises to the place + 1, if it
    /// was below. Where the piece was put already, also through another pass, journal and pieces stay.
    ///
    /// The pass has seen the entry: it is the one that drew it, or it has met that one.
    pub fn place<R: Wait>(&self, rt: &R, pass: &mut Pass, drawn: &mut Drawn, server: u8)
        requires pass { IsOf self.now pass.old }
        requires server { server < 3 }
        requires table { drawn.old.table ≡ self.now }
        requires entry { slice_get pass.old.sight.order drawn.old.place ≡ Some drawn.old.entry }
        ensures pass { IsOf self.now pass.new }
        ensures grows { Grows pass.old pass.new }
        ensures sight { pass.new.sight ≡ record pass.old.sight { order = pass.new.sight.order } }
        ensures drawn { drawn.new ≡ with_placed server drawn.old }
        ensures entry { slice_get pass.new.sight.order drawn.new.place ≡ Some drawn.new.entry }
        ensures there { times drawn.old.place (seat_of server pass.new).seen ≡ 1 }
        ensures sound { IsSound pass.new.sight }
        ensures looks { (seat_of server pass.new).looks ≡ (seat_of server pass.old).looks + 1 }
        ensures others { (k : ℕ) → k < 3 → ¬ (k ≡ server) → seat_of k pass.new ≡ seat_of k pass.old }
        ensures floor { pass.new.floor ≡ risen drawn.new pass.old.floor }
    {
        self.put(rt, pass, drawn, server);
        pass.rise(drawn);
    }

    /// Draws a place for a row that was prepared with the table's widths, and puts its three pieces there. Waits for each
    /// server's lock in turn, and takes no memory: it ends with the place, or with `Full` as [`Table::draw`] does.
    pub fn append<R: Wait>(&self, rt: &R, pass: &mut Pass, prepared: Prepared) -> Result<u64, Full>
        requires pass { IsOf self.now pass.old }
        requires widths { prepared.widths ≡ self.now.widths }
        ensures pass { IsOf self.now pass.new }
        ensures grows { Grows pass.old pass.new }
        ensures room { IfOk result (λ _. 0 < pass.old.sight.room) }
        ensures appends { IfOk result (λ place. Appends prepared.entry pass.old place pass.new) }
        ensures sound { IsSound pass.new.sight }
        ensures full { OnErr result (pass.old.sight.room ≡ 0) }
        ensures back { IfErr result (λ f. (f.capacity ≡ self.now.book.capacity) × (f.prepared ≡ prepared)) }
        ensures same { OnErr result (pass.new ≡ pass.old) }
    {
        let mut drawn = self.draw(pass, prepared)?;
        self.place(rt, pass, &mut drawn, 0);
        self.place(rt, pass, &mut drawn, 1);
        self.place(rt, pass, &mut drawn, 2);
        Ok(finish(drawn))
    }
}
