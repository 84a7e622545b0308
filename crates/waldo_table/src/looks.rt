//! Looks and agreement.
ghost use Rattle.std.specs.Prelude.{◌≡◌, ℕ, ◌+◌, ◌<◌, ◌≤◌, length, IfOk, IfErr, OnErr, max};
ghost use Rattle.prefix_log.specs.Journal.{prefix};
ghost use Rattle.ticket_place.specs.Sights.{IsSound};
ghost use Rattle.waldo_table.specs.Tables.{Agrees, Grows, IsAgreeFault, IsCovered, IsMemory, IsOf, seat_of};

use crate::faults::AgreeFault;
use crate::pass::Pass;
use crate::table::Table;
use crate::under;
use agreed_rows::Agreed;
use std::alloc::Global;
use std::sync::Wait;

impl Table {
    /// How many of the first places a server (0, 1 or 2) has without a gap, at one look of this call. Waits for its lock. The
    /// floor rises to that number, if it was below.
    pub fn look<R: Wait>(&self, rt: &R, pass: &mut Pass, server: u8) -> u64
        requires pass { IsOf self.now pass.old }
        requires server { server < 3 }
        ensures pass { IsOf self.now pass.new }
        ensures grows { Grows pass.old pass.new }
        ensures sight { pass.new.sight ≡ record pass.old.sight { order = pass.new.sight.order } }
        ensures prefix { result ≡ prefix (seat_of server pass.new).seen }
        ensures sound { IsSound pass.new.sight }
        ensures looks { (seat_of server pass.new).looks ≡ (seat_of server pass.old).looks + 1 }
        ensures others { (k : ℕ) → k < 3 → ¬ (k ≡ server) → seat_of k pass.new ≡ seat_of k pass.old }
        ensures floor { pass.new.floor ≡ max pass.old.floor result }
    {
        let prefix = self.look_at(rt, pass, server);
        pass.floor = pass.floor.max(prefix);
        prefix
    }

    // The same, without the floor.
    fn look_at<R: Wait>(&self, rt: &R, pass: &mut Pass, server: u8) -> u64
        requires pass { IsOf self.now pass.old }
        requires server { server < 3 }
        ensures pass { IsOf self.now pass.new }
        ensures grows { Grows pass.old pass.new }
        ensures sight { pass.new.sight ≡ record pass.old.sight { order = pass.new.sight.order } }
        ensures prefix { result ≡ prefix (seat_of server pass.new).seen }
        ensures most { result ≤ length pass.new.sight.order }
        ensures sound { IsSound pass.new.sight }
        ensures looks { (seat_of server pass.new).looks ≡ (seat_of server pass.old).looks + 1 }
        ensures others { (k : ℕ) → k < 3 → ¬ (k ≡ server) → seat_of k pass.new ≡ seat_of k pass.old }
        ensures floor { pass.new.floor ≡ pass.old.floor }
    {
        match server {
            0 => under::look(rt, &self.book, &self.zero, &mut pass.sight, &mut pass.zero),
            1 => under::look(rt, &self.book, &self.one, &mut pass.sight, &mut pass.one),
            _ => under::look(rt, &self.book, &self.two, &mut pass.sight, &mut pass.two),
        }
    }

    /// The first rows that all three servers have: each is looked at once, in turn, and the least of the three prefixes is the
    /// number of rows, never below the floor, which becomes that number. Waits for each lock. The rows stay as they are
    /// until they are let go, whatever is placed later.
    ///
    /// `Again` comes exactly where a server's prefix is below the floor, so never where the pass has itself seen that many
    /// rows at each server; the floor stays, and later servers are not looked at. After `Memory` the floor stays too.
    pub fn agree<R: Wait>(
        &self,
        rt: &R,
        alloc: Global,
        pass: &mut Pass,
    ) -> Result<Agreed, AgreeFault>
        requires { IsOf self.now pass.old }
        ensures pass { IsOf self.now pass.new }
        ensures grows { Grows pass.old pass.new }
        ensures sight { pass.new.sight ≡ record pass.old.sight { order = pass.new.sight.order } }
        ensures sound { IsSound pass.new.sight }
        ensures agrees { IfOk result (Agrees self.now.widths pass.old pass.new) }
        ensures again { IfErr result (IsAgreeFault pass.old pass.new) }
        ensures covered { IfOk result (λ _. IsCovered pass.new) }
        ensures never { IsCovered pass.old → IfErr result IsMemory }
        ensures floor { OnErr result (pass.new.floor ≡ pass.old.floor) }
    {
        let floor = pass.floor;
        let zero = match under::fix(
            rt,
            alloc,
            &self.book,
            &self.zero,
            &mut pass.sight,
            &mut pass.zero,
            floor,
        ) {
            Ok(snapshot) => snapshot,
            Err(fault) => return Err(fault.at(0, floor)),
        };
        let one = match under::fix(
            rt,
            alloc,
            &self.book,
            &self.one,
            &mut pass.sight,
            &mut pass.one,
            floor,
        ) {
            Ok(snapshot) => snapshot,
            Err(fault) => return Err(fault.at(1, floor)),
        };
        let two = match under::fix(
            rt,
            alloc,
            &self.book,
            &self.two,
            &mut pass.sight,
            &mut pass.two,
            floor,
        ) {
            Ok(snapshot) => snapshot,
            Err(fault) => return Err(fault.at(2, floor)),
        };
        let agreed = Agreed::of(&self.widths, &pass.sight, zero, one, two);
        pass.floor = agreed.rows();
        Ok(agreed)
    }
}
