//! Passes: cut in two, met and gathered.
ghost use Rattle.std.specs.Prelude.{◌≡◌, ℕ, ◌+◌, ◌-◌, ◌≤◌};
ghost use Rattle.list_facts.specs.Count.{times};
ghost use Rattle.ticket_place.specs.Sights.{IsSound};
ghost use Rattle.waldo_table.specs.Tables.{Grows, IsOf, fresh_pass, gathered, met};

use crate::pass::Pass;
use crate::table::Table;

impl Table {
    /// A second pass, for another thread: it has seen as much, has the same floor, no looks and no own places, and `room` draws,
    /// which are taken from `pass`.
    pub fn split_pass(&self, pass: &mut Pass, room: u64) -> Pass
        requires pass { IsOf self.now pass.old }
        requires room { room ≤ pass.old.sight.room }
        ensures pass { IsOf self.now pass.new × IsOf self.now result }
        ensures kept { pass.new ≡ record pass.old { sight = record pass.old.sight { room = pass.old.sight.room - room } } }
        ensures given { result ≡ fresh_pass pass.old room }
        ensures sound { IsSound pass.new.sight × IsSound result.sight }
    {
        Pass {
            sight: self.book.hand(&mut pass.sight, room),
            zero: self.zero.split(&mut pass.zero),
            one: self.one.split(&mut pass.one),
            two: self.two.split(&mut pass.two),
            floor: pass.floor,
        }
    }

    /// Takes another pass in: of the orders and journals that the two have seen the longer ones, both rooms, the greater floor,
    /// and the other's own places, of which none is an own place of the first.
    pub fn gather(&self, pass: &mut Pass, other: Pass)
        requires { IsOf self.now pass.old × IsOf self.now other }
        ensures pass { IsOf self.now pass.new }
        ensures grows { Grows pass.old pass.new × Grows other pass.new }
        ensures gathered { pass.new ≡ gathered pass.old other }
        ensures apart { (x : ℕ) → times x pass.old.sight.own + times x other.sight.own ≤ 1 }
        ensures sound { IsSound pass.new.sight }
    {
        let Pass {
            sight,
            zero,
            one,
            two,
            floor,
        } = other;
        self.book.gather(&mut pass.sight, sight);
        self.zero.join(&mut pass.zero, zero);
        self.one.join(&mut pass.one, one);
        self.two.join(&mut pass.two, two);
        pass.floor = pass.floor.max(floor);
    }

    /// Each of the two has seen what both saw, and has the greater floor. Rooms and own places stay.
    pub fn meet(&self, a: &mut Pass, b: &mut Pass)
        requires { IsOf self.now a.old × IsOf self.now b.old }
        ensures pass { IsOf self.now a.new × IsOf self.now b.new }
        ensures grows { Grows a.old a.new × Grows b.old a.new × Grows a.old b.new × Grows b.old b.new }
        ensures first { a.new ≡ met a.old b.old }
        ensures second { b.new ≡ met b.old a.old }
        ensures sound { IsSound a.new.sight × IsSound b.new.sight }
    {
        let from_a = self.split_pass(a, 0);
        let from_b = self.split_pass(b, 0);
        self.gather(a, from_b);
        self.gather(b, from_a);
    }
}
