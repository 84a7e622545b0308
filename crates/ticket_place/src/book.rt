ghost use Rattle.std.specs.Prelude.{◌≡◌, ℕ, ◌+◌, ◌-◌, ◌<◌, ◌≤◌, ◌++◌, [], length, IfOk, IfErr, OnErr};
ghost use mathlib.Core.List.{IsPrefix};
ghost use Rattle.list_facts.specs.Count.{longer, times};
ghost use Rattle.ticket_place.specs.Sights.{Draws, IsSound};

use crate::entry::Entry;
use crate::rule::{Board, Brand};
use crate::sight::Sight;
use crate::steps;
use ring128::Memory;
use std::alloc::Global;
use std::marker::Model;

/// What a draw answers: the place of its entry in the order, from 0.
#[derive(Clone, Copy, Debug, PartialEq, Eq)]
pub struct Ticket {
    pub place: u64,
}

/// No draw was left, and nothing was drawn: the book's capacity, and the entry back.
#[derive(Clone, Copy, Debug, PartialEq, Eq)]
pub struct Full {
    pub capacity: u32,
    pub entry: Entry,
}

/// The one order of draws. Threads share it by reference; what it keeps is the order's length alone.
///
/// Contracts see it as which book it is and its capacity, the most entries that its order may come to.
#[derive(Drop)]
pub struct Book {
    capacity: u32,
    board: Board,
}

impl Model for Book {
    ghost use Rattle.std.specs.Prelude.{◌≡◌};
    ghost use Rattle.ticket_place.specs.Sights.{Named};

    ghost Value = { Named };

    ghost view = { λ b. record { id = b.board.shared.table_id; capacity = b.capacity } };

    ghost invariant = { λ b. (b.board.shared.table_id.words ≡ 1) × (b.board.shared.key ≡ b.capacity) };
}

impl Book {
    /// An empty order, and its first sight, which may make every draw.
    pub fn new(alloc: Global, capacity: u32) -> Result<(Book, Sight), Memory>
        ensures book { IfOk result (λ r. r.0.capacity ≡ capacity) }
        ensures sight { IfOk result (λ r. r.1 ≡ record { book = r.0; order = []; room = capacity; own = []; looks = 0 }) }
        ensures sound { IfOk result (λ r. IsSound r.1) }
    {
        let (board, seat) = Board::of_words(alloc, &[0], &u64::from(capacity))?;
        Ok((
            Book { capacity, board },
            Sight {
                room: u64::from(capacity),
                capacity,
                seat,
            },
        ))
    }

    /// Adds the entry to the end of the order by one fetch, without a second try. `Full` comes exactly where the sight
    /// has no room.
    pub fn draw(&self, sight: &mut Sight, entry: Entry) -> Result<Ticket, Full>
        requires { sight.old.book ≡ self.now }
        ensures room { IfOk result (λ _. 0 < sight.old.room) }
        ensures draws { IfOk result (λ t. Draws (entry.row, entry.seed) sight.old t.place sight.new) }
        ensures sound { IsSound sight.new }
        ensures full { OnErr result (sight.old.room ≡ 0) }
        ensures back { IfErr result (λ f. (f.capacity ≡ self.now.capacity) × (f.entry ≡ entry)) }
        ensures same { OnErr result (sight.new ≡ sight.old) }
    {
        if sight.room == 0 {
            return Err(Full {
                capacity: self.capacity,
                entry,
            });
        }
        let place = steps::draw::<Brand>(&self.board.shared, &mut sight.seat, entry);
        sight.room -= 1;
        Ok(Ticket { place })
    }

    /// The order's length at one load. The sight has then seen the whole order.
    pub fn look(&self, sight: &mut Sight) -> u64
        requires { sight.old.book ≡ self.now }
        ensures length { result ≡ length sight.new.order }
        ensures grown { IsPrefix sight.old.order sight.new.order }
        ensures rest { sight.new ≡ record sight.old { order = sight.new.order; looks = sight.old.looks + 1 } }
        ensures sound { IsSound sight.new }
    {
        steps::look::<Brand>(&self.board.shared, &mut sight.seat)
    }

    /// A second sight, which has seen as much and gets this many draws of the first.
    pub fn hand(&self, sight: &mut Sight, room: u64) -> Sight
        requires book { sight.old.book ≡ self.now }
        requires room { room ≤ sight.old.room }
        ensures kept { sight.new ≡ record sight.old { room = sight.old.room - room } }
        ensures given { result ≡ record sight.old { room = room; own = []; looks = 0 } }
        ensures sound { IsSound sight.new × IsSound result }
    {
        let seat = steps::hand::<Brand>(&self.board.shared, &mut sight.seat, room);
        sight.room -= room;
        Sight {
            room,
            capacity: self.capacity,
            seat,
        }
    }

    /// A second sight, which has seen as much and may make no draw.
    pub fn again(&self, sight: &mut Sight) -> Sight
        requires { sight.old.book ≡ self.now }
        ensures kept { sight.new ≡ sight.old }
        ensures given { result ≡ record sight.old { room = 0; own = []; looks = 0 } }
        ensures sound { IsSound sight.new × IsSound result }
    {
        self.hand(sight, 0)
    }

    /// Each of the two has seen the longer order, which begins with the other.
    pub fn meet(&self, a: &mut Sight, b: &mut Sight)
        requires { (a.old.book ≡ self.now) × (b.old.book ≡ self.now) }
        ensures order { (a.new.order ≡ longer a.old.order b.old.order) × (b.new.order ≡ longer a.old.order b.old.order) }
        ensures grown { IsPrefix a.old.order a.new.order × IsPrefix b.old.order b.new.order }
        ensures rest { (a.new ≡ record a.old { order = a.new.order }) × (b.new ≡ record b.old { order = b.new.order }) }
        ensures sound { IsSound a.new × IsSound b.new }
    {
        let from_a = self.again(a);
        let from_b = self.again(b);
        self.gather(a, from_b);
        self.gather(b, from_a);
    }

    /// Takes another sight in, with its draws and its own places, of which none is an own place of the first.
    pub fn gather(&self, sight: &mut Sight, other: Sight)
        requires { (sight.old.book ≡ self.now) × (other.book ≡ self.now) }
        ensures order { sight.new.order ≡ longer sight.old.order other.order }
        ensures grown { IsPrefix sight.old.order sight.new.order × IsPrefix other.order sight.new.order }
        ensures sums { sight.new
            ≡ record sight.old { order = sight.new.order; room = sight.old.room + other.room; own = sight.old.own ++ other.own } }
        ensures apart { (x : ℕ) → times x sight.old.own + times x other.own ≤ 1 }
        ensures sound { IsSound sight.new }
    {
        let Sight {
            room,
            capacity: _,
            seat,
        } = other;
        steps::join::<Brand>(&self.board.shared, &mut sight.seat, seat);
        sight.room += room;
    }
}
