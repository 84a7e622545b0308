ghost use Rattle.std.specs.Prelude.{◌≡◌};
ghost use Rattle.ticket_place.specs.Sights.{IsSound};

use crate::known::Known;
use atomic_table::Seat;
use std::marker::Model;

/// A place at a book, for one thread.
///
/// Contracts see it as the book that it is of, `order`, the entries that it has seen, `room`, the draws that it may
/// still make, `own`, the places drawn through it, and `looks`, its loads of the order's length.
#[derive(Drop)]
pub struct Sight {
    pub(crate) room: u64,
    pub(crate) capacity: u32,
    pub(crate) seat: Seat<(), Known>,
}

impl Model for Sight {
    ghost use Rattle.std.specs.Prelude.{◌≡◌, []};
    ghost use Rattle.ticket_place.specs.Sights.{Seen};
    ghost use Rattle.ticket_place.specs.Orders.{SoundSeat};

    ghost Value = { Seen };

    ghost view = { λ s. record {
      book = record { id = s.seat.table_id; capacity = s.capacity };
      order = s.seat.me.0.order;
      room = s.room;
      own = s.seat.me.0.own;
      looks = s.seat.me.0.looks;
    } };

    ghost invariant = { λ s. (s.room ≡ s.seat.me.0.room) × (s.seat.me.1 ≡ []) × (s.seat.me.0.left ≡ [])
        × (s.seat.me.0.right ≡ []) × SoundSeat s.capacity s.seat.me.0 };
}

impl Sight {
    /// The draws that it may still make.
    pub fn room(&self) -> u64
        ensures room { result ≡ self.now.room }
        ensures sound { IsSound self.now }
    {
        self.room
    }
}
