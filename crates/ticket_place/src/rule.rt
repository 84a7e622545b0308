// The rule of the book's word, and what each step on it says.
use crate::known::Known;
use atomic_table::{Join, Play, Split, Table, TableRule};
use std::alloc::Global;
pub use std::marker::Brand;
use std::marker::PhantomData;

/// There is one order, whose length is the word.
pub struct OneOrder;

/// The word, which is the length of the order. The key is the capacity.
pub type Board = Table<(), Known, u64, OneOrder, Global>;

impl TableRule<(), Known, u64> for OneOrder {
    ghost use Rattle.std.specs.Prelude.{[]};
    ghost use Rattle.ticket_place.specs.Orders.{Ordered, fresh};

    ghost holds = { λ capacity s. Ordered capacity s };

    ghost first = { λ capacity. fresh [] capacity };
}

/// The entry of a draw and the capacity. The call picks them, since a `Play` sees neither.
pub trait Drawing {
    ghost use Rattle.std.specs.Prelude.{ℕ};
    ghost use Rattle.prg_chacha.specs.declared.seed.Seed.{Seed};
    ghost use Rattle.table_schema.specs.declared.rows.Row.{Row};

    ghost entry: { Row × Seed };

    ghost capacity: { ℕ };
}

impl Drawing for Brand {
    ghost use Rattle.ticket_place.specs.Steps.{blank};

    ghost entry = { blank };

    ghost capacity = { 0 };
}

/// The fetch that adds 1.
pub struct Draws<N> {
    of: PhantomData<N>,
}

impl<N: Drawing> Play<(), Known> for Draws<N> {
    ghost use Rattle.ticket_place.specs.Steps.{draws};

    ghost then = { draws N.entry N.capacity };
}

/// The capacity, which the call picks.
pub trait Bounding {
    ghost use Rattle.std.specs.Prelude.{ℕ};

    ghost capacity: { ℕ };
}

impl Bounding for Brand {
    ghost capacity = { 0 };
}

/// The load.
pub struct Looks<N> {
    of: PhantomData<N>,
}

impl<N: Bounding> Play<(), Known> for Looks<N> {
    ghost use Rattle.ticket_place.specs.Steps.{looks};

    ghost then = { looks N.capacity };
}

/// The load after a join.
pub struct Notes<N> {
    of: PhantomData<N>,
}

impl<N: Bounding> Play<(), Known> for Notes<N> {
    ghost use Rattle.ticket_place.specs.Steps.{notes};

    ghost then = { notes N.capacity };
}

/// How much room is handed over, which the call picks.
pub trait Handing {
    ghost use Rattle.std.specs.Prelude.{ℕ};

    ghost room: { ℕ };
}

impl Handing for Brand {
    ghost room = { 0 };
}

/// A second seat that has seen as much, with room of the first.
pub struct Hands<N> {
    of: PhantomData<N>,
}

impl<N: Handing> Split<Known> for Hands<N> {
    ghost use Rattle.ticket_place.specs.Steps.{without_room, handed};

    ghost left = { λ v. without_room v N.room };

    ghost right = { λ v. handed v N.room };
}

/// One seat of two, which has seen the longer order and has the room and the own places of both.
pub struct Joins;

impl Join<Known> for Joins {
    ghost use Rattle.std.specs.Prelude.{[]};
    ghost use Rattle.ticket_place.specs.Orders.{fresh};
    ghost use Rattle.ticket_place.specs.Steps.{joined};

    ghost both = { joined };

    ghost spent = { fresh [] 0 };
}
