//! What one caller has seen of a table.
ghost use Rattle.std.specs.Prelude.{◌≡◌};
ghost use Rattle.ticket_place.specs.Sights.{IsSound};
ghost use Rattle.waldo_table.specs.Tables.{IsLegal as Legal};

use crate::vault::Vault;
use journal_lock::Seat;
use std::marker::Model;
use ticket_place::Sight;

/// What one caller has seen of a table: the order and the three journals; and its floor, the greatest number of rows that it
/// learned of. The first pass comes with the table, each other one from [`Table::split_pass`](crate::Table::split_pass).
///
/// Contracts see it as the order with its room and the places drawn through it, per server the journal and the number of
/// looks, and the floor.
#[derive(Drop)]
pub struct Pass {
    pub(crate) sight: Sight,
    pub(crate) zero: Seat<Vault>,
    pub(crate) one: Seat<Vault>,
    pub(crate) two: Seat<Vault>,
    pub(crate) floor: u64,
}

impl Model for Pass {
    ghost use Rattle.waldo_table.specs.Tables.{PassView, IsLegal};

    ghost Value = { PassView };

    ghost view = { λ p. record { sight = p.sight; zero = p.zero; one = p.one; two = p.two; floor = p.floor } };

    ghost invariant = { λ p. IsLegal (record { sight = p.sight; zero = p.zero; one = p.one; two = p.two; floor = p.floor }) };
}

impl Pass {
    /// The greatest number of rows that it learned of: by a look, by an agreement, or by the third placing of a row.
    pub fn floor(&self) -> u64
        ensures floor { result ≡ self.now.floor }
        ensures legal { Legal self.now }
    {
        self.floor
    }

    /// How many draws it may still make.
    pub fn room(&self) -> u64
        ensures room { result ≡ self.now.sight.room }
        ensures sound { IsSound self.now.sight }
    {
        self.sight.room()
    }
}
