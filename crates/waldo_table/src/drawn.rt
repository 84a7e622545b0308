//! A draw whose pieces are being placed.
ghost use Rattle.std.specs.Prelude.{◌≡◌, ◌<◌, true};
ghost use Rattle.waldo_table.specs.Pieces.{is_done as done_of, placed_at};

use crate::part::AtServer;
use crate::table::Table;
use prg_chacha::Seed;
use std::marker::Model;
use std::snapshot::Snapshot;
use table_schema::Row;

/// A row that has its place in the order of a table, with the pieces that are not placed yet. It can't be let go: each
/// path of a program that draws ends in [`finish`], once all three pieces are placed.
///
/// Contracts see it as the table, the entry, its place, and at which servers it was placed.
pub struct Drawn {
    pub(crate) table: Snapshot<Table>, // takes no bytes
    pub(crate) row: Row,
    pub(crate) seed: Seed,
    pub(crate) place: u64,
    pub(crate) zero: AtServer,
    pub(crate) one: AtServer,
    pub(crate) two: AtServer,
}

impl Model for Drawn {
    ghost use Rattle.std.specs.Prelude.{◌<◌};
    ghost use Rattle.waldo_table.specs.Pieces.{Placing, HasParts, was_placed};

    ghost Value = { Placing };

    ghost view = { λ d. record {
      table = d.table.value;
      entry = (d.row, d.seed);
      place = d.place;
      zero = was_placed d.zero;
      one = was_placed d.one;
      two = was_placed d.two;
    } };

    ghost invariant = { λ d. HasParts d.table.value (d.row, d.seed) d.place d.zero d.one d.two × (d.place < 65536) };
}

impl Drawn {
    /// Its place in the order, from 0.
    pub fn place(&self) -> u64
        ensures { result ≡ self.now.place }
    {
        self.place
    }

    /// Whether its piece was placed at a server: 0, 1 or 2.
    pub fn placed(&self, server: u8) -> bool
        requires { server < 3 }
        ensures { result ≡ placed_at server self.now }
    {
        match server {
            0 => self.zero.is_placed(),
            1 => self.one.is_placed(),
            _ => self.two.is_placed(),
        }
    }

    // Whether all three were placed.
    pub(crate) fn is_done(&self) -> bool
        ensures { result ≡ done_of self.now }
    {
        self.zero.is_placed() && self.one.is_placed() && self.two.is_placed()
    }
}

/// The place of a draw whose pieces are all placed.
pub fn finish(drawn: Drawn) -> u64
    requires { done_of drawn ≡ true }
    ensures { result ≡ drawn.place }
{
    let Drawn {
        table: _,
        row: _,
        seed: _,
        place,
        zero: _,
        one: _,
        two: _,
    } = drawn;
    place
}
