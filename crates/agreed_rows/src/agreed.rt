//! Rows that were agreed on.
ghost use Rattle.std.specs.Prelude.{◌≡◌, ◌<◌, ◌≤◌, IfOk, length, min};
ghost use Rattle.agreed_rows.specs.Servers.{KeepsFirst};
ghost use Rattle.agreed_rows.specs.Shelves.{HoldEntries};
ghost use Rattle.agreed_rows.specs.Agreed.{Sound, first_rows};

use crate::agreement::Agreement;
use prefix_log::Snapshot;
use ring128::Memory;
use scan_chunks::Shelf;
use server_rounds::Servers;
use std::alloc::Global;
use std::marker::Model;
use std::snapshot;
use table_schema::Widths;
use ticket_place::Sight;

/// The first rows of an order as three servers hold them, until it is let go. Nothing that is drawn or placed later
/// changes it.
///
/// Contracts see it as the widths and the entries, each row with the seed that splits it.
#[derive(Drop)]
pub struct Agreed {
    pub(crate) widths: Widths,
    pub(crate) sight: snapshot::Snapshot<Sight>, // takes no bytes
    pub(crate) rows: Agreement,
}

impl Model for Agreed {
    ghost use Rattle.agreed_rows.specs.Agreed.{Entries, IsAgreed, first_rows};

    ghost Value = { Entries };

    ghost view = { λ a. first_rows a.widths a.sight.value.order (⟦<Snapshot as Shelf>⟧.held a.rows.zero).rows };

    ghost invariant = { λ a. let held = ⟦<Snapshot as Shelf>⟧.held in
        IsAgreed a.widths a.sight.value.order (held a.rows.zero).rows (held a.rows.zero) (held a.rows.one) (held a.rows.two) };
}

impl Agreed {
    /// The rows of three snapshots, of servers 0, 1 and 2, which hold first rows of the order that the sight has seen: those
    /// of the least of the three. It takes no memory.
    pub fn of(
        widths: &Widths,
        sight: &Sight,
        zero: Snapshot,
        one: Snapshot,
        two: Snapshot,
    ) -> Agreed
        requires few { length sight.now.order ≤ 65536 }
        requires zero { let h = ⟦<Snapshot as Shelf>⟧.held zero in KeepsFirst widths.now 0 sight.now.order h.rows h }
        requires one { let h = ⟦<Snapshot as Shelf>⟧.held one in KeepsFirst widths.now 1 sight.now.order h.rows h }
        requires two { let h = ⟦<Snapshot as Shelf>⟧.held two in KeepsFirst widths.now 2 sight.now.order h.rows h }
        ensures { let held = ⟦<Snapshot as Shelf>⟧.held in
            result ≡ first_rows widths.now sight.now.order (min (min (held zero).rows (held one).rows) (held two).rows) }
    {
        Agreed {
            widths: *widths,
            sight: snapshot::Snapshot::of(sight),
            rows: Agreement::of(zero, one, two),
        }
    }

    /// How many rows there are.
    pub fn rows(&self) -> u64
        ensures rows { result ≡ length self.now.all }
        ensures sound { Sound self.now }
    {
        self.rows.rows()
    }

    /// The rows as shelves of the three servers, at each as many as there are workers: column by column they hold what each server
    /// has of the rows. The only error is out of memory.
    pub fn shelves(&self, alloc: Global, workers: u8) -> Result<Servers<Snapshot>, Memory>
        requires { 0 < workers }
        ensures shelves { IfOk result (HoldEntries ⟦<Snapshot as Shelf>⟧.held self.now) }
        ensures sound { Sound self.now }
    {
        self.rows.shelves(alloc, workers)
    }
}
