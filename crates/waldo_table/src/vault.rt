//! What lies behind a server's lock.
ghost use Rattle.std.specs.Prelude.{◌≡◌, ◌<◌, ◌≤◌, [], IfOk, IfErr, length, true, Some};
ghost use mathlib.Core.List.{IsPrefix};
ghost use Rattle.list_facts.specs.Count.{has};
ghost use Rattle.prefix_log.specs.Journal.{prefix as prefix_in};
ghost use Rattle.prefix_log.specs.Logs.{IsOwn, empty_log, placed};
ghost use Rattle.ticket_place.specs.Sights.{IsSound};
ghost use Rattle.agreed_rows.specs.Servers.{IsShareAt, KeepsFirst};
ghost use Rattle.waldo_table.specs.Vaults.{IsJournal};
ghost use Rattle.waldo_table.specs.Fixes.{IsFixFault};
ghost use Rattle.journal_lock.specs.Seats.{OneMore};

use crate::faults::FixFault;
use crate::tag::VaultTag;
use journal_lock::Journaled;
use onehot_column::Piece;
use prefix_log::{ServerLog, Snapshot};
use scan_chunks::Shelf;
use std::alloc::Global;
use std::marker::Model;
use ticket_place::{Book, Sight};

/// A server's log, and a sight of the order that its pieces are of.
///
/// Contracts see it as the log, the book and the order that was seen.
#[derive(Drop)]
pub struct Vault {
    log: ServerLog,
    sight: Sight,
}

impl Model for Vault {
    ghost use Rattle.waldo_table.specs.Vaults.{Behind, IsVault};

    ghost Value = { Behind };

    ghost view = { λ v. record { log = v.log; book = v.sight.book; order = v.sight.order } };

    ghost invariant = { λ v. IsVault v.log v.sight.order };
}

impl Journaled for Vault {
    ghost use Rattle.waldo_table.specs.Vaults.{tag_of};

    type Tag = VaultTag;

    ghost journal = { λ v. v.log.journal };

    ghost tag = { tag_of };

    fn count(&self) -> u64 {
        self.log.count()
    }
}

impl Vault {
    // An empty log, beside a sight.
    pub(crate) fn new(log: ServerLog, sight: Sight) -> Vault
        requires { log ≡ empty_log log.server log.widths log.capacity }
        ensures { result ≡ record { log = log; book = sight.book; order = sight.order } }
    {
        Vault { log, sight }
    }

    // Both see the longer order.
    pub(crate) fn meet(&mut self, book: &Book, sight: &mut Sight)
        requires vault { self.old.book ≡ book.now }
        requires sight { sight.old.book ≡ book.now }
        ensures vault { self.new ≡ record self.old { order = sight.new.order } }
        ensures sight { sight.new ≡ record sight.old { order = sight.new.order } }
        ensures grows { IsPrefix sight.old.order sight.new.order }
        ensures sound { IsSound sight.new }
    {
        book.meet(&mut self.sight, sight);
    }

    // Puts the server's piece of the order's entry at its place, unless there is one.
    pub(crate) fn place(&mut self, place: u64, piece: Piece)
        requires room { place < self.old.log.capacity }
        requires share { IsShareAt self.old.log.widths self.old.log.server self.old.order place piece }
        ensures rest { self.new ≡ record self.old { log = placed self.old.log place piece } }
        ensures more { OneMore self.old.log.journal self.new.log.journal }
        ensures there { has place self.new.log.journal ≡ true }
        ensures legal { IsJournal self.new.log.journal self.new.order }
    {
        self.log.place(place, piece);
    }

    // How many of the first places have a piece.
    pub(crate) fn prefix(&self) -> u64
        ensures prefix { result ≡ prefix_in self.now.log.journal }
        ensures legal { IsJournal self.now.log.journal self.now.order }
    {
        self.log.prefix()
    }

    // A snapshot of these places, unless they are fewer than the floor.
    pub(crate) fn fix(&mut self, alloc: Global, floor: u64) -> Result<Snapshot, FixFault>
        ensures stays { self.new ≡ self.old }
        ensures fixed { IfOk result (λ s. let h = ⟦<Snapshot as Shelf>⟧.held s in
            (floor ≤ h.rows) × (h.rows ≡ prefix_in self.old.log.journal)
            × KeepsFirst self.old.log.widths self.old.log.server self.old.order h.rows h) }
        ensures fault { IfErr result (IsFixFault floor self.old.log.journal) }
        ensures legal { IsJournal self.old.log.journal self.old.order }
    {
        let had = self.prefix();
        if had < floor {
            return Err(FixFault::Below { had });
        }
        let Ok(snapshot) = self.log.fix(alloc) else {
            return Err(FixFault::Memory);
        };
        Ok(snapshot)
    }
}
