// What is done under one server's lock.
ghost use Rattle.std.specs.Prelude.{◌≡◌, ◌≤◌, IfOk, IfErr, true, false};
ghost use mathlib.Core.List.{IsPrefix};
ghost use Rattle.journal_lock.specs.Seats.{Seen};
ghost use Rattle.list_facts.specs.Count.{has, times};
ghost use Rattle.onehot_column.specs.declared.piece.Piece.{Piece};
ghost use Rattle.prefix_log.specs.Journal.{prefix};
ghost use Rattle.ticket_place.specs.Sights.{IsSound};
ghost use Rattle.agreed_rows.specs.Servers.{IsShareAt, KeepsFirst};
ghost use Rattle.waldo_table.specs.Fixes.{IsFixFault};
ghost use Rattle.waldo_table.specs.Pieces.{HasSeen, was_placed};
ghost use Rattle.waldo_table.specs.Tables.{Looked};
ghost use Rattle.waldo_table.specs.declared.part.AtServer.TheVariants as parts;

use crate::faults::FixFault;
use crate::part::AtServer;
use crate::vault::Vault;
use journal_lock::{JournalLock, Seat};
use onehot_column::Piece;
use prefix_log::Snapshot;
use scan_chunks::Shelf;
use std::alloc::Global;
use std::mem;
use std::sync::Wait;
use ticket_place::{Book, Sight};

// Puts a piece at its place, unless one is there.
pub(crate) fn place<R: Wait>(
    rt: &R,
    book: &Book,
    lock: &JournalLock<Vault>,
    sight: &mut Sight,
    seat: &mut Seat<Vault>,
    place: u64,
    piece: Piece,
)
    requires of { (sight.old.book ≡ book.now) × (seat.old.lock ≡ lock.now.id) × (seat.old.holds ≡ false) }
    requires lock { (lock.now.tag.book.value ≡ book.now) × (lock.now.tag.capacity ≡ book.now.capacity) }
    requires share { IsShareAt lock.now.tag.widths lock.now.tag.server sight.old.order place piece }
    ensures sight { sight.new ≡ record sight.old { order = sight.new.order } }
    ensures order { IsPrefix sight.old.order sight.new.order }
    ensures seat { Looked sight.new.order seat.old seat.new }
    ensures sound { IsSound sight.new }
    ensures there { has place seat.new.seen ≡ true }
{
    let mut held = lock.take(rt, seat);
    let vault = held.value_mut();
    vault.meet(book, sight);
    vault.place(place, piece);
    lock.give(seat, held);
}

// Sees how many of the first places there are.
pub(crate) fn look<R: Wait>(
    rt: &R,
    book: &Book,
    lock: &JournalLock<Vault>,
    sight: &mut Sight,
    seat: &mut Seat<Vault>,
) -> u64
    requires of { (sight.old.book ≡ book.now) × (seat.old.lock ≡ lock.now.id) × (seat.old.holds ≡ false) }
    requires lock { lock.now.tag.book.value ≡ book.now }
    ensures sight { sight.new ≡ record sight.old { order = sight.new.order } }
    ensures order { IsPrefix sight.old.order sight.new.order }
    ensures seat { Looked sight.new.order seat.old seat.new }
    ensures sound { IsSound sight.new }
    ensures prefix { result ≡ prefix seat.new.seen }
{
    let mut held = lock.take(rt, seat);
    let vault = held.value_mut();
    vault.meet(book, sight);
    let prefix = vault.prefix();
    lock.give(seat, held);
    prefix
}

// Looks again, with what another seat saw.
fn look_again<R: Wait>(
    rt: &R,
    book: &Book,
    lock: &JournalLock<Vault>,
    sight: &mut Sight,
    seat: &mut Seat<Vault>,
    place: u64,
    other: Seat<Vault>,
)
    requires of { (sight.old.book ≡ book.now) × (seat.old.lock ≡ lock.now.id) × (seat.old.holds ≡ false) }
    requires lock { lock.now.tag.book.value ≡ book.now }
    requires placed { HasSeen lock.now.id place other }
    ensures sight { sight.new ≡ record sight.old { order = sight.new.order } }
    ensures order { IsPrefix sight.old.order sight.new.order }
    ensures seat { Looked sight.new.order seat.old seat.new }
    ensures sound { IsSound sight.new }
    ensures there { has place seat.new.seen ≡ true }
{
    lock.join(seat, other);
    look(rt, book, lock, sight, seat);
}

// Puts the piece at its place, or sees that it stands there.
fn settle<R: Wait>(
    rt: &R,
    book: &Book,
    lock: &JournalLock<Vault>,
    sight: &mut Sight,
    seat: &mut Seat<Vault>,
    at: u64,
    part: AtServer,
)
    requires of { (sight.old.book ≡ book.now) × (seat.old.lock ≡ lock.now.id) × (seat.old.holds ≡ false) }
    requires lock { (lock.now.tag.book.value ≡ book.now) × (lock.now.tag.capacity ≡ book.now.capacity) }
    requires left { (p : Piece) → part ≡ parts.Left p → IsShareAt lock.now.tag.widths lock.now.tag.server sight.old.order at p }
    requires placed { (s : Seen) → part ≡ parts.Placed s → HasSeen lock.now.id at s }
    ensures sight { sight.new ≡ record sight.old { order = sight.new.order } }
    ensures order { IsPrefix sight.old.order sight.new.order }
    ensures seat { Looked sight.new.order seat.old seat.new }
    ensures sound { IsSound sight.new }
    ensures there { has at seat.new.seen ≡ true }
{
    match part {
        AtServer::Left(piece) => place(rt, book, lock, sight, seat, at, piece),
        AtServer::Placed(other) => look_again(rt, book, lock, sight, seat, at, other),
    }
}

// Places what a draw keeps for the server, in the draw itself. A seat that has seen the place stays in the draw, so that a later placing
// through another pass can tell that pass so.
pub(crate) fn put<R: Wait>(
    rt: &R,
    book: &Book,
    lock: &JournalLock<Vault>,
    sight: &mut Sight,
    seat: &mut Seat<Vault>,
    at: u64,
    part: &mut AtServer,
)
    requires of { (sight.old.book ≡ book.now) × (seat.old.lock ≡ lock.now.id) × (seat.old.holds ≡ false) }
    requires lock { (lock.now.tag.book.value ≡ book.now) × (lock.now.tag.capacity ≡ book.now.capacity) }
    requires left { (p : Piece) → part.old ≡ parts.Left p → IsShareAt lock.now.tag.widths lock.now.tag.server sight.old.order at p }
    requires placed { (s : Seen) → part.old ≡ parts.Placed s → HasSeen lock.now.id at s }
    ensures sight { sight.new ≡ record sight.old { order = sight.new.order } }
    ensures order { IsPrefix sight.old.order sight.new.order }
    ensures seat { Looked sight.new.order seat.old seat.new }
    ensures sound { IsSound sight.new }
    ensures there { times at seat.new.seen ≡ 1 }
    ensures placed { was_placed part.new ≡ true }
    ensures keeps { (s : Seen) → part.new ≡ parts.Placed s → HasSeen lock.now.id at s }
{
    let before = mem::replace(part, AtServer::Placed(lock.split(seat)));
    settle(rt, book, lock, sight, seat, at, before);
    *part = AtServer::Placed(lock.split(seat));
}

// A snapshot of the first places, unless they are fewer than the floor.
pub(crate) fn fix<R: Wait>(
    rt: &R,
    alloc: Global,
    book: &Book,
    lock: &JournalLock<Vault>,
    sight: &mut Sight,
    seat: &mut Seat<Vault>,
    floor: u64,
) -> Result<Snapshot, FixFault>
    requires of { (sight.old.book ≡ book.now) × (seat.old.lock ≡ lock.now.id) × (seat.old.holds ≡ false) }
    requires lock { lock.now.tag.book.value ≡ book.now }
    ensures sight { sight.new ≡ record sight.old { order = sight.new.order } }
    ensures order { IsPrefix sight.old.order sight.new.order }
    ensures sound { IsSound sight.new }
    ensures seat { Looked sight.new.order seat.old seat.new }
    ensures fixed { IfOk result (λ s. let h = ⟦<Snapshot as Shelf>⟧.held s in
        (floor ≤ h.rows) × (h.rows ≡ prefix seat.new.seen) × KeepsFirst lock.now.tag.widths lock.now.tag.server sight.new.order h.rows h) }
    ensures fault { IfErr result (IsFixFault floor seat.new.seen) }
{
    let mut held = lock.take(rt, seat);
    let vault = held.value_mut();
    vault.meet(book, sight);
    let fixed = vault.fix(alloc, floor);
    lock.give(seat, held);
    fixed
}
