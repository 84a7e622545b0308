// The steps on the book's word, one function a kind.
ghost use Rattle.std.specs.Prelude.{◌≡◌, ◌+◌, ◌<◌, ◌≤◌, ◌^◌, [], length};
ghost use mathlib.Core.List.{IsPrefix};
ghost use Rattle.ticket_place.specs.Orders.{SoundSeat};
ghost use Rattle.ticket_place.specs.Steps.{Adds, without_room, handed, joined};

use crate::entry::Entry;
use crate::known::Known;
use crate::rule::{Bounding, Drawing, Draws, Handing, Hands, Joins, Looks, Notes, OneOrder};
use atomic_table::{Seat, Shared};

type Word = Shared<(), Known, u64, OneOrder>;

// The fetch that adds 1, for the entry. Answers its place.
pub(crate) fn draw<N: Drawing>(word: &Word, seat: &mut Seat<(), Known>, entry: Entry) -> u64
    requires word { (word.now.table_id.words ≡ 1) × (seat.old.table_id ≡ word.now.table_id) }
    requires picked { ((entry.row, entry.seed) ≡ N.entry) × (word.now.key ≡ N.capacity) }
    requires room { 0 < seat.old.me.0.room }
    ensures same { (seat.new.table_id ≡ seat.old.table_id) × (seat.new.me.1 ≡ seat.old.me.1) }
    ensures adds { Adds (entry.row, entry.seed) seat.old.me.0 result seat.new.me.0 }
    ensures sound { SoundSeat word.now.key seat.new.me.0 }
{
    let _ = entry;
    word.fetch_add::<Draws<N>>(seat, 0, 1)
}

// The load.
pub(crate) fn look<N: Bounding>(word: &Word, seat: &mut Seat<(), Known>) -> u64
    requires capacity { word.now.key ≡ N.capacity }
    requires word { (word.now.table_id.words ≡ 1) × (seat.old.table_id ≡ word.now.table_id) }
    ensures same { seat.new.table_id ≡ seat.old.table_id }
    ensures order { IsPrefix seat.old.me.0.order seat.new.me.0.order }
    ensures length { length seat.new.me.0.order ≡ result }
    ensures rest { seat.new.me ≡ (record seat.old.me.0 { order = seat.new.me.0.order; looks = seat.old.me.0.looks + 1 }, seat.old.me.1) }
    ensures sound { SoundSeat word.now.key seat.new.me.0 }
{
    word.load::<Looks<N>>(seat, 0)
}

// A second seat, with room of the first.
pub(crate) fn hand<N: Handing>(
    word: &Word,
    seat: &mut Seat<(), Known>,
    room: u64,
) -> Seat<(), Known>
    requires word { (word.now.table_id.words ≡ 1) × (seat.old.table_id ≡ word.now.table_id) }
    requires room { (room ≡ N.room) × (room ≤ seat.old.me.0.room) }
    ensures kept { (seat.new.table_id ≡ seat.old.table_id) × (seat.new.me ≡ (without_room seat.old.me.0 room, seat.old.me.1)) }
    ensures given { (result.table_id ≡ seat.old.table_id) × (result.me ≡ (handed seat.old.me.0 room, [])) }
{
    let _ = room;
    word.split_seat::<Hands<N>>(seat)
}

// A join, and the load that says what it learned.
pub(crate) fn join<N: Bounding>(word: &Word, seat: &mut Seat<(), Known>, other: Seat<(), Known>)
    requires capacity { word.now.key ≡ N.capacity }
    requires word { (word.now.table_id.words ≡ 1) × (seat.old.table_id ≡ word.now.table_id) }
    requires other { (other.table_id ≡ word.now.table_id) × (other.me.1 ≡ []) }
    requires notes { (seat.old.me.0.left ≡ []) × (seat.old.me.0.right ≡ []) }
    ensures same { (seat.new.table_id ≡ seat.old.table_id) × (seat.new.me.1 ≡ seat.old.me.1) }
    ensures joined { seat.new.me.0 ≡ record (joined seat.old.me.0 other.me.0) { left = []; right = [] } }
    ensures orders { IsPrefix seat.old.me.0.order seat.new.me.0.order × IsPrefix other.me.0.order seat.new.me.0.order }
    ensures sound { SoundSeat word.now.key seat.new.me.0 × (seat.new.me.0.room < 2 ^ 32) }
{
    word.join_seat::<Joins>(seat, other);
    word.load::<Notes<N>>(seat, 0);
}
