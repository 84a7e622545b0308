// The steps on the lock's words, one function a kind, and the moves of its slot.
ghost use Rattle.std.specs.Prelude.{◌≡◌, ℕ, ◌+◌, ◌<◌, ◌^◌, true, false, List, [], ◌∷◌, ◌++◌, length, MatchBool, Some, None};
ghost use mathlib.Core.List.{IsPrefix};
ghost use Rattle.journal_lock.specs.Steps.{Took, again, joined};
ghost use Rattle.journal_lock.specs.Seats.{OneMore};

use crate::journaled::Journaled;
use crate::knows::Knows;
use crate::rule::{
    Again, Brand, Fitting, Gives, Growing, Grows, Joins, Notes, OneHolder, Reads, Takes, Tries,
};
use atomic_table::Shared;
use std::snapshot::Snapshot;
use std::sync::Wait;

pub(crate) type Words<S> = Shared<Option<S>, Knows, Snapshot<S>, OneHolder>;

pub(crate) type Token<S> = atomic_table::Seat<Option<S>, Knows>;

// The exchange of the turn from 0 to 1.
pub(crate) fn take_once<S: Journaled, N: Fitting<S>>(desk: &Words<S>, seat: &mut Token<S>) -> bool
    requires desk { (desk.now.table_id.words ≡ 2) × (desk.now.table_id.slots ≡ 1) × (seat.old.table_id ≡ desk.now.table_id) }
    requires fits { (x : S) → S.tag x ≡ S.tag desk.now.key.value → N.fits x }
    requires idle { (seat.old.me.0.holds ≡ false) × (seat.old.me.1 ≡ []) }
    ensures same { seat.new.table_id ≡ seat.old.table_id }
    ensures took { MatchBool result (Took S.journal N.fits seat.old.me seat.new.me)
        (seat.new.me ≡ seat.old.me) }
{
    desk.compare_exchange::<Takes<N>>(seat, 0, 0, 1) == 0
}

// The same, by a seat that counts its failures.
pub(crate) fn try_once<S: Journaled, N: Fitting<S>>(desk: &Words<S>, seat: &mut Token<S>) -> bool
    requires desk { (desk.now.table_id.words ≡ 2) × (desk.now.table_id.slots ≡ 1) × (seat.old.table_id ≡ desk.now.table_id) }
    requires fits { (x : S) → S.tag x ≡ S.tag desk.now.key.value → N.fits x }
    requires idle { (seat.old.me.0.holds ≡ false) × (seat.old.me.1 ≡ []) }
    ensures same { seat.new.table_id ≡ seat.old.table_id }
    ensures took { MatchBool result (Took S.journal N.fits seat.old.me seat.new.me)
        (seat.new.me ≡ (record seat.old.me.0 { tries = seat.old.me.0.tries + 1 }, seat.old.me.1)) }
{
    desk.compare_exchange::<Tries<N>>(seat, 0, 0, 1) == 0
}

// Exchanges until the turn was free, and sleeps while it is not.
pub(crate) fn take_waiting<S: Journaled, N: Fitting<S>, R: Wait>(
    rt: &R,
    desk: &Words<S>,
    seat: &mut Token<S>,
)
    requires desk { (desk.now.table_id.words ≡ 2) × (desk.now.table_id.slots ≡ 1) × (seat.old.table_id ≡ desk.now.table_id) }
    requires fits { (x : S) → S.tag x ≡ S.tag desk.now.key.value → N.fits x }
    requires idle { (seat.old.me.0.holds ≡ false) × (seat.old.me.1 ≡ []) }
    ensures same { seat.new.table_id ≡ seat.old.table_id }
    ensures took { Took S.journal N.fits seat.old.me seat.new.me }
{
    for _ in rt.forever() {
        if take_once::<S, N>(desk, seat) {
            return;
        }
        desk.park(rt, 0, 1);
    }
    unreachable!()
}

// The value out of the slot.
pub(crate) fn take_out<S: Journaled>(desk: &Words<S>, seat: &mut Token<S>) -> S
    requires desk { seat.old.table_id ≡ desk.now.table_id }
    requires out { (value : S) × (seat.old.me.1 ≡ (0, Some value) ∷ []) }
    ensures same { seat.new.table_id ≡ seat.old.table_id }
    ensures out { (seat.old.me.1 ≡ (0, Some result) ∷ []) × (seat.new.me ≡ (seat.old.me.0, (0, None) ∷ [])) }
{
    desk.exchange(seat, 0, None).unwrap()
}

// The value back into the slot.
pub(crate) fn put_back<S: Journaled>(desk: &Words<S>, seat: &mut Token<S>, value: S)
    requires desk { seat.old.table_id ≡ desk.now.table_id }
    requires out { seat.old.me.1 ≡ (0, None) ∷ [] }
    ensures same { seat.new.table_id ≡ seat.old.table_id }
    ensures back { seat.new.me ≡ (seat.old.me.0, (0, Some value) ∷ []) }
{
    let old = desk.exchange(seat, 0, Some(value));
    let None = old else { unreachable!() };
}

// The load of the count.
pub(crate) fn read<S: Journaled>(desk: &Words<S>, seat: &mut Token<S>) -> u64
    requires desk { (desk.now.table_id.words ≡ 2) × (seat.old.table_id ≡ desk.now.table_id) }
    requires holds { seat.old.me.0.holds ≡ true }
    ensures same { seat.new.table_id ≡ seat.old.table_id }
    ensures count { result ≡ length seat.old.me.0.held }
    ensures seen { seat.new.me ≡ (record seat.old.me.0 { seen = seat.old.me.0.held; looks = seat.old.me.0.looks + 1 }, seat.old.me.1) }
{
    desk.load::<Reads>(seat, 1)
}

// The fetch that adds 1 to the count, for the value's last entry.
pub(crate) fn grow<S: Journaled, N: Growing>(desk: &Words<S>, seat: &mut Token<S>, value: &S)
    requires after { N.after ≡ S.journal value.now }
    requires desk { (desk.now.table_id.words ≡ 2) × (seat.old.table_id ≡ desk.now.table_id) }
    requires holds { seat.old.me.0.holds ≡ true }
    requires more { ((entry : ℕ) × (N.after ≡ seat.old.me.0.held ++ entry ∷ [])) × (length N.after < 2 ^ 64) }
    ensures same { seat.new.table_id ≡ seat.old.table_id }
    ensures grew { seat.new.me ≡ (record seat.old.me.0 { held = N.after; seen = N.after }, seat.old.me.1) }
{
    let _ = value;
    desk.fetch_add::<Grows<N>>(seat, 1, 1);
}

// Counts the entry that the value's journal has more, if there is one.
pub(crate) fn settle<S: Journaled>(desk: &Words<S>, seat: &mut Token<S>, value: &S, count: u64)
    requires desk { (desk.now.table_id.words ≡ 2) × (seat.old.table_id ≡ desk.now.table_id) }
    requires holds { (seat.old.me.0.holds ≡ true) × (seat.old.me.0.seen ≡ seat.old.me.0.held) × (count ≡ length seat.old.me.0.held) }
    requires journal { OneMore seat.old.me.0.held (S.journal value.now) }
    ensures same { seat.new.table_id ≡ seat.old.table_id }
    ensures settled { seat.new.me ≡ (record seat.old.me.0 { held = S.journal value.now; seen = S.journal value.now }, seat.old.me.1) }
{
    if value.count() > count {
        grow::<S, Brand>(desk, seat, value);
    }
}

// The swap of the turn to 0, which wakes one that sleeps.
pub(crate) fn release<S: Journaled>(desk: &Words<S>, seat: &mut Token<S>)
    requires desk { (desk.now.table_id.words ≡ 2) × (desk.now.table_id.slots ≡ 1) × (seat.old.table_id ≡ desk.now.table_id) }
    requires holds { seat.old.me.0.holds ≡ true }
    requires back { (value : S) × (seat.old.me.1 ≡ (0, Some value) ∷ []) × (S.journal value ≡ seat.old.me.0.held)
        × (S.tag value ≡ S.tag desk.now.key.value) }
    ensures same { seat.new.table_id ≡ seat.old.table_id }
    ensures gave { seat.new.me ≡ (record seat.old.me.0 { holds = false; held = [] }, []) }
{
    desk.swap::<Gives>(seat, 0, 0);
    desk.wake_one(0);
}

// A second seat.
pub(crate) fn again<S: Journaled>(desk: &Words<S>, seat: &mut Token<S>) -> Token<S>
    requires desk { (desk.now.table_id.words ≡ 2) × (seat.old.table_id ≡ desk.now.table_id) }
    ensures same { (seat.new.table_id ≡ seat.old.table_id) × (seat.new.me ≡ seat.old.me) }
    ensures given { (result.table_id ≡ seat.old.table_id) × (result.me ≡ (again seat.old.me.0, [])) }
{
    desk.split_seat::<Again>(seat)
}

// A join, and the load of the count that says what it learned.
pub(crate) fn join<S: Journaled>(desk: &Words<S>, seat: &mut Token<S>, other: Token<S>)
    requires desk { (desk.now.table_id.words ≡ 2) × (seat.old.table_id ≡ desk.now.table_id) × (other.table_id ≡ desk.now.table_id) }
    requires idle { (seat.old.me.0.holds ≡ false) × (other.me.0.holds ≡ false) × (other.me.1 ≡ []) }
    requires notes { (seat.old.me.0.left ≡ []) × (seat.old.me.0.right ≡ []) }
    ensures same { (seat.new.table_id ≡ seat.old.table_id) × (seat.new.me.1 ≡ seat.old.me.1) }
    ensures joined { seat.new.me.0 ≡ record (joined seat.old.me.0 other.me.0) { left = []; right = [] } }
    ensures orders { IsPrefix seat.old.me.0.seen seat.new.me.0.seen × IsPrefix other.me.0.seen seat.new.me.0.seen }
{
    desk.join_seat::<Joins>(seat, other);
    desk.load::<Notes>(seat, 1);
}
