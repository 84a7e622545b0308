ghost use Rattle.std.specs.Prelude.{◌≡◌, ◌+◌, true, false, [], ◌∷◌, IfOk, IfSome, IfNone, IsSome, Some, None};
ghost use mathlib.Core.List.{IsPrefix};
ghost use Rattle.list_facts.specs.Count.{longer};
ghost use Rattle.journal_lock.specs.Seats.{OneMore};

use crate::held::Held;
use crate::journaled::Journaled;
use crate::rule::{Brand, Desk};
use crate::seat::Seat;
use crate::steps;
use crate::steps::Token;
use atomic_table::Refused;
use ring128::Memory;
use std::alloc::Global;
use std::marker::Model;
use std::snapshot::Snapshot;
use std::sync::Wait;

/// A value that one seat at a time may have, beside the length of its journal. Threads share it by reference.
///
/// Contracts see it as which lock it is and the tag of the value behind it.
#[derive(Drop)]
pub struct JournalLock<S: Journaled> {
    desk: Desk<S>,
}

impl<S: Journaled> Model for JournalLock<S> {
    ghost use Rattle.std.specs.Prelude.{◌≡◌};
    ghost use Rattle.journal_lock.specs.Seats.{Named};

    ghost Value = { Named S.Tag };

    ghost view = { λ l. record { id = l.desk.shared.table_id; tag = S.tag l.desk.shared.key.value } };

    ghost invariant = { λ l. (l.desk.shared.table_id.words ≡ 2) × (l.desk.shared.table_id.slots ≡ 1) };
}

impl<S: Journaled> JournalLock<S> {
    /// A lock round the value, and its first seat, which has seen the value's journal. Out of memory, the value is dropped.
    pub fn new(alloc: Global, value: S) -> Result<(JournalLock<S>, Seat<S>), Memory>
    where
        S: Drop,
        ensures tag { IfOk result (λ r. r.0.tag ≡ S.tag value) }
        ensures seat { IfOk result (λ r. r.1 ≡ record { lock = r.0.id; holds = false; seen = S.journal value; looks = 0; tries = 0 }) }
    {
        let count = value.count();
        let like = Snapshot::of(&value);
        let mut slots = Vec::with_capacity(alloc, 1)?;
        slots.push_reserved(Some(value));
        match Desk::new(alloc, &[0, count], slots, &like) {
            Ok((desk, token)) => Ok((JournalLock { desk }, Seat { token })),
            Err(Refused { slots: _ }) => Err(Memory),
        }
    }

    /// Waits until the seat has the value, whose journal it then sees by one load of the count.
    pub fn take<R: Wait>(&self, rt: &R, seat: &mut Seat<S>) -> Held<S>
        requires lock { seat.old.lock ≡ self.now.id }
        requires idle { seat.old.holds ≡ false }
        ensures tag { S.tag result.value ≡ self.now.tag }
        ensures journal { S.journal result.value ≡ seat.new.seen }
        ensures taken { (result.lock ≡ self.now.id) × (result.journal ≡ seat.new.seen) }
        ensures grown { IsPrefix seat.old.seen seat.new.seen }
        ensures seat { seat.new ≡ record seat.old { holds = true; seen = seat.new.seen; looks = seat.old.looks + 1 } }
    {
        steps::take_waiting::<S, Brand, R>(rt, &self.desk.shared, &mut seat.token);
        self.held(&mut seat.token)
    }

    /// The value as `take` gives it, without waiting; or `None`, only where the exchange found that another seat had it.
    pub fn try_take(&self, seat: &mut Seat<S>) -> Option<Held<S>>
        requires lock { seat.old.lock ≡ self.now.id }
        requires idle { seat.old.holds ≡ false }
        ensures tag { IfSome result (λ h. S.tag h.value ≡ self.now.tag) }
        ensures journal { IfSome result (λ h. S.journal h.value ≡ seat.new.seen) }
        ensures taken { IfSome result (λ h. (h.lock ≡ self.now.id) × (h.journal ≡ seat.new.seen)) }
        ensures grown { IsPrefix seat.old.seen seat.new.seen }
        ensures some { IsSome result → seat.new ≡ record seat.old { holds = true; seen = seat.new.seen; looks = seat.old.looks + 1 } }
        ensures none { IfNone result (seat.new ≡ record seat.old { tries = seat.old.tries + 1 }) }
    {
        if steps::try_once::<S, Brand>(&self.desk.shared, &mut seat.token) {
            Some(self.held(&mut seat.token))
        } else {
            None
        }
    }

    // The value out of the slot, and the load of the count.
    fn held(&self, token: &mut Token<S>) -> Held<S>
        requires token { (token.old.table_id ≡ self.now.id) × (token.old.me.0.holds ≡ true) }
        requires out { (value : S) × (token.old.me.1 ≡ (0, Some value) ∷ [])
            × (S.journal value ≡ token.old.me.0.held) × (S.tag value ≡ self.now.tag) }
        ensures tag { S.tag result.value ≡ self.now.tag }
        ensures journal { S.journal result.value ≡ token.old.me.0.held }
        ensures taken { (result.lock ≡ self.now.id) × (result.journal ≡ token.old.me.0.held) }
        ensures table { token.new.table_id ≡ token.old.table_id }
        ensures me { token.new.me
            ≡ (record token.old.me.0 { seen = token.old.me.0.held; looks = token.old.me.0.looks + 1 }, (0, None) ∷ []) }
    {
        let desk = &self.desk.shared;
        let value = steps::take_out(desk, token);
        let count = steps::read(desk, token);
        let taken = Snapshot::of(&value);
        let by = Snapshot::of(&*token);
        Held {
            value,
            count,
            taken,
            by,
        }
    }

    /// The value goes back, with the journal that was taken or with one entry more, which is then counted.
    pub fn give(&self, seat: &mut Seat<S>, held: Held<S>)
        requires lock { seat.old.lock ≡ self.now.id }
        requires holds { seat.old.holds ≡ true }
        requires taken { (held.lock ≡ self.now.id) × (held.journal ≡ seat.old.seen) }
        requires tag { S.tag held.value ≡ self.now.tag }
        requires journal { OneMore held.journal (S.journal held.value) }
        ensures { seat.new ≡ record seat.old { holds = false; seen = S.journal held.value } }
    {
        let Held {
            value,
            count,
            taken: _,
            by: _,
        } = held;
        let desk = &self.desk.shared;
        let token = &mut seat.token;
        steps::settle(desk, token, &value, count);
        steps::put_back(desk, token, value);
        steps::release(desk, token);
    }

    /// A second seat, which has seen as much and has made no load and no try.
    pub fn split(&self, seat: &mut Seat<S>) -> Seat<S>
        requires lock { seat.old.lock ≡ self.now.id }
        requires idle { seat.old.holds ≡ false }
        ensures same { seat.new ≡ seat.old }
        ensures given { result ≡ record seat.old { looks = 0; tries = 0 } }
    {
        let token = steps::again(&self.desk.shared, &mut seat.token);
        Seat { token }
    }

    /// Takes another seat in. Of the two journals that they had seen the shorter begins the longer, which the seat has now seen.
    pub fn join(&self, seat: &mut Seat<S>, other: Seat<S>)
        requires lock { (seat.old.lock ≡ self.now.id) × (other.lock ≡ self.now.id) }
        requires idle { (seat.old.holds ≡ false) × (other.holds ≡ false) }
        ensures seat { seat.new ≡ record seat.old { seen = longer seat.old.seen other.seen } }
        ensures begins { IsPrefix seat.old.seen seat.new.seen }
        ensures other { IsPrefix other.seen seat.new.seen }
    {
        let Seat { token } = other;
        steps::join(&self.desk.shared, &mut seat.token, token);
    }
}
