// The rule of the lock's words and slot, and what each step on them says.
use crate::journaled::Journaled;
use crate::knows::Knows;
use atomic_table::{Join, Play, Split, Table, TableRule};
use std::alloc::Global;
pub use std::marker::Brand;
use std::marker::PhantomData;
use std::snapshot::Snapshot;

/// At most one seat has the value, and the count is the length of its journal.
pub struct OneHolder;

/// The words are the turn, which is 1 while a seat has the value, and the count. The slot is the value's home.
pub type Desk<S> = Table<Option<S>, Knows, Snapshot<S>, OneHolder, Global>;

impl<S: Journaled> TableRule<Option<S>, Knows, Snapshot<S>> for OneHolder {
    ghost use Rattle.journal_lock.specs.Desk.{Locked, rested};

    ghost holds = { λ key s. Locked S.journal S.tag (S.tag key.value) s };

    ghost first = { λ key. rested (S.journal key.value) };
}

/// What is known of a value that is taken. The call picks it, since a `Play` does not see the lock's tag.
pub trait Fitting<S> {
    ghost fits: { S → Type 0 };
}

impl<S> Fitting<S> for Brand {
    ghost fits = { λ _. Unit {0} };
}

/// The exchange of the turn from 0 to 1, by a seat that waits.
pub struct Takes<N> {
    of: PhantomData<N>,
}

impl<S: Journaled, N: Fitting<S>> Play<Option<S>, Knows> for Takes<N> {
    ghost use Rattle.journal_lock.specs.Steps.{takes};

    ghost then = { takes S.journal N.fits };
}

/// An exchange that takes the turn where it is free, by a seat that counts its failures.
pub struct Tries<N> {
    of: PhantomData<N>,
}

impl<S: Journaled, N: Fitting<S>> Play<Option<S>, Knows> for Tries<N> {
    ghost use Rattle.journal_lock.specs.Steps.{tries};

    ghost then = { tries S.journal N.fits };
}

/// The swap of the turn to 0.
pub struct Gives;

impl<S: Journaled> Play<Option<S>, Knows> for Gives {
    ghost use Rattle.journal_lock.specs.Steps.{gives};

    ghost then = { gives };
}

/// The load of the count by the seat that has the value.
pub struct Reads;

impl<S: Journaled> Play<Option<S>, Knows> for Reads {
    ghost use Rattle.journal_lock.specs.Steps.{reads};

    ghost then = { reads };
}

/// The journal after a count-up, which the call picks.
pub trait Growing {
    ghost use Rattle.std.specs.Prelude.{ℕ, List};

    ghost after: { List ℕ };
}

impl Growing for Brand {
    ghost use Rattle.std.specs.Prelude.{[]};

    ghost after = { [] };
}

/// The fetch that adds 1 to the count.
pub struct Grows<N> {
    of: PhantomData<N>,
}

impl<S: Journaled, N: Growing> Play<Option<S>, Knows> for Grows<N> {
    ghost use Rattle.journal_lock.specs.Steps.{grows};

    ghost then = { grows N.after };
}

/// The load of the count after a join.
pub struct Notes;

impl<S: Journaled> Play<Option<S>, Knows> for Notes {
    ghost use Rattle.journal_lock.specs.Steps.{notes};

    ghost then = { notes };
}

/// A second seat that has seen as much.
pub struct Again;

impl Split<Knows> for Again {
    ghost use Rattle.journal_lock.specs.Steps.{again};

    ghost left = { λ v. v };

    ghost right = { again };
}

/// One seat of two, which has seen the longer journal.
pub struct Joins;

impl Join<Knows> for Joins {
    ghost use Rattle.std.specs.Prelude.{[]};
    ghost use Rattle.journal_lock.specs.Desk.{rested};
    ghost use Rattle.journal_lock.specs.Steps.{joined};

    ghost both = { joined };

    ghost spent = { rested [] };
}
