ghost use Rattle.std.specs.Prelude.{◌≡◌, length};

use crate::journaled::Journaled;
use crate::steps::Token;
use std::marker::Model;
use std::snapshot::Snapshot;

/// The value of a lock, while a seat has it. It can't be let go: it ends in `JournalLock::give` alone.
///
/// Contracts see it as the lock that it was taken from, the value, and the journal that the value had when it was taken.
pub struct Held<S: Journaled> {
    pub(crate) value: S,
    pub(crate) count: u64,
    pub(crate) taken: Snapshot<S>,
    pub(crate) by: Snapshot<Token<S>>,
}

impl<S: Journaled> Model for Held<S> {
    ghost use Rattle.std.specs.Prelude.{◌≡◌, length};
    ghost use Rattle.journal_lock.specs.Seats.{Out};

    ghost Value = { Out S };

    ghost view = { λ h. record { lock = h.by.value.table_id; value = h.value; journal = S.journal h.taken.value } };

    ghost invariant = { λ h. h.count ≡ length (S.journal h.taken.value) };
}

impl<S: Journaled> Held<S> {
    ghost use Rattle.std.specs.Prelude.{◌≡◌};
    ghost use Rattle.std.specs.Borrow.{Lends, sem};
    ghost use Rattle.journal_lock.specs.contracts.held.Held.{the_row};

    /// The value, to read.
    pub fn value(&self) -> &S
        ensures { result.now ≡ self.now.value }
    {
        &self.value
    }

    /// The value, to change.
    pub fn value_mut(&mut self) -> &mut S
        ensures* writes_back { sem 𝓛 (Lends (the_row S.row S.Tag.row S.Journaled) S.row self.entry result
            (λ w. record self.old { value = w })) }
        ensures value { result.now ≡ self.old.value }
    {
        &mut self.value
    }
}
