use crate::knows::Knows;
use std::marker::Model;

/// A place at a lock, for one thread. It takes no bytes.
///
/// Contracts see it as the lock that it is of, whether it holds the value, `seen`, the journal as far as it was reported,
/// `looks`, its loads of the count under a hold, and `tries`, its tries that failed.
#[derive(Drop)]
pub struct Seat<S> {
    pub(crate) token: atomic_table::Seat<Option<S>, Knows>,
}

impl<S> Model for Seat<S> {
    ghost use Rattle.std.specs.Prelude.{◌≡◌, []};
    ghost use Rattle.journal_lock.specs.Seats.{Seen, Rests};

    ghost Value = { Seen };

    ghost view = { λ s. record {
      lock = s.token.table_id;
      holds = s.token.me.0.holds;
      seen = s.token.me.0.seen;
      looks = s.token.me.0.looks;
      tries = s.token.me.0.tries;
    } };

    ghost invariant = { λ s. Rests s.token.me.0.holds s.token.me × (s.token.me.0.left ≡ []) × (s.token.me.0.right ≡ []) };
}
