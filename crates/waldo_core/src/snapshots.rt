//! What the fixes of an actor found.
ghost use Rattle.std.specs.Prelude.{◌≡◌};
ghost use Rattle.waldo_core.specs.Core.{is_pending as pending_in};
ghost use Rattle.waldo_core.specs.Held.{next_server_of, seen_fixes};

use agreed_rows::Agreed;
use prefix_log::Snapshot;
use scan_chunks::Shelf;

/// What the fixes of an actor found: nothing, a snapshot of server 0, those of servers 0 and 1, or the rows of all three,
/// agreed on.
#[derive(Drop)]
pub(crate) enum Snapshots {
    Unfixed,
    First(Snapshot),
    Second(Snapshot, Snapshot),
    Agreed(Agreed),
}

impl Snapshots {
    /// Whether some fixes are under way.
    pub(crate) fn is_pending(&self) -> bool
        ensures { result ≡ pending_in (seen_fixes ⟦<Snapshot as Shelf>⟧.held self.now) }
    {
        match self {
            Snapshots::Unfixed | Snapshots::Agreed(_) => false,
            Snapshots::First(_) | Snapshots::Second(..) => true,
        }
    }

    /// Lets go of what was found.
    pub(crate) fn clear(&mut self)
        ensures { self.new ≡ Snapshots.Unfixed }
    {
        if !matches!(self, Snapshots::Unfixed) {
            *self = Snapshots::Unfixed;
        }
    }

    /// The server of the next fix.
    pub(crate) fn next_server(&self) -> u8
        ensures { result ≡ next_server_of self.now }
    {
        match self {
            Snapshots::Unfixed | Snapshots::Agreed(_) => 0,
            Snapshots::First(_) => 1,
            Snapshots::Second(..) => 2,
        }
    }
}
