//! What a draw keeps for one server.
ghost use Rattle.std.specs.Prelude.{◌≡◌};
ghost use Rattle.waldo_table.specs.Pieces.{was_placed};

use crate::vault::Vault;
use journal_lock::Seat;
use onehot_column::Piece;

// The piece until it is placed, and then a seat that has seen its place in the server's journal.
#[derive(Drop)]
pub(crate) enum AtServer {
    Left(Piece),
    Placed(Seat<Vault>),
}

impl AtServer {
    pub(crate) fn is_placed(&self) -> bool
        ensures { result ≡ was_placed self.now }
    {
        match self {
            AtServer::Left(_) => false,
            AtServer::Placed(_) => true,
        }
    }
}
