//! A draw that is not closed yet.
ghost use Rattle.std.specs.Prelude.{◌≡◌};
ghost use Rattle.waldo_core.specs.Step.{is_done as done_of};
ghost use Rattle.waldo_core.specs.Held.{piece_for, seen_draw, without};

use onehot_column::Piece;

/// A draw that is not closed yet: its place, and for each server its piece until it is placed.
#[derive(Drop)]
pub(crate) struct OpenDraw {
    pub place: u64,
    pub zero: Option<Piece>,
    pub one: Option<Piece>,
    pub two: Option<Piece>,
}

impl OpenDraw {
    /// Takes out the piece for a server, if it was not taken out before.
    pub(crate) fn hand_out(&mut self, server: u8) -> Option<Piece>
        ensures rest { self.new ≡ without server self.old }
        ensures piece { result ≡ piece_for server self.old }
    {
        match server {
            0 => self.zero.take(),
            1 => self.one.take(),
            _ => self.two.take(),
        }
    }

    /// Whether no piece is left.
    pub(crate) fn is_done(&self) -> bool
        ensures { result ≡ done_of (seen_draw self.now) }
    {
        self.zero.is_none() && self.one.is_none() && self.two.is_none()
    }
}
