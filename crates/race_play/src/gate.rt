/// Where a writer or an asker is. Writers, rows, askers and rounds are counted from 0; a row's number is that of the input row.
#[derive(Clone, Copy, Debug, PartialEq, Eq)]
pub enum Point {
    /// Between a draw and its first placing.
    AfterDraw { writer: u8, row: u64 },
    /// After the answer of a round.
    AfterAnswer { asker: u8, round: u8 },
    /// After the agreement of a writer, which follows its last row.
    AfterBack { writer: u8 },
}

/// What writers and askers pass on their way. It may hold them for a while, and changes nothing of what they do.
pub trait Gate {
    /// Called by the thread that has come to this point.
    fn pass(&self, point: Point);
}

/// A gate that holds no one.
pub struct OpenGate;

impl Gate for OpenGate {
    fn pass(&self, _point: Point) {}
}
