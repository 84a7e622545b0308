/// A visit: the column, from 0, and the number of the chunk that was lent.
#[derive(Clone, Copy, Debug, PartialEq, Eq)]
pub struct Visit {
    pub column: u8,
    pub chunk: u32,
}
