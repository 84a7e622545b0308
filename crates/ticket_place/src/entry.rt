use prg_chacha::Seed;
use table_schema::Row;

/// What one draw puts into the order: a row, and the seed that its sharing is made from.
#[derive(Clone, Copy, Debug, PartialEq, Eq)]
pub struct Entry {
    pub row: Row,
    pub seed: Seed,
}
