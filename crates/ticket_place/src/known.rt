use prg_chacha::Seed;
use std::collections::LinkedList;
use table_schema::Row;

/// What a seat knows of the order. It exists in proofs alone: no value of it is made.
pub struct Known {
    /// A beginning of the one order.
    pub order: LinkedList<(Row, Seed)>,
    /// How many draws it may still make.
    pub room: u64,
    /// The places that were drawn through it.
    pub own: LinkedList<u64>,
    /// Its loads of the order's length.
    pub looks: u64,
    /// The order that the seat had seen before the last join, and the one that the other had seen.
    pub left: LinkedList<(Row, Seed)>,
    pub right: LinkedList<(Row, Seed)>,
}
