use std::collections::LinkedList;

/// What a seat knows of the lock's journal. It exists in proofs alone: no value of it is made.
pub struct Knows {
    /// Whether it has the value.
    pub holds: bool,
    /// The journal, while it has the value.
    pub held: LinkedList<u64>,
    /// A beginning of the journal.
    pub seen: LinkedList<u64>,
    /// Its loads of the count while it had the value.
    pub looks: u64,
    /// Its tries that found the value with another seat.
    pub tries: u64,
    /// What the seat had seen before the last join, and what the other had seen.
    pub left: LinkedList<u64>,
    pub right: LinkedList<u64>,
}
