//! What happens at a machine, and what it replies.

use prg_chacha::Seed;
use query_plan::Query;
use table_schema::Row;

/// A step of one actor, from 0 to 15, at a machine.
#[derive(Clone, Copy, Debug)]
pub enum Event {
    /// Draws the next place for a row, which its seed splits among the servers.
    Draw { actor: u8, row: Row, seed: Seed },
    /// Puts the open draw's piece at a server, from 0 to 2.
    Place { actor: u8, server: u8 },
    /// Sees how many of the first places a server has.
    Look { actor: u8, server: u8 },
    /// Holds the rows that the next of the three servers has, from server 0 on; the third time the actor agrees on the
    /// least of what it found.
    Fix { actor: u8 },
    /// Asks a query, with its seed, over the rows that the actor agreed on.
    Answer { actor: u8, query: Query, seed: Seed },
}

/// What an event that has a case replies.
#[derive(Clone, Copy, Debug, PartialEq, Eq)]
pub enum Reply {
    /// The place that was drawn.
    Drew {
        place: u64,
    },
    /// There are as many rows as the machine takes; nothing was drawn.
    Full {
        capacity: u32,
    },
    Placed,
    /// How many of the first places the server has.
    Looked {
        prefix: u64,
    },
    /// The same, by the first or the second fix.
    Fixed {
        prefix: u64,
    },
    /// How many rows the actor agreed on at its third fix.
    Agreed {
        rows: u64,
    },
    /// The server had fewer of the first places than the actor had seen; its fixes are dropped.
    Again {
        server: u8,
        had: u64,
        floor: u64,
    },
    /// The count or sum over the first rows; a sum may be negative.
    Answered {
        rows: u64,
        total: i64,
    },
    /// The check refused what was opened over the first rows.
    Altered {
        rows: u64,
        total: u128,
        weighted: u128,
    },
}

/// Why an event was not done: it has no case as things stand, or there was no memory.
#[derive(Clone, Copy, Debug)]
pub enum StepFault {
    NotAllowed { event: Event },
    Memory,
}
