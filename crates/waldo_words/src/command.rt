//! What the words ask for.

use crate::groups::Groups;
use crate::queries::Queries;
use crate::schedule::Schedule;
use crate::shifts::ShiftWords;
use prg_chacha::Seed;
use table_schema::Schema;

/// What every command has: the columns of the table and how many rows it has room for, the master seed, how many workers
/// scan (1 to 16), and the queries in the order in which they stand (1 to 16; none where the command asks by buckets).
#[derive(Drop)]
pub struct Common {
    pub schema: Schema,
    pub capacity: u32,
    pub seed: Seed,
    pub workers: u8,
    pub queries: Queries,
}

/// What the program is asked to do.
#[derive(Drop)]
pub enum Command {
    /// Ask the queries over the rows of the input.
    Ask(Common),
    /// Go through the steps of a schedule, 1 to 4,096 of them.
    Replay {
        common: Common,
        schedule: Schedule,
    },
    /// Let `writers` writers and `askers` askers (1 to 16 each) work side by side, each asker for `rounds` rounds (1 to 16).
    Race {
        common: Common,
        writers: u8,
        askers: u8,
        rounds: u8,
    },
    /// Ask the queries over `rows` rows (1 to 65,536, just what the table has room for) generated from a number.
    Make {
        common: Common,
        number: u32,
        rows: u32,
    },
    /// Ask, and say what each server saw.
    Trace(Common),
    /// Ask one query over a wire that adds to words on their way, 1 to 16 of them.
    Tamper {
        common: Common,
        shifts: ShiftWords,
    },
    /// Count the rows at the places from `low` to `high` - 1 that pass the one predicate of the one query, over a tree of the places.
    /// `low` is at most `high`, and `high` at most 65,536.
    Tree {
        common: Common,
        low: u64,
        high: u64,
    },
    /// Ask queries by the buckets of a column, 1 to 16 of them, over the rows of the input.
    Groups {
        common: Common,
        groups: Groups,
    },
}
