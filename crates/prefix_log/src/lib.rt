//! A server's log of pieces: which places have one, how many of the first places have one without a gap, and snapshots
//! of the pieces there.
//!
//! A place takes the first piece that comes to it and keeps it, until it is retired. The journal is the list of these places
//! in the order in which they were filled, and its prefix is the largest number such that each place below it was filled.
//! Retiring drops the pieces of the first places, in whole chunks of 64 below the prefix; the journal then gains a mark, which
//! tells the new start. A retired place is not free again. A snapshot has the pieces of the places from the start to below the
//! prefix; what is placed or retired later changes no snapshot.
//!
//! The cells are kept column by column in chunks of 64 places. A snapshot shares whole chunks with the log and copies the
//! rest, so a table and all its snapshots take little more memory than its cells.
//!
//! ```text
//! let mut log = ServerLog::new(alloc, 0, &widths, 4)?;
//! log.place(1, second);
//! log.prefix(); // 0, since place 0 is free
//! log.place(0, first);
//! log.prefix(); // 2
//! let mut snapshot = log.fix(alloc)?; // two rows, `first` and `second`
//! snapshot.cut(0, 1); // and now the row of `first`
//! ```
#![tactic(auto)]

mod bulk;
mod cells;
mod chunk;
mod chunks;
mod code;
mod fault;
mod journal;
pub mod laws;
mod log;
mod rows;
mod snapshot;
mod tag;

pub use bulk::Entry;
pub use fault::OpenFault;
pub use journal::prefix_of;
pub use log::{ServerLog, append_rows};
pub use snapshot::Snapshot;
pub use tag::LogTag;

#[cfg(test)]
mod tests;
