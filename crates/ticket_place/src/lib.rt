//! The one order of draws that threads share, which keeps its length in an atomic word and its entries in the contracts
//! alone. A draw adds an entry at the end by one fetch, so each place is drawn once and whatever two threads have seen
//! of the order, the shorter begins the longer.
//!
//! It never draws past the capacity, never gives a place twice and stores no entry: the caller keeps what it drew. It
//! says nothing of the order in time of two draws whose callers never met.
//!
//! ```text
//! let (book, mut sight) = Book::new(alloc, 65_536)?;
//! let mut theirs = book.hand(&mut sight, 100);              // another thread may make 100 draws
//!
//! match book.draw(&mut theirs, Entry { row, seed }) {
//!     Ok(ticket) => keep(ticket.place, row),                // this entry stands at this place
//!     Err(full) => refuse(full.entry),                      // no room; nothing was drawn
//! }
//! let rows = book.look(&mut sight);                         // draws so far, by whichever thread
//! book.gather(&mut sight, theirs);                          // room and own places come back
//! ```
#![tactic(auto)]

mod book;
mod entry;
mod known;
mod rule;
mod sight;
mod steps;

pub use book::{Book, Full, Ticket};
pub use entry::Entry;
pub use sight::Sight;

#[cfg(test)]
mod tests;
