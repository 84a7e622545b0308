//! The first rows of an order, as three servers hold them, and the answer of a query over them. Whoever keeps an order and three
//! logs, with locks or without, asks through this crate.
//!
//! A server's log holds pieces of the rows, and no server sees a row. Snapshots of the three logs, cut to the rows of the least, hold
//! the same first rows; a query over these needs neither the logs nor a lock, and rows that come later change nothing.
//!
//! The layer above uses one contract, that of [`answer`]: the messages that were carried are those of the query over just these rows,
//! the answer is what the check says of the pair that they open, and it is the plain count or sum where each message was received as
//! it was sent.
//!
//! ```text
//! let agreed = Agreed::of(&widths, &sight, zero.fix(alloc)?, one.fix(alloc)?, two.fix(alloc)?); // 2, 2 and 1 rows
//! println!(rt; "{} row", agreed.rows())?; // 1 row
//! match answer(&rt, alloc, &agreed, &query, &seed, &mut wire, &mut trace, 4) {
//!     Ok(Answered { rows, total }) => println!(rt; "{total} over {rows} rows")?,
//!     Err(AnswerFault::Altered { total, weighted }) => println!(rt; "altered: {total}, {weighted}")?,
//!     Err(AnswerFault::Memory) => println!(rt; "out of memory")?,
//! }
//! ```
#![tactic(auto)]

mod agreed;
mod agreement;
mod query;

pub use agreed::Agreed;
pub use query::{AnswerFault, Answered, answer};
