//! A query by the buckets of a column, over rows that were agreed on. Whoever asks so goes through this crate.
//!
//! The layer above uses one contract, that of [`answer_groups`]: the messages that were carried are those of the query over just these
//! rows, each bucket is answered by what the check says of the pair that it opened, and where each message was received as it was
//! sent, the answers are the plain count or sum of each bucket.
//!
//! ```text
//! let agreed = machine.agreed(0)?; // three rows: bucket 3 with value 10, 1 with 20 and 3 with 5
//! let answers = answer_groups(&rt, alloc, agreed, &widths, &query, 0, &seed, &mut wire, &mut trace, 4)?;
//! for answer in answers.as_slice() { // 0, 20, 0 and 15 for a sum of all rows
//!     match answer {
//!         GroupAnswer::Good { total } => println!(rt; "{total}")?,
//!         GroupAnswer::Altered { total, weighted } => println!(rt; "altered: {total}, {weighted}")?,
//!     }
//! }
//! ```
#![tactic(auto)]

mod ask;

pub use ask::answer_groups;
