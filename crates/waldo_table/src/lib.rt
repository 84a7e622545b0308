//! A table that threads share: one order of rows, and three servers that each keep a piece of every row.
//!
//! A row goes in by three steps. [`prepare`] splits it by its seed into three pieces; [`Table::draw`] gives it the next place
//! of the one order; [`Table::place`] puts each piece at that place of a server. [`Table::append`] is draw and placings in one
//! call. All memory is taken by [`Table::new`] and `prepare`: the signatures of `draw`, `place`, `append` and `look` have
//! neither an allocator nor an answer for out of memory, so no draw is ever lost.
//!
//! A server's log is behind a lock, which each call holds only while it reads the log or adds one piece. Rows can be missing
//! at a server for a while, since its pieces come in any order; its *prefix* is how many of the first places it has without
//! a gap. A caller has a [`Pass`]: what it has seen of the order and of each server's journal, how many draws it may still
//! make, and its *floor*, the greatest number of rows that it learned of. [`Table::agree`] fixes the rows that all three
//! servers have and never goes below the floor; where a server lacks one of those it says so (`Again`), and the caller tries
//! again later.
//!
//! What a caller can rely on: passes of one table see one history, since of what any two have seen the shorter begins the
//! longer ([`Table::meet`], [`Table::gather`]); each place is drawn once; a row that was placed stands at its place once and
//! stays; and [`answer`] gives the plain sum or count over the rows that were agreed on, or says that a message was altered.
//! `answer` takes neither the table nor leave to wait: it runs beside writers, over rows that nothing changes any more.
//!
//! ```text
//! let (table, mut pass) = Table::new(alloc, widths, 1000)?;
//! let mut mine = table.split_pass(&mut pass, 10);      // another thread's pass, with ten of the draws
//! let prepared = prepare(alloc, &widths, &row, &seed)?;
//! let place = table.append(rt, &mut mine, prepared)?;  // Full where the pass has no draw left
//! match table.agree(rt, alloc, &mut mine) {
//!     Ok(agreed) => answer(rt, alloc, &agreed, &query, &query_seed, &mut wire, &mut trace, workers)?,
//!     Err(AgreeFault::Again { server, had, floor }) => .., // the server has `had` of the `floor` rows: later
//!     Err(AgreeFault::Memory) => ..,
//! }
//! table.gather(&mut pass, mine);
//! ```
#![tactic(auto)]

mod asks;
mod drawn;
mod faults;
mod looks;
mod part;
mod pass;
mod passes;
mod placings;
mod prepared;
mod table;
mod tag;
mod under;
mod vault;

pub use agreed_rows::{Agreed, AnswerFault, Answered, answer};
pub use drawn::{Drawn, finish};
pub use faults::{AgreeFault, AskFault, Full};
pub use pass::Pass;
pub use prepared::{Prepared, prepare};
pub use table::Table;
pub use vault::Vault;
