//! From the bytes of an input to its rows. A source of bytes counts its faults; `read_all` takes all that it
//! has, within a bound, and `read_rows` turns the bytes into rows by `csv`, or names the first fault. No row
//! is kept of an input that has a fault, and no byte is read twice.
//!
//! ```text
//! /// The number of rows of a source, where all of it is good.
//! fn count<S: Source>(alloc: Global, schema: &Schema, source: &mut S) -> Option<usize> {
//!     let bytes = read_all(alloc, source).ok()?;
//!     let rows = read_rows(alloc, schema, schema.widths().largest(), &bytes).ok()?;
//!     Some(rows.len())
//! }
//! ```
#![tactic(auto)]

mod faults;
mod input;
mod read;
mod record;
mod records;
mod source;

pub use faults::RowFault;
pub use input::{LIMIT, ReadFault, read_all};
pub use read::read_rows;
pub use report_lines::RowWhy;
pub use source::{Failed, MemorySource, Source, SureSource};
