//! Scans over shelves of shared rows: each row's dot products with two tables, chunk by chunk.
//!
//! A shelf keeps the pieces of consecutive rows column by column and lends them in chunks of 64 rows; it notes which
//! chunk of which column it lent. A scan visits each chunk of its column once, rising, whatever the numbers are.
//!
//! ```text
//! use scan_chunks::{Tables, scan_one};
//!
//! // A number a row: the firsts of the row's cells with one table, its seconds with the other.
//! let bits = scan_one(alloc, &mut shelf, 0, &Tables { zero, one })?;
//! let values = read_column(alloc, &mut shelf, 1)?; // the value's column, the last one
//! ```
#![tactic(auto)]

mod column;
pub mod laws;
mod many;
mod owned;
mod read;
mod scan;
mod shelf;
mod tables;
mod visit;

pub use column::Column;
pub use many::scan_many;
pub use owned::OwnedShelf;
pub use read::read_column;
pub use scan::{row, scan_one};
pub use shelf::{Lent, Shelf};
pub use tables::Tables;
pub use visit::Visit;

#[cfg(test)]
mod tests;
