//! The columns of a table: the text that names them, the bucket that a column gives a raw number, how many
//! cells a table takes, and the shapes of rows and queries over it. It never reads a row or a query, and
//! holds no data of a table.
//!
//! ```text
//! /// How many rows a table may have, and the bucket of a host in its first column.
//! fn plan(alloc: Global, text: &str, host: u64) -> Result<(u32, Option<u8>), SchemaFault> {
//!     let schema = read_schema(alloc, text)?; // "host:4,time:8@1700000000/3600"
//!     let rows = schema.widths().largest();
//!     let _columns = schema.count(); // at least one
//!     Ok((rows, schema.bucket(0, host)))
//! }
//! ```
#![tactic(auto)]

mod faults;
mod names;
mod pieces;
mod read;
mod rows;
mod schema;
mod shapes;
mod widths;

pub use faults::{SchemaFault, SchemaWhy};
pub use names::Name;
pub use read::read_schema;
pub use rows::Row;
pub use schema::{Column, Schema};
pub use shapes::{Aggregate, Kind, Part, Shape};
pub use widths::Widths;
