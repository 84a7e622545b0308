//! What a server can see of a query: which chunks of which columns it visits, and how long the messages are that it sends or
//! receives, each in order. A trace holds this for the three servers, the visits as runs of chunks. It follows from the number of
//! rows, the widths of the columns and the shape of the query alone: no value, bound or seed is in it.
//!
//! ```text
//! use visit_trace::{Sizes, Trace, expected, same};
//!
//! let mut trace = Trace::new(alloc);
//! let pair = both_runs(&rt, alloc, &mut servers, &keys, &mut wire, &mut trace)?;
//! let wanted = expected(alloc, &Sizes { rows, widths, shape })?;
//! let _always = same(&trace, &wanted); // whatever the query asked for and the rows hold
//! ```
#![tactic(auto)]

mod ahead;
pub mod laws;
mod run;
mod runs;
mod sizes;
mod trace;
mod visits;

pub use ahead::expected;
pub use sizes::Sizes;
pub use trace::{Trace, same};
pub use visits::Visits;
