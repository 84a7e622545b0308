//! Totals by the buckets of a column: both runs of a query that end with an opening for each bucket, and their check, bucket by
//! bucket.
//!
//! A server adds up the cells of its rows as its shelves lend them, chunk by chunk, and keeps no copy of the column. Where each server
//! has several shelves, the three work side by side.
#![tactic(auto)]

mod at_once;
mod check;
pub mod laws;
mod part;
mod rounds;
mod run;
mod sums;

pub use check::{GroupAnswer, GroupAnswers, check_groups};
pub use run::{GroupTotals, group_runs};
