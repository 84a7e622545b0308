//! Tests of totals by the buckets of a column, over public items alone.
#![tactic(auto)]

#[cfg(test)]
mod agreed;
#[cfg(test)]
mod groups;
