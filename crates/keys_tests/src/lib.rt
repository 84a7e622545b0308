//! Tests of keys, queries and key messages, over public items alone.
#![tactic(auto)]

#[cfg(test)]
mod comparisons;
#[cfg(test)]
mod intervals;
#[cfg(test)]
mod messages;
#[cfg(test)]
mod points;
#[cfg(test)]
mod queries;
#[cfg(test)]
mod query_keys;
