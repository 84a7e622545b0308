//! Tests of whole runs, from words and bytes to text and status, over public items alone.
#![tactic(auto)]

#[cfg(test)]
mod faults;
#[cfg(test)]
mod groups;
#[cfg(test)]
mod races;
#[cfg(test)]
mod rows;
#[cfg(test)]
mod runs;
#[cfg(test)]
mod tampers;
#[cfg(test)]
mod totals;
#[cfg(test)]
mod trees;
