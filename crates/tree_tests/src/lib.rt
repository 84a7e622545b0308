//! Tests of trees over places, over public items alone.
#![tactic(auto)]

#[cfg(test)]
mod covers;
#[cfg(test)]
mod trees;
