//! Tests of both runs of a query over three servers, and of what the servers see of them, over public items alone.
#![tactic(auto)]

#[cfg(test)]
mod queries;
#[cfg(test)]
mod traces;
