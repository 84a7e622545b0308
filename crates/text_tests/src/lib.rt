//! Tests of printed texts, inputs and command words, over public items alone.
#![tactic(auto)]

#[cfg(test)]
mod commands;
#[cfg(test)]
mod inputs;
#[cfg(test)]
mod reports;
