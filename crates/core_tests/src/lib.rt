//! Tests of the core as a machine and of schedules on it, over public items alone.
#![tactic(auto)]

#[cfg(test)]
mod events;
#[cfg(test)]
mod schedules;
