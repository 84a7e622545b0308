//! Tests of the table that threads share and of answers over rows that were agreed on, over public items alone.
#![tactic(auto)]

#[cfg(test)]
mod agreements;
#[cfg(test)]
mod calls;
#[cfg(test)]
mod draws;
#[cfg(test)]
mod race;
#[cfg(test)]
mod snapshots;
