//! Tests of writers and askers at once, over public items alone.
#![tactic(auto)]

#[cfg(test)]
mod calls;
#[cfg(test)]
mod lent;
#[cfg(test)]
mod races;
#[cfg(test)]
mod seen;
