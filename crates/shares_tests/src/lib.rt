//! Tests of shares, parts of zero, products and pieces, over public items alone.
#![tactic(auto)]

#[cfg(test)]
mod pieces;
#[cfg(test)]
mod products;
#[cfg(test)]
mod shares;
#[cfg(test)]
mod zeros;
