//! Shares of numbers and of lists at three servers. A list is split into three lists that add up to it place
//! by place, modulo 2^128, and each server holds two of the three, so that any two servers hold all
//! (Araki et al. 2016).
//!
//! It never learns what the numbers mean, sends nothing, and picks no seed: the caller gives one for each list.
//!
//! ```text
//! let three = split(alloc, &[7, 9], &seed)?;
//! let p0 = three.pair(alloc, 0)?;
//! let p1 = three.pair(alloc, 1)?;
//! let p2 = three.pair(alloc, 2)?;
//! assert_eq!(reveal(p0.at(1), p1.at(1), p2.at(1)), 9);
//! ```
#![tactic(auto)]

pub mod laws;
mod pair;
mod pair_list;
mod three;

pub use pair::{Pair, add_pairs, reveal, scale_pair};
pub use pair_list::PairList;
pub use three::{Three, split};
