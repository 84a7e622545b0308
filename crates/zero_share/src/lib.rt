//! Parts of zero: numbers that three servers make, each by itself, and that add up to 0 modulo 2^128. A server
//! adds its part to a word before the word leaves it, and the sum of the three servers' words stays what it was
//! (Araki et al. 2016).
//!
//! It never says which counter is next: a counter used twice with the same seeds gives the same part twice.
//!
//! ```text
//! let zero = ZeroSeeds { own: z0, next: z1 };
//! zero.add_parts(start, &mut words);
//! send(&words);
//! ```
#![tactic(auto)]

pub mod laws;
mod seeds;
mod three;

pub use seeds::ZeroSeeds;
pub use three::add_parts_of_three;
