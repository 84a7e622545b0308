//! Keys of an interval: the weight at each number from a low end to a high end, and 0 elsewhere.
//!
//! A key is a pair of keys of "at most a" (crate `compare_keys`): its value is the value of the upper one,
//! whose end is the high end, minus that of the lower one, whose end is below the low end. An interval
//! from 0 has a lower key too, of weight 0, so that keys of one width have one length. That either key
//! alone hides the ends and the weight is the aim of the construction, and nothing here claims it.
//!
//! ```text
//! use interval_keys::{generate, value};
//! use ring128::{Party, add};
//!
//! // Two bits, so numbers from 0 to 3; the weight 5 at 1 and 2.
//! let (first, second) = generate(alloc, 2, 1, 2, 5, &roots)?;
//! let at_two = add(value(&first, Party::Zero, 2), value(&second, Party::One, 2)); // 5
//! let at_zero = add(value(&first, Party::Zero, 0), value(&second, Party::One, 0)); // 0
//! ```
#![tactic(auto)]

mod key;
pub mod laws;
mod words;

pub use key::{IntervalKey, generate, table, value};
pub use key_tree::KeyFault;
pub use words::{from_words, length, read_words, to_words};
