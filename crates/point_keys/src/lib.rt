//! Keys of a point function, after Boyle, Gilboa and Ishai (CCS 2016).
//!
//! [`generate`] makes two keys for a number `a` and a weight. The value of one key at `x` and the value
//! of the other add up to the weight where `x` is `a`, and to 0 everywhere else. That either key alone
//! hides `a` and the weight is the aim of the construction, and nothing here claims it.
//!
//! ```text
//! use point_keys::{generate, table, value};
//! use ring128::{Party, add};
//!
//! // Two bits, so numbers from 0 to 3; the weight 5 at 2.
//! let (first, second) = generate(alloc, 2, 2, 5, &root0, &root1)?;
//! let at_two = add(value(&first, Party::Zero, 2), value(&second, Party::One, 2)); // 5
//! let at_three = add(value(&first, Party::Zero, 3), value(&second, Party::One, 3)); // 0
//! let values = table(alloc, &first, Party::Zero)?; // its values at 0, 1, 2 and 3
//! ```
#![tactic(auto)]

mod key;
pub mod laws;
mod words;

pub use key::{PointKey, generate, table, value};
pub use key_tree::KeyFault;
pub use words::{from_words, length, read_words, to_words};
