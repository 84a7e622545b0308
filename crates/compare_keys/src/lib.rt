//! Keys of "at most a", after Boyle et al. (Eurocrypt 2021), who treat the strict comparison.
//!
//! [`generate`] makes two keys for a number `a` and a weight. The value of one key at `x` and the value
//! of the other add up to the weight where `x` is at most `a`, and to 0 above. That either key alone hides
//! `a` and the weight is the aim of the construction, and nothing here claims it.
//!
//! ```text
//! use compare_keys::{generate, value};
//! use ring128::{Party, add};
//!
//! // Two bits, so numbers from 0 to 3; the weight 5 at 0 and 1.
//! let (first, second) = generate(alloc, 2, 1, 5, &root0, &root1)?;
//! let at_one = add(value(&first, Party::Zero, 1), value(&second, Party::One, 1)); // 5
//! let at_two = add(value(&first, Party::Zero, 2), value(&second, Party::One, 2)); // 0
//! ```
#![tactic(auto)]

mod key;
pub mod laws;
mod level;
mod tally;
mod words;

pub use key::{CompareKey, generate, table, value};
pub use key_tree::KeyFault;
pub use level::CompareLevel;
pub use tally::Tally;
pub use words::{from_words, length, read_words, to_words};
