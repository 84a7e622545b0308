//! How the texts of this project are read: cut at a byte, and numbers of digits. Beside these two stand the
//! definitions that every reader above cites: a chain of steps from the left whose first fault stands, and
//! the one clause of a reader, that it gives what its definition gives (`Reads`), or `memory` (`Gives`).
//! Nothing here takes memory, looks at characters or skips spaces.
//!
//! ```text
//! /// The number behind the first `=` of a text such as `rows=12`.
//! #[tactic(auto, unfolding(crate::specs::Size::size_of))]
//! fn size(text: &[u8]) -> Result<u64, Fault>
//!     ensures { Reads (λ n. n) result (size_of text.now) }
//! {
//!     let (name, after) = cut(text, b'=');
//!     if name != b"rows".as_slice() {
//!         return Err(Fault::Name);
//!     }
//!     let Some(digits) = after else {
//!         return Err(Fault::Missing);
//!     };
//!     number(digits).ok_or(Fault::Number)
//! }
//! ```
#![tactic(auto)]

mod cuts;
mod numbers;

pub use cuts::{count_pieces, cut, cut_last};
pub use numbers::number;
