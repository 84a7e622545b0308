//! Command words: which command they say, over which table, with which queries, or the first of them that is bad.
//!
//! [`read_words`] gives what its definition gives, or `Memory`, and each command that it gives is legal: the capacity fits the
//! columns, and the queries suit them. It looks at nothing but the words, prints nothing, and refuses no command because the
//! program can't run it.
//!
//! ```text
//! /// How many queries the words ask.
//! fn count(alloc: Global, words: &[String]) -> Result<usize, WordFault> {
//!     match read_words(alloc, words)? { // ask host:2 --query "count host=3" --workers=4
//!         Command::Ask(common) => Ok(common.queries.len()),
//!         _ => Err(WordFault::Word { index: 0 }),
//!     }
//! }
//! ```
#![tactic(auto)]

mod amounts;
mod command;
mod faults;
mod finish;
mod found;
mod groups;
mod names;
mod numbers;
mod progress;
mod queries;
mod read;
mod schedule;
mod seeds;
mod shifts;
mod steps;
mod value;

pub use command::{Command, Common};
pub use faults::WordFault;
pub use groups::Groups;
pub use queries::Queries;
pub use read::read_words;
pub use report_lines::{Name, NameText};
pub use schedule::{Schedule, Step};
pub use shifts::{Amount, ShiftWord, ShiftWords};
