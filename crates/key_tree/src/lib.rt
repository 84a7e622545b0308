//! The tree of seeds that function keys walk down, one level for each bit of the number that is asked
//! for, after Boyle, Gilboa and Ishai (CCS 2016).
//!
//! Two parties start at roots of their own. At each level a node has a child on either side, and a
//! correction that both parties hold. On the way to one chosen number their control bits stay apart.
//! Off that way their nodes are the same, so that what they draw there cancels out. This crate has what
//! keys of every kind share: nodes, corrections, the last word and how they are written as words. It does
//! not say what a key is for.
//!
//! ```text
//! use key_tree::{Level, Node, side_of};
//! use ring128::Party;
//!
//! let keep = side_of(5, 2); // the side of bit 2 of 5
//! let zero = Node::start(Party::Zero, &root0);
//! let one = Node::start(Party::One, &root1);
//! let level = Level::between(keep, &zero, &one); // for both parties
//! let (left, right) = zero.children(&level);
//! ```
#![tactic(auto)]

mod fault;
mod key_level;
mod key_words;
pub mod laws;
mod leaf;
mod level;
mod node;
mod side;
mod tree_key;

pub use fault::KeyFault;
pub use key_level::{KeyLevel, descend, write_values};
pub use key_words::{from_words, length, read_words, to_words};
pub use leaf::{last_word, of_party, signed};
pub use level::Level;
pub use node::Node;
pub use side::side_of;
pub use tree_key::{TreeKey, pair, table, value};
