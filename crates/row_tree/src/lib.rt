//! A tree over the places of rows. A node of height h and index j stands for the places from j * 2^h to (j + 1) * 2^h - 1, and its
//! list is the sum of the rows there. A range of places is cut into few nodes, so a count over it costs a server a few lists and
//! not a list a row.
//!
//! Each server has a tree of its shares of one column. For a count with one predicate it sums the lists of the nodes of the range,
//! puts its two key tables to the two sums, and sends the client one word: the dot product of a table and a sum is linear in the
//! rows. So a query has nine messages: three of keys, and in each of two runs three openings. Rows are shared as of Araki et al.
//! 2016, and the tables come from keys of Boyle et al. 2016 and 2021.
//!
//! The places are public. The predicate stays in the keys, and the rows in the shares.
#![tactic(auto)]

mod covering;
mod exchange;
mod growing;
pub mod laws;
mod node;
mod opening;
mod ranging;
mod running;
mod runs;
mod tree;

pub use covering::cover;
pub use exchange::TreePair;
pub use growing::add_shelves;
pub use node::Node;
pub use runs::{Trees, tree_runs};
pub use tree::RowTree;
