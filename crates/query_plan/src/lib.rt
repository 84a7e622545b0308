//! Queries, the text that names them, and the keys by which servers answer them.
#![tactic(auto)]

mod draft;
mod form;
mod group;
mod key;
mod keys;
pub mod laws;
mod message;
mod pair;
mod predicate;
mod query;
mod read;
mod server_keys;
mod weights;

pub use group::{GroupFault, GroupQuery, read_group};
pub use key::{KeyPair, PredicateKey};
pub use keys::{Keys, make_keys};
pub use message::{MessageFault, message_length, read_message};
pub use query::{Predicate, Query, QueryFault, QueryWhy, shape_of};
pub use read::read_query;
pub use server_keys::ServerKeys;
pub use weights::key_of;
