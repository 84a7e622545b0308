//! Messages between the client and the three servers of one query, and the wires that carry them. A wire may alter the
//! words of a message and counts each time that it did; it never loses a message, never changes how long one is, and
//! never alters without counting.
//!
//! What a wire did over a call is one fact, `Went`: the messages that it carried stand at the end of its list, where it
//! reports one, and each was received as it was sent unless its count rose.
//!
//! ```text
//! fn ask_twice<W: Wire>(wire: &mut W, words: &mut [u128]) -> Result<(), Memory>
//!     ensures {
//!         (ms : List Message) × Went W.sight wire.old ms wire.new
//!         × OnOk result (length ms ≡ 2)
//!     }
//! {
//!     wire.carry(Peer::Client, Peer::Server0, words)?;
//!     wire.carry(Peer::Server0, Peer::Client, words)?;
//!     Ok(())
//! }
//! ```
#![tactic(auto)]

mod lent;
mod message;
mod record;
mod shift;
mod shifts;
mod straight;
mod wire;

pub use lent::LentWire;
pub use message::{Message, Peer};
pub use record::RecordWire;
pub use shift::ShiftWire;
pub use shifts::{Shift, Shifts};
pub use straight::StraightWire;
pub use wire::Wire;

#[cfg(test)]
mod tests;
