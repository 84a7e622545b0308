//! Both runs of a query over three servers: the client sends each server its key message, the servers scan their shares of the
//! rows, multiply what they found and send each other masked shares, and the client adds up what it receives. Run 0 opens the
//! total and run 1 the weighted total. A query of P predicates has 3 + 12 P messages.
//!
//! The messages that it appends to a wire are a transcript as the crate `transcript` defines it, whatever the wire alters;
//! out of memory, they are the first ones of it. It never looks into a message that it only carries, and tests no total.
//! Which chunks of its shelves each server visits follows from the shape of the query and the number of the rows alone.
//!
//! A run goes from state to state, and no other order can be written: `Ready::bits`, `Bits::product`, then for each further
//! predicate `Product::bits` and `Bits::product`, and last `Product::reveal`. Shares, zero parts and products are those of Araki
//! et al. 2016; the tables come from keys of Boyle et al. 2016 and 2021.
//!
//! ```text
//! use server_rounds::{Servers, both_runs};
//!
//! let mut servers = Servers { zero, one, two };
//! let pair = both_runs(&rt, alloc, &mut servers, &keys, &mut wire, &mut trace)?;
//! // Where nothing was altered: pair.total is the answer, and pair.weighted is keys.key() times it.
//! ```
#![tactic(auto)]

mod at_once;
mod bits;
mod carry;
mod held;
mod keys;
mod noted;
mod opened;
mod part;
mod plan;
mod product;
mod ready;
mod rounds;
mod run;
mod servers;
mod shelves;
mod stretches;
mod sums;
mod values;
mod way;
mod zeros;

pub use at_once::{all_three, join_three};
pub use bits::Bits;
pub use carry::{Trio, carry_three};
pub use held::{Held, reshare};
pub use noted::note_last;
pub use opened::{Opened, OpenedPair};
pub use part::with_zeros;
pub use product::Product;
pub use ready::Ready;
pub use rounds::reshare_noted;
pub use run::{both_runs, run_products};
pub use servers::Servers;
pub use shelves::count_rows;
pub use way::Way;
