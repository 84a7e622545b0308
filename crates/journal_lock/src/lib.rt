//! A lock round a value that keeps a journal, whose atomic word counts the journal's entries. Whoever takes the value
//! sees its whole journal, which begins with all that the seat had seen, and gives it back with one entry more at most.
//!
//! It never hands the value to two seats, never loses an entry, and never lets a value go that is not given back. It says
//! nothing of time: that a `take` returns, or in which order seats come to the value.
//!
//! ```text
//! let (lock, mut seat) = JournalLock::new(alloc, notebook)?;
//! let mut theirs = lock.split(&mut seat);                   // for another thread
//!
//! let mut held = lock.take(rt, &mut seat);                  // waits
//! let written = held.value_mut().write(5);                  // one entry more, or none
//! lock.give(&mut seat, held);                               // before any `?`
//! written?;
//!
//! if let Some(held) = lock.try_take(&mut theirs) {          // None: at that moment another seat had the value
//!     println!(rt; "{} entries", held.value().count())?;
//!     lock.give(&mut theirs, held);
//! }
//! lock.join(&mut seat, theirs);
//! ```
//!
//! Take no `?` between `take` and `give`: a `Held` that a function would let go does not compile.
#![tactic(auto)]

mod held;
mod journaled;
mod knows;
mod lock;
mod rule;
mod seat;
mod steps;

pub use held::Held;
pub use journaled::Journaled;
pub use lock::JournalLock;
pub use seat::Seat;

#[cfg(test)]
mod tests;
