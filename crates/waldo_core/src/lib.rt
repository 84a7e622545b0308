//! The core as a machine: draws, placings, looks, fixes and answers of sixteen actors at three servers, one event at a
//! time.
//!
//! The machine plays the clients and the servers. It has the one order of draws, whose entries stand in the contracts alone,
//! and three server logs that hold pieces alone. Whatever the order of events, an answer over an unaltered wire is the plain count or
//! sum over the first rows of the order: as many as the least of the prefixes that the actor's three fixes found, and
//! no fewer than it had seen.
//!
//! ```text
//! let mut machine = Machine::new(alloc, widths, 4, 1)?;
//! machine.step(&rt, alloc, Event::Draw { actor: 0, row, seed }, &mut wire, &mut trace)?; // Drew { place: 0 }
//! for server in 0..3 {
//!     machine.step(&rt, alloc, Event::Place { actor: 0, server }, &mut wire, &mut trace)?; // Placed
//! }
//! for _ in 0..3 {
//!     machine.step(&rt, alloc, Event::Fix { actor: 1 }, &mut wire, &mut trace)?; // Fixed, Fixed, Agreed { rows: 1 }
//! }
//! machine.step(&rt, alloc, Event::Answer { actor: 1, query, seed }, &mut wire, &mut trace)?; // Answered { rows: 1, .. }
//! ```
#![tactic(auto)]

mod actor;
mod draw;
mod events;
pub mod laws;
mod logs;
mod machine;
mod order;
mod reply;
mod snapshots;

pub use events::{Event, Reply, StepFault};
pub use machine::Machine;
