//! The lines of a report, their texts, and where a text goes: a sink of bytes that counts its faults. Each
//! line has one text, and a report's text is theirs, one after another. Nothing is put here: a caller makes
//! the whole text and gives it to a sink in one put.
//!
//! ```text
//! /// Says that the input could not be read.
//! fn say<K: Sink>(alloc: Global, sink: &mut K) -> Result<bool, Memory> {
//!     let mut report = Report::new(alloc);
//!     report.push(Line::ReadFault)?;
//!     let bytes = text(alloc, &report)?; // "waldo: read fault\n"
//!     Ok(sink.put(&bytes).is_ok())
//! }
//! ```
#![tactic(auto)]

mod lines;
mod names;
mod reports;
mod sink;

pub use lines::{Line, RowWhy, Who};
pub use names::{Name, NameText};
pub use reports::{Report, text};
pub use sink::{Failed, MemorySink, Sink, SureSink};
