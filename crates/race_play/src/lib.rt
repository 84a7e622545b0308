//! Writers and askers of a table at once, each in a thread of its own, and what they print.
//!
//! [`race`] is the whole. It makes a table, gives each writer and each asker a pass of its own, runs them at once and waits for
//! them. Its report says how many rows there are, which row stands at each place, what each writer saw after its rows, what each
//! asker was answered round by round, and what each query comes to over all rows. [`write_rows`] is one writer, and [`ask_round`] one
//! round of an asker, each on a table and a pass that the caller lends.
//!
//! No order of the threads in time is promised, so two races over the same rows can print different reports. What each report is
//! stands in the contract of `race` as one relation, `Reports`. There is one printed order of the rows: each input row stands in
//! it once, and those of one writer stand as they were read. Every line is about first rows of that order; the number of rows of
//! an asker never falls; and an answer is the plain one where each of its messages was received as it was sent.
//!
//! ```text
//! let crew = Crew { writers: 2, askers: 1, rounds: 2, workers: 1 };
//! let setting = Race { widths, rows: &rows, queries: &queries, master, crew };
//! let ran = race(rt, alloc, &setting, &OpenGate, &mut wires)?; // a wire for each asker, or more
//! text(alloc, &ran.report)? // rows 2, place 0 row 1, place 1 row 0, back 0 rows 2, back 1 rows 1, ask 0.0 rows 1 count 0, ..
//! ```
#![tactic(auto)]

mod ask;
mod askers;
mod gate;
mod gather;
mod jobs;
pub mod laws;
mod lines;
mod order;
mod places;
mod play;
mod report;
mod round;
mod said;
mod setting;
mod together;
mod write;

pub use gate::{Gate, OpenGate, Point};
pub use places::Places;
pub use play::race;
pub use report::{Ran, any_altered};
pub use round::ask_round;
pub use setting::{Crew, Race};
pub use write::{Written, write_rows};
