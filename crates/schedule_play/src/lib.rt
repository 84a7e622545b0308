//! The steps of a command on a machine, the messages of its answers over the wires of their actors, and the report.
//!
//! A command comes down to a list of steps: `ask` appends each row as actor 0 and then fixes three times and answers for
//! each query; `replay` has its schedule. Each step is an event of the machine. The first step without a case ends the run.
//! The rows of `ask` are appended by the machine's workers in one call, which comes to what their steps come to.
//!
//! The contract of both calls is one fact, `Plays`: there is a history of the steps, in which each answer has the messages
//! of its query and the pair that they opened; each actor's wire carried just the messages of its answers; over a wire that
//! altered nothing each answer is the plain one; and the report is what these pairs give, or the first step without a case
//! has this number. Nothing here prints, and no step is known to the machine before those in front of it are done.
//!
//! ```text
//! use schedule_play::{PlayFault, Setting, replay};
//!
//! let setting = Setting { widths, rows: &rows, queries: &queries, master, workers: 1 };
//! match replay(&rt, alloc, &setting, schedule.as_slice(), &mut wires) { // d0 p0.0 p0.1 p0.2 f1 f1 f1 a1.0
//!     Ok(played) => text(alloc, &played.report)?, // draw 0 place 0, ask 1.0 rows 1 count 1
//!     Err(PlayFault::NotAllowed { index }) => .., // the step with this number has no case
//!     Err(PlayFault::Memory) => ..,
//! }
//! ```
#![tactic(auto)]

mod agreeing;
mod entries;
pub mod laws;
mod play;
mod progress;
mod setting;
mod steps;
mod style;

pub use agreeing::agree;
pub use play::{PlayFault, Played, ask, ask_over, replay};
pub use setting::Setting;
pub use style::Style;
