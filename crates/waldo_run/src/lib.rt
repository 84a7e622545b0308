//! The top call: command words and bytes in, one text and a status out.
//!
//! [`run_still`] reads the words, then the rows, which come from the source or are made, does the command's steps on the core of
//! three servers through 16 wires, and puts the whole report in one piece. Its contract is the program's: each answer's messages went
//! over its actor's wire word for word, the report is the replies of the core to the command's steps, a function of words, bytes and
//! what these messages opened, over an unaltered wire of words and bytes alone, and every other status has its cause. It never puts a
//! part of a report by itself, and reads nothing where the words are refused.
//!
//! `tree` plays no steps alone: it appends the rows, and asks its one query over trees of a column of them, in nine messages.
//!
//! `groups` asks its queries by the buckets of a column over these rows, one after another.
//!
//! [`run`] does the same and has `race` too, in which writers and askers work at once. What a race prints is no function of words and
//! bytes, so its clause says which reports may come with the messages that went over the wires.
//!
//! ```text
//! let mut source = MemorySource::new(alloc, b"host,value\n3,10\n", &[])?;
//! let mut sink = MemorySink::new(alloc, 100, &[])?;
//! let status = run_still(&rt, alloc, &words, &mut source, &mut sink, &mut wires); // ask host:2 --query "count host=3"
//! // status is 0, and the sink has "ask 0 rows 1 count 1\n"
//! ```
#![tactic(auto)]

mod finish;
mod groups;
mod made;
mod race;
mod refusals;
mod reply;
mod seen;
mod still;
mod tamper;
mod task;
mod top;
mod trace;
mod tree;
mod words;

pub use race_play::{Gate, OpenGate, Places, Point, Written, ask_round, write_rows};
pub use still::run_still;
pub use top::run;
