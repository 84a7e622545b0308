//! Counts of faults, which never fall and stand still at the end of their type. A source, a sink or a wire
//! that is handed in counts what went wrong with it, and a caller blames it only where its count rose.
//! The one call here raises such a count; nothing is ever counted down or set back.
//!
//! ```text
//! struct Line {
//!     faults: u64,
//! }
//!
//! impl Line {
//!     fn failed(&mut self)
//!         ensures { Rose self.old.faults self.new.faults }
//!     {
//!         self.faults = raised(self.faults);
//!     }
//! }
//! ```
#![tactic(auto)]

ghost use Rattle.std.specs.Prelude.{◌≡◌};
ghost use Rattle.fault_count.specs.Causes.{Rose, next};

/// The count after one fault more. At 2^64 - 1 it stands still, and counts as risen all the same.
pub fn raised(count: u64) -> u64
    ensures value { result ≡ next count }
    ensures rose { Rose count result }
{
    count.saturating_add(1)
}
