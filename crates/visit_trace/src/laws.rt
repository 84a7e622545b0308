//! What the definitions say together, as functions without effect.

ghost use Rattle.visit_trace.specs.Counts.{CountsFollow};

/// How many visits a trace has at each server, and how many words its messages have, are these numbers of the sizes.
pub fn counts_follow()
    ensures { CountsFollow }
{}
