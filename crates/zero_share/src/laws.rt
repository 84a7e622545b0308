//! What the definitions say together, as functions without effect.

ghost use Rattle.zero_share.specs.Laws.{PartsOfZero};

/// The parts of three servers at one counter add up to 0.
pub fn parts_of_zero()
    ensures { PartsOfZero }
{}
