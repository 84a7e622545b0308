//! What the definitions say together, as functions without effect.

ghost use Rattle.key_tree.specs.Seeds.{DerivedAreSeeds};

/// Each seed that is drawn for other uses has eight words below 2^32.
pub fn derived_are_seeds()
    ensures { DerivedAreSeeds }
{}
