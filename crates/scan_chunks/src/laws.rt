//! Laws of the definitions, as functions without effect.

ghost use Rattle.scan_chunks.specs.Laws.{PartsScanAsWhole, PartsAreVisitedAsWhole};

/// Shelves whose rows are those of a whole one give its scan, however many they are.
pub fn parts_scan_as_whole()
    ensures { PartsScanAsWhole }
{}

/// Shelves that go on from one another are visited as a whole one of their rows.
pub fn parts_are_visited_as_whole()
    ensures { PartsAreVisitedAsWhole }
{}
