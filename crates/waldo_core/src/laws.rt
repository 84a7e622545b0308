//! What the definitions say together, as functions without effect.

ghost use Rattle.prefix_log.specs.Journal.{PrefixIsLargest};
ghost use Rattle.waldo_core.specs.InBulk.{RowsLead};
ghost use Rattle.waldo_core.specs.Laws.{LegalStays};

/// The prefix of a journal is the largest number such that each place below it is there.
pub fn prefix_is_largest()
    ensures { PrefixIsLargest }
{}

/// A core in which nothing was drawn is legal, and every step keeps a legal core legal.
pub fn legal_stays()
    ensures { LegalStays }
{}

/// Rows that are appended one after another in a core in which nothing was drawn lead to the core that has them all.
pub fn rows_lead()
    ensures { RowsLead }
{}
