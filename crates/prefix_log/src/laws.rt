//! What the definitions say together, as functions without effect.

ghost use Rattle.prefix_log.specs.Laws.{CutKeepsRows, FirstsStay, NoMarkNoStart, PrefixIsOne, SharingsGiveCells, SnapshotsKeepRows, StartIsWithin};

/// A journal has one prefix.
pub fn prefix_is_one()
    ensures { PrefixIsOne }
{}

/// Where no place is retired the start of a journal is 0.
pub fn no_mark_no_start()
    ensures { NoMarkNoStart }
{}

/// The start of a legal journal is a multiple of 64 and at most its prefix.
pub fn start_is_within()
    ensures { StartIsWithin }
{}

/// After any list of placings and retirements the journal is legal and has what they put there: each place once, in the
/// order of first placings, and a mark where the start rose. Each place that is not below the start has the first piece
/// that came to it, and those below have none.
pub fn firsts_stay()
    ensures { FirstsStay }
{}

/// Where the slots below a number have a server's pieces of rows that were split by seeds, the cells of these pieces
/// are the parts of the server's shares of the rows' codes.
pub fn sharings_give_cells()
    ensures { SharingsGiveCells }
{}

/// Where the slots below a number have a server's pieces of rows that were split by seeds, a snapshot of these slots
/// keeps these rows.
pub fn snapshots_keep_rows()
    ensures { SnapshotsKeepRows }
{}

/// A snapshot that keeps rows and is cut to rows from one to below another keeps these.
pub fn cut_keeps_rows()
    ensures { CutKeepsRows }
{}
