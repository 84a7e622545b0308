//! Laws of the definitions, as functions without effect: the clause of each is the law.

ghost use Rattle.transcript.specs.Laws.{ColumnsSuffice, ProductsShared, TotalSeesColumns, RunsOpen, PairOpens, PiecesHold, PlainIsSmall};
ghost use Rattle.transcript.specs.Laws.{LengthsAreSizes, LengthsAreTrace, LengthsBeginTrace};
ghost use Rattle.transcript.specs.Shifts.{ShiftedOpen};

/// Where nothing was altered and the servers hold rows, they share the products of the bits, however the run ends.
pub fn products_shared()
    ensures { ProductsShared }
{}

/// The openings of a total rest on the pieces at the table's columns alone.
pub fn total_sees_columns()
    ensures { TotalSeesColumns }
{}

/// Where nothing was altered and the servers hold rows, a run opens its key times the plain answer.
pub fn runs_open()
    ensures { RunsOpen }
{}

/// Both runs open what is plain, where the weights of run 0 are 1: the total is the plain answer, and the weighted total the key
/// times it.
pub fn pair_opens()
    ensures { PairOpens }
{}

/// Where all altered messages have one server as their sender or receiver, a run opens the sum of the rows' chains under
/// the shifts of that server's messages.
pub fn shifted_open()
    ensures { ShiftedOpen }
{}

/// The plain answer of at most 65,536 rows that the widths hold has a size below 2^48.
pub fn plain_is_small()
    ensures { PlainIsSmall }
{}

/// How many words a message of a step has rests on the number of rows alone, whatever was altered.
pub fn lengths_are_sizes()
    ensures { LengthsAreSizes }
{}

/// Which lengths a server sees, of the messages of a query that it sends or receives, rests on the sizes alone, whatever was
/// altered: they are those of the trace.
pub fn lengths_are_trace()
    ensures { LengthsAreTrace }
{}

/// Of the first messages of a query a server sees the first lengths of the trace.
pub fn lengths_begin_trace()
    ensures { LengthsBeginTrace }
{}

/// Rows that were split among the servers by seeds are held by them, whatever the seeds.
pub fn pieces_hold()
    ensures { PiecesHold }
{}

/// For the messages of a query just those pieces count that stand at the table's columns.
pub fn columns_suffice()
    ensures { ColumnsSuffice }
{}
