//! What the definitions say together, as functions without effect.

ghost use Rattle.schedule_play.specs.Laws.{AskedHonestly, AskedInOrder, AskedPlainly, PlainlyPlayed, SchedulesAlike, SeenAlike, SizesAlike};

/// Where rows are appended one after another and then asked each query, no step is without a case, and each query has one
/// line, over all rows, by what its answer opened.
pub fn asked_in_order()
    ensures { AskedInOrder }
{}

/// The same where nothing is altered: each line is the plain answer.
pub fn asked_plainly()
    ensures { AskedPlainly }
{
    transcript::laws::plain_is_small();
}

/// A query whose messages were received as they were sent has its plain answer in its line, whatever was altered in the others.
pub fn asked_honestly()
    ensures { AskedHonestly }
{
    transcript::laws::plain_is_small();
    asked_in_order();
}

/// Steps each of whose answers opened the plain one come to what they come to plainly.
pub fn plainly_played()
    ensures { PlainlyPlayed }
{}

/// Lists of queries of equal shapes, over as many rows of the same widths, give each server the same visits and the same lengths of
/// messages: whatever the bounds of the queries are, what the rows hold, the seeds, and what was altered.
pub fn seen_alike()
    ensures { SeenAlike }
{}

/// Schedules of the same steps, over as many rows of the same widths and with queries of equal shapes, have answers of the same sizes,
/// and give each server the same visits and the same lengths of messages: whatever the bounds of the queries are, what the rows hold,
/// the seeds, and what was altered.
pub fn schedules_alike()
    ensures sizes { SizesAlike }
    ensures seen { SchedulesAlike }
{}
