//! What is noted of the visits of a step.
ghost use Rattle.std.specs.Prelude.{◌≡◌, ◌≤◌, [], length};
ghost use Rattle.scan_chunks.specs.Pieces.{chunks_of};
ghost use Rattle.table_schema.specs.declared.shapes.Aggregate.TheVariants.{Sum};
ghost use Rattle.visit_trace.specs.Seen.{GrewBy, only_at};
ghost use Rattle.server_rounds.specs.Noted.{values_last};
ghost use Rattle.server_rounds.specs.Visits.{HaveVisits, last_visits, servers_last, shelves_last};

use crate::plan::Plan;
use crate::servers::Servers;
use ring128::Memory;
use scan_chunks::{Shelf, Visit};
use table_schema::Aggregate;
use visit_trace::Trace;

// The visits that a shelf had last, as many as it has chunks.
fn last_visits<S: Shelf>(shelf: &S) -> &[Visit]
    requires { chunks_of (S.held shelf.now).rows ≤ length (S.visited shelf.now) }
    ensures { result.now ≡ last_visits (S.held shelf.now) (S.visited shelf.now) }
{
    let chunks = shelf.rows().div_ceil(64) as usize;
    let visits = shelf.visits();
    &visits[visits.len() - chunks..]
}

// Notes those of a server's shelves.
fn note_shelves<S: Shelf>(trace: &mut Trace, server: u8, shelves: &[S]) -> Result<(), Memory>
    requires { HaveVisits S.held S.visited shelves.now }
    ensures { GrewBy trace.old trace.new (only_at server
        (record { visits = shelves_last S.held S.visited shelves.now; lengths = [] })) result }
{
    for shelf in shelves {
        trace.note_visits(server, last_visits(shelf))?;
    }
    Ok(())
}

/// Notes at each server the visits that its shelves had last, one for each chunk.
pub fn note_last<S: Shelf>(trace: &mut Trace, shelves: &Servers<S>) -> Result<(), Memory>
    requires zero { HaveVisits S.held S.visited shelves.now.zero.items }
    requires one { HaveVisits S.held S.visited shelves.now.one.items }
    requires two { HaveVisits S.held S.visited shelves.now.two.items }
    ensures { GrewBy trace.old trace.new (servers_last S.held S.visited shelves.now) result }
{
    note_shelves(trace, 0, shelves.zero.as_slice())?;
    note_shelves(trace, 1, shelves.one.as_slice())?;
    note_shelves(trace, 2, shelves.two.as_slice())
}

/// The same for an opening, which visits the values where they are summed, and nothing where rows are counted.
pub(crate) fn note_values<S: Shelf>(
    trace: &mut Trace,
    plan: &Plan,
    shelves: &Servers<S>,
) -> Result<(), Memory>
    requires zero { plan.now.shape.aggregate ≡ Sum → HaveVisits S.held S.visited shelves.now.zero.items }
    requires one { plan.now.shape.aggregate ≡ Sum → HaveVisits S.held S.visited shelves.now.one.items }
    requires two { plan.now.shape.aggregate ≡ Sum → HaveVisits S.held S.visited shelves.now.two.items }
    ensures { GrewBy trace.old trace.new (values_last plan.now.shape.aggregate (servers_last S.held S.visited shelves.now)) result }
{
    match plan.aggregate() {
        Aggregate::Count => Ok(()),
        Aggregate::Sum => note_last(trace, shelves),
    }
}
