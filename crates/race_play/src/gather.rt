//! What the writers' jobs come to together.
ghost use Rattle.std.specs.Prelude.{◌≡◌, ℕ, ◌≤◌, ◌+◌, [], All, IfOk, List, length, map, slice_index_or};
ghost use Rattle.list_facts.specs.Count.{once_below, times};
ghost use Rattle.report_lines.specs.declared.lines.Line.{Line};
ghost use Rattle.ticket_place.specs.Sights.{IsSound};
ghost use Rattle.waldo_table.specs.Tables.{Grows, IsOf};
ghost use Rattle.race_play.specs.Filled.{filled, filled_all};
ghost use Rattle.race_play.specs.Gathers.{IsAll, places_in};
ghost use Rattle.race_play.specs.Jobs.{AreNumbered, HaveEnded, IsDone};
ghost use Rattle.race_play.specs.Turns.{turns};

use crate::jobs::WriterJob;
use prg_chacha::Seed;
use report_lines::Line;
use ring128::Memory;
use std::alloc::Global;
use table_schema::Row;
use waldo_table::{Pass, Table};

/// The places of the writers' rows, a list for each writer, and a line for each.
#[derive(Drop)]
pub struct Gathered {
    pub places: Vec<Vec<u64>>,
    pub lines: Vec<Line>,
}

// Takes in one job.
fn take_in(
    table: &Table,
    pass: &mut Pass,
    job: WriterJob,
    gathered: &mut Gathered,
    rows: &[Row],
    writers: u8,
    master: &Seed,
) -> Result<(), Memory>
    requires pass { IsOf table.now pass.old }
    requires done { IsDone table.now rows.now master.now writers job }
    requires number { job.number ≡ length gathered.old.places.items }
    requires all { IsAll rows.now master.now writers pass.old gathered.old }
    ensures pass { IsOf table.now pass.new }
    ensures grows { Grows pass.old pass.new }
    ensures room { pass.old.sight.room ≤ pass.new.sight.room }
    ensures sound { IsSound pass.new.sight }
    ensures all { IfOk result (λ _. IsAll rows.now master.now writers pass.new gathered.new) }
    ensures long { IfOk result (λ _. length gathered.new.places.items ≡ length gathered.old.places.items + 1) }
{
    let WriterJob {
        number: _,
        pass: mine,
        written,
    } = job;
    table.gather(pass, mine);
    let Some(written) = written else {
        return Err(Memory);
    };
    gathered.places.push(written.places.into_vec())?;
    gathered.lines.push(written.line)?;
    Ok(())
}

/// Takes in all jobs, those of writers 0, 1 and so on, and their passes. The only error is out of memory, also of a job.
pub fn gather_all(
    alloc: Global,
    table: &Table,
    pass: &mut Pass,
    mut jobs: Vec<WriterJob>,
    rows: &[Row],
    writers: u8,
    master: &Seed,
) -> Result<Gathered, Memory>
    requires pass { IsOf table.now pass.old }
    requires done { All (IsDone table.now rows.now master.now writers) jobs.items }
    requires numbered { AreNumbered 0 jobs.items }
    requires own { pass.old.sight.own ≡ [] }
    ensures pass { IsOf table.now pass.new }
    ensures grows { Grows pass.old pass.new }
    ensures room { pass.old.sight.room ≤ pass.new.sight.room }
    ensures all { IfOk result (IsAll rows.now master.now writers pass.new) }
    ensures long { IfOk result (λ g. length g.places.items ≡ length jobs.items) }
{
    let mut gathered = Gathered {
        places: Vec::new(alloc),
        lines: Vec::new(alloc),
    };
    while !jobs.is_empty() {
        let job = jobs.remove(0);
        take_in(table, pass, job, &mut gathered, rows, writers, master)?;
    }
    Ok(gathered)
}
