//! The jobs of writers, a thread each.
ghost use Rattle.std.specs.Prelude.{◌≡◌, ℕ, ◌≤◌, ◌<◌, [], All, length, slice_index_or};
ghost use Rattle.table_schema.specs.Widths.{Holds};
ghost use Rattle.race_play.specs.Jobs.{IsDone, IsReady};
ghost use Rattle.race_play.specs.declared.jobs.WriterJob.{WriterJob};

use crate::gate::Gate;
use crate::write::{Written, write_rows};
use prg_chacha::Seed;
use std::alloc::Global;
use std::sync::Wait;
use std::thread;
use std::thread::Threads;
use table_schema::Row;
use waldo_table::{Pass, Table};

/// A writer with its number and its pass, and what it wrote once its thread has run. `written` is None until then, and stays None
/// where the thread was out of memory.
#[derive(Drop)]
pub struct WriterJob {
    pub number: u8,
    pub pass: Pass,
    pub written: Option<Written>,
}

// Does one job.
fn work<R: Wait, G: Gate>(
    rt: &R,
    alloc: Global,
    table: &Table,
    rows: &[Row],
    writers: u8,
    master: &Seed,
    gate: &G,
    job: &mut WriterJob,
)
    requires held { All (Holds table.now.widths) rows.now }
    requires few { length rows.now ≤ 65536 }
    requires ready { IsReady table.now (length rows.now) writers job.old }
    ensures done { IsDone table.now rows.now master.now writers job.new }
    ensures number { job.new.number ≡ job.old.number }
{
    let WriterJob {
        number,
        pass,
        written,
    } = job;
    *written = write_rows(rt, alloc, table, pass, rows, *number, writers, master, gate).ok();
    pass.floor();
}

/// Does each job in a thread of its own, and waits for all.
pub fn run_writers<R: Threads + Wait + Sync, G: Gate + Sync>(
    rt: &R,
    alloc: Global,
    table: &Table,
    rows: &[Row],
    writers: u8,
    master: &Seed,
    gate: &G,
    jobs: &mut [WriterJob],
)
    requires held { All (Holds table.now.widths) rows.now }
    requires few { length rows.now ≤ 65536 }
    requires ready { All (IsReady table.now (length rows.now) writers) jobs.old }
    ensures done { All (IsDone table.now rows.now master.now writers) jobs.new }
    ensures numbers { (i : ℕ) (d : WriterJob) → i < length jobs.old
        → (slice_index_or jobs.new i d).number ≡ (slice_index_or jobs.old i d).number }
    ensures long { length jobs.new ≡ length jobs.old }
{
    thread::for_each_mut(
        rt,
        jobs,
        16,
        &|_, job| {
            work(rt, alloc, table, rows, writers, master, gate, job);
        },
    );
}
