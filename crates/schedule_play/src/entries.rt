//! The rows of a setting, each with its seed.
ghost use Rattle.std.specs.Prelude.{◌≡◌, ℕ, ◌<◌, ◌≤◌, ◌^◌, IfOk, length, map, slice_index_or};
ghost use Rattle.prg_chacha.specs.Prg.{derive_of};
ghost use Rattle.schedule_play.specs.Appended.{seeded_rows, unseeded};
ghost use Rattle.waldo_core.specs.InBulk.{pair_of};

use prefix_log::Entry;
use prg_chacha::{Seed, derive};
use ring128::Memory;
use std::alloc::Global;
use std::thread::{Threads, for_each_mut};
use table_schema::Row;

/// The rows with their seeds, which `workers` threads derive: row i has the master seed's for 1, 0 and i. The only error is out
/// of memory.
pub(crate) fn seeded<R: Threads + Sync>(
    rt: &R,
    alloc: Global,
    rows: &[Row],
    master: &Seed,
    workers: usize,
) -> Result<Vec<Entry>, Memory>
    requires some { 0 < workers }
    requires few { length rows.now ≤ 65536 }
    ensures pairs { IfOk result (λ entries. map pair_of entries.items ≡ seeded_rows master.now 0 rows.now) }
    ensures rows { IfOk result (λ entries. map (λ e. e.row) entries.items ≡ rows.now) }
{
    let mut entries = without_seeds(alloc, rows, master)?;
    seed_all(rt, master, workers, &mut entries);
    Ok(entries)
}

// The rows, each still with the master seed.
fn without_seeds(alloc: Global, rows: &[Row], master: &Seed) -> Result<Vec<Entry>, Memory>
    ensures { IfOk result (λ entries. entries.items ≡ map (unseeded master.now) rows.now) }
{
    let mut entries = Vec::with_capacity(alloc, rows.len())?;
    for row in rows {
        entries.push_reserved(Entry {
            row: *row,
            seed: *master,
        });
    }
    Ok(entries)
}

// Gives each entry its seed.
fn seed_all<R: Threads + Sync>(rt: &R, master: &Seed, workers: usize, entries: &mut Vec<Entry>)
    requires some { 0 < workers }
    requires few { length entries.old.items ≤ 65536 }
    ensures count { length entries.new.items ≡ length entries.old.items }
    ensures each { (i : ℕ) (d : Entry) → i < length entries.old.items
        → slice_index_or entries.new.items i d ≡ record (slice_index_or entries.old.items i d) { seed = derive_of master.now 1 0 i } }
{
    seed_each(rt, master, workers, entries.as_mut_slice());
}

// The same for a slice.
fn seed_each<R: Threads + Sync>(rt: &R, master: &Seed, workers: usize, entries: &mut [Entry])
    requires some { 0 < workers }
    requires few { length entries.old ≤ 65536 }
    ensures { (i : ℕ) (d : Entry) → i < length entries.old
        → slice_index_or entries.new i d ≡ record (slice_index_or entries.old i d) { seed = derive_of master.now 1 0 i } }
{
    for_each_mut(
        rt,
        entries,
        workers,
        &|i, entry| { seed_one(master, i, entry) },
    );
}

// Gives the entry of row i its seed.
fn seed_one(master: &Seed, i: usize, entry: &mut Entry)
    requires { i < 2 ^ 40 }
    ensures { entry.new ≡ record entry.old { seed = derive_of master.now 1 0 i } }
{
    entry.seed = derive(master, 1, 0, i as u64);
}
