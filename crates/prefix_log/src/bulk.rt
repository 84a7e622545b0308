//! Rows that come in bulk: each worker splits the rows of some chunks, straight into the chunks of the three servers.
ghost use Rattle.std.specs.Prelude.{◌≡◌, ℕ, ◌+◌, ◌*◌, ◌<◌, ◌≤◌, true, [], All};
ghost use Rattle.std.specs.Prelude.{OnOk, length, map, reverse, slice_index_or, vec_capacity, vec_len};
ghost use Rattle.prefix_log.specs.Bulk.{AreFilled, AreRows, Fills, HasPieces, HaveRoom, rows_here};
ghost use Rattle.prefix_log.specs.Chunks.{HasRoom, HavePlaces};
ghost use Rattle.table_schema.specs.Widths.{Holds};

use crate::chunk::Chunk;
use onehot_column::pieces;
use prg_chacha::Seed;
use ring128::Memory;
use std::alloc::Global;
use std::thread::{Threads, for_each_mut};
use table_schema::{Row, Widths};

/// A row, and the seed that splits it.
#[derive(Clone, Copy)]
pub struct Entry {
    pub row: Row,
    pub seed: Seed,
}

// The chunks of the three servers for the same places, and whether their rows were written.
#[derive(Drop)]
pub(crate) struct Trio {
    pub zero: Chunk,
    pub one: Chunk,
    pub two: Chunk,
    pub done: bool,
}

// Writes the pieces of rows into the chunks, from the first place on. The only error is out of memory.
fn write_rows(
    alloc: Global,
    widths: &Widths,
    entries: &[Entry],
    zero: &mut Chunk,
    one: &mut Chunk,
    two: &mut Chunk,
) -> Result<(), Memory>
    requires rows { AreRows widths.now entries.now }
    requires zero { HasRoom widths.now (length entries.now) zero.old }
    requires one { HasRoom widths.now (length entries.now) one.old }
    requires two { HasRoom widths.now (length entries.now) two.old }
    ensures zero { HasRoom widths.now (length entries.now) zero.new }
    ensures one { HasRoom widths.now (length entries.now) one.new }
    ensures two { HasRoom widths.now (length entries.now) two.new }
    ensures zero_rows { OnOk result (AreFilled widths.now 0 entries.now (length entries.now) zero.new) }
    ensures one_rows { OnOk result (AreFilled widths.now 1 entries.now (length entries.now) one.new) }
    ensures two_rows { OnOk result (AreFilled widths.now 2 entries.now (length entries.now) two.new) }
{
    for i in 0..entries.len() {
        let entry = entries[i];
        let pieces = pieces(alloc, widths, &entry.row, &entry.seed)?;
        zero.write(widths, i, &pieces.zero);
        one.write(widths, i, &pieces.one);
        two.write(widths, i, &pieces.two);
    }
    Ok(())
}

// The same for chunks that are one of three lists' each.
fn fill(alloc: Global, widths: &Widths, entries: &[Entry], trio: &mut Trio)
    requires rows { AreRows widths.now entries.now }
    requires room { HaveRoom widths.now (length entries.now) trio.old }
    ensures { Fills widths.now entries.now trio.old trio.new }
{
    let Trio { zero, one, two, .. } = trio;
    trio.done = write_rows(alloc, widths, entries, zero, one, two).is_ok();
}

// The entries of a chunk.
fn entries_of(entries: &[Entry], chunk: usize) -> &[Entry]
    requires there { 64 * chunk ≤ length entries.now }
    requires small { length entries.now ≤ 65536 }
    ensures value { result.now ≡ rows_here entries.now chunk }
    ensures few { length result.now ≤ 64 }
{
    let start = 64 * chunk;
    &entries[start..(start + 64).min(entries.len())]
}

// Fills each of the chunks, by `workers` threads: chunk j takes the entries from 64 * j on.
fn fill_all<R: Threads + Sync>(
    rt: &R,
    alloc: Global,
    widths: &Widths,
    entries: &[Entry],
    workers: usize,
    trios: &mut [Trio],
)
    requires some { 0 < workers }
    requires held { All (λ e. Holds widths.now e.row) entries.now }
    requires small { length entries.now ≤ 65536 }
    requires enough { 64 * length trios.old ≤ length entries.now + 63 }
    requires room { (j : ℕ) (d : Trio) → j < length trios.old
        → HaveRoom widths.now (length (rows_here entries.now j)) (slice_index_or trios.old j d) }
    ensures { (j : ℕ) (d : Trio) → j < length trios.old
        → Fills widths.now (rows_here entries.now j) (slice_index_or trios.old j d) (slice_index_or trios.new j d) }
{
    for_each_mut(
        rt,
        trios,
        workers,
        &|j, trio| { fill_at(alloc, widths, entries, j, trio) },
    );
}

// Fills chunk j.
fn fill_at(alloc: Global, widths: &Widths, entries: &[Entry], j: usize, trio: &mut Trio)
    requires there { 64 * j ≤ length entries.now }
    requires small { length entries.now ≤ 65536 }
    requires held { All (λ e. Holds widths.now e.row) entries.now }
    requires room { HaveRoom widths.now (length (rows_here entries.now j)) trio.old }
    ensures { Fills widths.now (rows_here entries.now j) trio.old trio.new }
{
    fill(alloc, widths, entries_of(entries, j), trio);
}

// Moves the chunks of three servers, of which each list has the last one first, into one list in order.
#[tactic(auto, using(crate::proofs::Filled::taken_more))]
fn take_trios(
    zero: &mut Vec<Chunk>,
    one: &mut Vec<Chunk>,
    two: &mut Vec<Chunk>,
    trios: &mut Vec<Trio>,
)
    requires one { vec_len one.old ≡ vec_len zero.old }
    requires two { vec_len two.old ≡ vec_len zero.old }
    requires none { trios.old.items ≡ [] }
    requires room { vec_len zero.old ≤ vec_capacity trios.old }
    ensures zero { map (λ t. t.zero) trios.new.items ≡ reverse zero.old.items }
    ensures one { map (λ t. t.one) trios.new.items ≡ reverse one.old.items }
    ensures two { map (λ t. t.two) trios.new.items ≡ reverse two.old.items }
    ensures zero_left { (zero.new.items ≡ []) × (vec_capacity zero.new ≡ vec_capacity zero.old) }
    ensures one_left { (one.new.items ≡ []) × (vec_capacity one.new ≡ vec_capacity one.old) }
    ensures two_left { (two.new.items ≡ []) × (vec_capacity two.new ≡ vec_capacity two.old) }
{
    for _i in 0..zero.len() {
        trios.push_reserved(Trio {
            zero: zero.take_last(),
            one: one.take_last(),
            two: two.take_last(),
            done: false,
        });
    }
}

// Moves the chunks back to where they came from.
fn give_back(
    trios: &mut Vec<Trio>,
    zero: &mut Vec<Chunk>,
    one: &mut Vec<Chunk>,
    two: &mut Vec<Chunk>,
)
    requires zero { (zero.old.items ≡ []) × (vec_len trios.old ≤ vec_capacity zero.old) }
    requires one { (one.old.items ≡ []) × (vec_len trios.old ≤ vec_capacity one.old) }
    requires two { (two.old.items ≡ []) × (vec_len trios.old ≤ vec_capacity two.old) }
    ensures zero { reverse zero.new.items ≡ map (λ t. t.zero) trios.old.items }
    ensures one { reverse one.new.items ≡ map (λ t. t.one) trios.old.items }
    ensures two { reverse two.new.items ≡ map (λ t. t.two) trios.old.items }
{
    for _i in 0..trios.len() {
        let trio = trios.take_last();
        zero.push_reserved(trio.zero);
        one.push_reserved(trio.one);
        two.push_reserved(trio.two);
    }
}

// Whether all were filled.
fn all_done(trios: &[Trio]) -> bool
    ensures { result ≡ true → (j : ℕ) (d : Trio) → j < length trios.now → (slice_index_or trios.now j d).done ≡ true }
{
    for trio in trios {
        if !trio.done {
            return false;
        }
    }
    true
}

// The same for all chunks of a list, and whether all were filled.
fn fill_vec<R: Threads + Sync>(
    rt: &R,
    alloc: Global,
    widths: &Widths,
    entries: &[Entry],
    workers: usize,
    trios: &mut Vec<Trio>,
) -> bool
    requires some { 0 < workers }
    requires held { All (λ e. Holds widths.now e.row) entries.now }
    requires small { length entries.now ≤ 65536 }
    requires enough { 64 * length trios.old.items ≤ length entries.now + 63 }
    requires room { (j : ℕ) (d : Trio) → j < length trios.old.items
        → HaveRoom widths.now (length (rows_here entries.now j)) (slice_index_or trios.old.items j d) }
    ensures each { (j : ℕ) (d : Trio) → j < length trios.old.items
        → Fills widths.now (rows_here entries.now j) (slice_index_or trios.old.items j d) (slice_index_or trios.new.items j d) }
    ensures count { length trios.new.items ≡ length trios.old.items }
    ensures done { result ≡ true → (j : ℕ) (d : Trio) → j < length trios.new.items → (slice_index_or trios.new.items j d).done ≡ true }
{
    fill_all(rt, alloc, widths, entries, workers, trios.as_mut_slice());
    all_done(trios.as_slice())
}

// Want of memory, unless it is done.
fn result_of(done: bool) -> Result<(), Memory>
    ensures { OnOk result (done ≡ true) }
{
    if done { Ok(()) } else { Err(Memory) }
}

// Writes the pieces of as many rows as there are places into the chunks of three servers, of which each list has the last one first.
pub(crate) fn fill_lists<R: Threads + Sync>(
    rt: &R,
    alloc: Global,
    widths: &Widths,
    entries: &[Entry],
    workers: usize,
    zero: &mut Vec<Chunk>,
    one: &mut Vec<Chunk>,
    two: &mut Vec<Chunk>,
) -> Result<(), Memory>
    requires some { 0 < workers }
    requires held { All (λ e. Holds widths.now e.row) entries.now }
    requires small { length entries.now ≤ 65536 }
    requires zero { HavePlaces widths.now (length entries.now) (reverse zero.old.items) }
    requires one { HavePlaces widths.now (length entries.now) (reverse one.old.items) }
    requires two { HavePlaces widths.now (length entries.now) (reverse two.old.items) }
    ensures zero { HavePlaces widths.now (length entries.now) (reverse zero.new.items) }
    ensures one { HavePlaces widths.now (length entries.now) (reverse one.new.items) }
    ensures two { HavePlaces widths.now (length entries.now) (reverse two.new.items) }
    ensures zero_pieces { OnOk result (HasPieces widths.now 0 entries.now (reverse zero.new.items)) }
    ensures one_pieces { OnOk result (HasPieces widths.now 1 entries.now (reverse one.new.items)) }
    ensures two_pieces { OnOk result (HasPieces widths.now 2 entries.now (reverse two.new.items)) }
{
    let mut trios = Vec::with_capacity(alloc, zero.len())?;
    take_trios(zero, one, two, &mut trios);
    let done = fill_vec(rt, alloc, widths, entries, workers, &mut trios);
    give_back(&mut trios, zero, one, two);
    result_of(done)
}
