ghost use Rattle.std.specs.Prelude.{◌≡◌, ℕ, ◌+◌, ◌<◌, ◌≤◌, false, nat_lt, if◌then◌else◌, All, IfOk};
ghost use Rattle.std.specs.Prelude.{OnErr, OnOk, [], drop, length, slice_index_or, take, vec_capacity};
ghost use Rattle.std.specs.List.{range_with_len};
ghost use Rattle.table_schema.specs.Widths.{Fits, Holds, column_bits};
ghost use Rattle.prefix_log.specs.Bulk.{TakesRows};
ghost use Rattle.prefix_log.specs.Journal.{IsPrefixOf, start as start_in};
ghost use Rattle.prefix_log.specs.Logs.{IsLog, IsOwn, empty_log, placed, retired};
ghost use Rattle.prefix_log.specs.Snapshots.{HoldsPieces, pieces_in};
ghost use Rattle.prefix_log.specs.Starts.{start_of};

use crate::bulk::Entry;
use crate::chunks::{Chunks, fill_three};
use crate::journal::first_gap;
use crate::snapshot::Snapshot;
use crate::tag::LogTag;
use journal_lock::Journaled;
use onehot_column::Piece;
use ring128::Memory;
use scan_chunks::Shelf;
use std::alloc::Global;
use std::marker::Model;
use std::thread::Threads;
use table_schema::Widths;

// Entries of a journal from this number on are marks: a start was added to it.
const MARK: u64 = 4_294_967_296;

/// What a server has of a table: the pieces that came to its places, and the order in which the places were filled and retired.
///
/// Contracts see it as its server, the widths and the capacity that it was made with, the journal, and the slots, at
/// each place that is not retired the piece that came there first.
#[derive(Drop)]
pub struct ServerLog {
    server: u8,
    widths: Widths,
    capacity: u32,
    journal: Vec<u64>,
    filled: Vec<bool>,
    chunks: Chunks,
    prefix: u64,
    start: u64,
}

impl Model for ServerLog {
    ghost use Rattle.std.specs.Prelude.{◌-◌, drop, vec_capacity};
    ghost use Rattle.prefix_log.specs.Chunks.{IsStored};
    ghost use Rattle.prefix_log.specs.Logs.{Log, IsKept, log_of};

    ghost Value = { Log };

    ghost view = { λ s. log_of s.server s.widths s.capacity s.journal.items s.start s.filled.items s.chunks.chunks };

    ghost invariant = { λ s. IsKept (vec_capacity s.journal) s.prefix s.start s.filled.items
        (log_of s.server s.widths s.capacity s.journal.items s.start s.filled.items s.chunks.chunks)
        × IsStored s.widths (s.capacity - s.start) (s.prefix - s.start) (drop s.start s.filled.items) s.chunks };
}

impl Journaled for ServerLog {
    ghost use Rattle.prefix_log.specs.Logs.{log_tag};

    type Tag = LogTag;

    ghost journal = { λ log. log.journal };

    ghost tag = { log_tag };

    fn count(&self) -> u64 {
        self.journal.len() as u64
    }
}

impl ServerLog {
    /// A log without pieces. All memory that it will ever want is taken here, 32 bytes for each cell of its places among it;
    /// it is written as pieces come. The only error is out of memory.
    pub fn new(
        alloc: Global,
        server: u8,
        widths: &Widths,
        capacity: u32,
    ) -> Result<ServerLog, Memory>
        requires { Fits (column_bits widths.now) capacity }
        ensures { IfOk result (λ log. log ≡ empty_log server widths.now capacity) }
    {
        Ok(ServerLog {
            server,
            widths: *widths,
            capacity,
            journal: Vec::with_capacity(alloc, capacity as usize + capacity as usize / 64)?,
            filled: vec![in alloc; false; capacity as usize]?,
            chunks: Chunks::new(alloc, widths, capacity)?,
            prefix: 0,
            start: 0,
        })
    }

    /// Puts a piece at a place, if the place is free; the journal then gains the place at its end. A place that is in the
    /// journal, retired or not, stays as it is: nothing changes, and the new piece is dropped. It takes no memory.
    pub fn place(&mut self, place: u64, piece: Piece)
        requires below { place < self.old.capacity }
        requires own { IsOwn self.old.server self.old.widths piece }
        ensures placed { self.new ≡ placed self.old place piece }
        ensures server { self.new.server ≡ self.old.server }
        ensures widths { self.new.widths ≡ self.old.widths }
        ensures capacity { self.new.capacity ≡ self.old.capacity }
        ensures legal { IsLog self.new }
    {
        if self.filled[place as usize] {
            return;
        }
        self.chunks.write(&self.widths, place - self.start, &piece);
        self.filled[place as usize] = true;
        self.journal.push_reserved(place);
        self.prefix = first_gap(self.filled.as_slice(), self.prefix as usize) as u64;
    }

    /// Retires the places below a number, in whole chunks of 64 and none from the prefix on. Where the start rises by this,
    /// the journal gains its mark at its end, and the pieces below it are let go; a snapshot that has them keeps them. Else
    /// nothing changes. Returns the start. It takes no memory.
    pub fn retire(&mut self, before: u64) -> u64
        ensures retired { self.new ≡ retired self.old before }
        ensures start { result ≡ start_in self.new.journal }
        ensures server { self.new.server ≡ self.old.server }
        ensures widths { self.new.widths ≡ self.old.widths }
        ensures capacity { self.new.capacity ≡ self.old.capacity }
        ensures legal { IsLog self.new }
    {
        let start = 64 * (before.min(self.prefix) / 64);
        if start <= self.start {
            return self.start;
        }
        self.chunks.let_go((start - self.start) as usize / 64);
        self.journal.push_reserved(MARK + start);
        self.start = start;
        start
    }

    /// The first place that is not retired: a multiple of 64, and 0 where none is.
    pub fn start(&self) -> u64
        ensures value { result ≡ start_in self.now.journal }
        ensures legal { IsLog self.now }
    {
        self.start
    }

    /// What was done to the places, in that order: the entry of a place says that it was filled, and the entry
    /// 4,294,967,296 + s that the places below s were retired.
    pub fn journal(&self) -> &[u64]
        ensures { result.now ≡ self.now.journal }
    {
        self.journal.as_slice()
    }

    /// How many of the first places were filled: the largest number such that each place below it is in the journal.
    pub fn prefix(&self) -> u64
        ensures prefix { IsPrefixOf self.now.journal result }
        ensures legal { IsLog self.now }
    {
        self.prefix
    }

    /// A snapshot of the pieces at the places from the start to below the prefix, a row each, without visits yet. Its first
    /// chunk has the number 0. It shares the whole chunks with the log and copies the rest, fewer than 64 rows. The only
    /// error is out of memory; in every case the log stays.
    pub fn fix(&mut self, alloc: Global) -> Result<Snapshot, Memory>
        ensures stays { self.new ≡ self.old }
        ensures legal { IsLog self.old }
        ensures start { IfOk result (λ s. start_of s ≡ start_in self.old.journal) }
        ensures rows { IfOk result (λ s. IsPrefixOf self.old.journal (start_of s + (⟦<Snapshot as Shelf>⟧.held s).rows)) }
        ensures pieces { IfOk result (λ s. let h = ⟦<Snapshot as Shelf>⟧.held s in
            HoldsPieces self.old.widths (pieces_in (take h.rows (drop (start_of s) self.old.slots))) h) }
        ensures visits { IfOk result (λ s. ⟦<Snapshot as Shelf>⟧.visited s ≡ []) }
    {
        let rows = self.prefix - self.start;
        self.chunks.seal(alloc, rows / 64)?;
        let chunks = self.chunks.first(alloc, &self.widths, rows)?;
        Ok(Snapshot::new(alloc, self.widths, rows, 0, self.start, chunks))
    }
}

/// Puts the pieces of rows into the logs of servers 0, 1 and 2, by `workers` threads: row i at place i, split by its own seed. The logs
/// have no pieces yet, and as many places as there are rows. The only error is out of memory; the logs then stay without pieces.
pub fn append_rows<R: Threads + Sync>(
    rt: &R,
    alloc: Global,
    widths: &Widths,
    entries: &[Entry],
    workers: usize,
    zero: &mut ServerLog,
    one: &mut ServerLog,
    two: &mut ServerLog,
) -> Result<(), Memory>
    requires some { 0 < workers }
    requires small { length entries.now ≤ 65536 }
    requires held { All (λ e. Holds widths.now e.row) entries.now }
    requires zero { zero.old ≡ empty_log 0 widths.now (length entries.now) }
    requires one { one.old ≡ empty_log 1 widths.now (length entries.now) }
    requires two { two.old ≡ empty_log 2 widths.now (length entries.now) }
    ensures zero { OnOk result (TakesRows widths.now 0 entries.now zero.new) }
    ensures one { OnOk result (TakesRows widths.now 1 entries.now one.new) }
    ensures two { OnOk result (TakesRows widths.now 2 entries.now two.new) }
    ensures zero_stays { OnErr result (zero.new ≡ zero.old) }
    ensures one_stays { OnErr result (one.new ≡ one.old) }
    ensures two_stays { OnErr result (two.new ≡ two.old) }
{
    let result = fill_three(
        rt,
        alloc,
        widths,
        entries,
        workers,
        &mut zero.chunks,
        &mut one.chunks,
        &mut two.chunks,
    );
    let count = all_or_none(result.is_ok(), entries.len());
    mark(&mut zero.journal, &mut zero.filled, count);
    zero.prefix = count as u64;
    mark(&mut one.journal, &mut one.filled, count);
    one.prefix = count as u64;
    mark(&mut two.journal, &mut two.filled, count);
    two.prefix = count as u64;
    result
}

// Marks the first places as filled in their order, where none was.
fn mark(journal: &mut Vec<u64>, filled: &mut Vec<bool>, count: usize)
    requires none { journal.old.items ≡ [] }
    requires room { count ≤ vec_capacity journal.old }
    requires there { count ≤ length filled.old.items }
    requires few { count ≤ 65536 }
    requires free { (place : ℕ) → slice_index_or filled.old.items place false ≡ false }
    ensures journal { journal.new.items ≡ range_with_len 0 count }
    ensures room { vec_capacity journal.new ≡ vec_capacity journal.old }
    ensures length { length filled.new.items ≡ length filled.old.items }
    ensures filled { (place : ℕ) → slice_index_or filled.new.items place false ≡ nat_lt place count }
{
    for i in 0..count {
        journal.push_reserved(i as u64);
        filled[i] = true;
    }
}

// All, or none.
fn all_or_none(done: bool, all: usize) -> usize
    ensures { result ≡ (if done then all else 0) }
{
    if done { all } else { 0 }
}
