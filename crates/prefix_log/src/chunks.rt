//! The cells of all places, by chunks of 64.
ghost use Rattle.std.specs.Prelude.{◌≡◌, ◌+◌, ◌-◌, ◌*◌, ◌/◌, ◌%◌, ◌<◌, ◌≤◌, IfOk, OnOk, OnErr, drop, length, map, reverse, vec_capacity, All};
ghost use Rattle.std.specs.Arc.{arc_value};
ghost use Rattle.onehot_column.specs.Piece.{HasWidths};
ghost use Rattle.scan_chunks.specs.Pieces.{chunks_of};
ghost use Rattle.table_schema.specs.Widths.{Holds};
ghost use Rattle.prefix_log.specs.Bulk.{HasPieces, IsFree};
ghost use Rattle.prefix_log.specs.Chunks.{AreFirst, HasRoom, HaveRows, HavePlaces, PlaceWritten, chunk_at};

use crate::bulk::{Entry, fill_lists};
use crate::chunk::Chunk;
use onehot_column::Piece;
use ring128::Memory;
use std::alloc::Global;
use std::marker::Model;
use std::sync::Arc;
use std::thread::Threads;
use table_schema::Widths;

// The first chunks are sealed: they are shared with snapshots and stay as they are. The others are not sealed yet, the last one
// first, so that the next one to be sealed is at the end.
#[derive(Drop)]
pub(crate) struct Chunks {
    sealed: Vec<Arc<Chunk>>,
    unsealed: Vec<Chunk>,
}

impl Model for Chunks {
    ghost use Rattle.std.specs.Prelude.{◌+◌, ◌≤◌, ◌++◌, length, map, reverse, vec_capacity};
    ghost use Rattle.std.specs.Arc.{arc_value};
    ghost use Rattle.prefix_log.specs.Chunks.{Store};

    ghost Value = { Store };

    ghost view = { λ s. record { sealed = length s.sealed.items; chunks = map arc_value s.sealed.items ++ reverse s.unsealed.items } };

    ghost invariant = { λ s. length s.sealed.items + length s.unsealed.items ≤ vec_capacity s.sealed };
}

impl Chunks {
    // No rows, with room for `capacity` rows. All memory that pieces will ever want is taken here.
    pub fn new(alloc: Global, widths: &Widths, capacity: u32) -> Result<Chunks, Memory>
        requires { capacity ≤ 65536 }
        ensures sealed { IfOk result (λ s. s.sealed ≡ 0) }
        ensures places { IfOk result (λ s. HavePlaces widths.now capacity s.chunks) }
    {
        let count = capacity.div_ceil(64);
        let mut unsealed = free_chunks(alloc, widths, capacity, count)?;
        unsealed.as_mut_slice().reverse();
        Ok(Chunks {
            sealed: Vec::with_capacity(alloc, count as usize)?,
            unsealed,
        })
    }

    // Writes the cells of a piece at a place of a chunk that is not sealed. It takes no memory.
    pub fn write(&mut self, widths: &Widths, place: u64, piece: &Piece)
        requires unsealed { 64 * self.old.sealed ≤ place }
        requires there { place / 64 < length self.old.chunks }
        requires room { HasRoom widths.now (place % 64 + 1) (chunk_at self.old.chunks (place / 64)) }
        requires widths { HasWidths widths.now piece.now }
        ensures sealed { self.new.sealed ≡ self.old.sealed }
        ensures written { PlaceWritten widths.now place piece.now.cells.first piece.now.cells.second self.old.chunks self.new.chunks }
    {
        let behind = self.sealed.len() + self.unsealed.len() - 1 - (place / 64) as usize;
        self.unsealed[behind].write(widths, (place % 64) as usize, piece);
    }

    // Lets go of the first chunks. Where a snapshot shares one, it keeps it. Nothing is copied.
    pub fn let_go(&mut self, count: usize)
        requires { count ≤ length self.old.chunks }
        ensures chunks { self.new.chunks ≡ drop count self.old.chunks }
        ensures sealed { self.new.sealed ≡ self.old.sealed - count }
    {
        let sealed = count.min(self.sealed.len());
        drop_first(&mut self.sealed, sealed);
        self.unsealed
            .truncate(self.unsealed.len() - (count - sealed));
    }

    // Seals chunks until `count` are. No cell is copied. Out of memory some of them may be sealed.
    pub fn seal(&mut self, alloc: Global, count: u64) -> Result<(), Memory>
        requires more { self.old.sealed ≤ count }
        requires there { count ≤ length self.old.chunks }
        ensures chunks { self.new.chunks ≡ self.old.chunks }
        ensures sealed { self.new.sealed ≤ count }
        ensures all { OnOk result (self.new.sealed ≡ count) }
    {
        for _ in self.count()..count {
            self.seal_next(alloc)?;
        }
        Ok(())
    }

    // How many chunks are sealed.
    fn count(&self) -> u64
        ensures { result ≡ self.now.sealed }
    {
        self.sealed.len() as u64
    }

    // Moves the next chunk into shared memory.
    fn seal_next(&mut self, alloc: Global) -> Result<(), Memory>
        requires { self.old.sealed < length self.old.chunks }
        ensures chunks { self.new.chunks ≡ self.old.chunks }
        ensures ok { OnOk result (self.new.sealed ≡ self.old.sealed + 1) }
        ensures err { OnErr result (self.new.sealed ≡ self.old.sealed) }
    {
        match Arc::new(alloc, self.unsealed.take_last()) {
            Ok(chunk) => {
                self.sealed.push_reserved(chunk);
                Ok(())
            }
            Err(failed) => {
                self.unsealed.push_reserved(failed.value);
                Err(Memory)
            }
        }
    }

    // The first rows: the sealed chunks, which are shared, and a copy of the rows that are left.
    pub fn first(
        &self,
        alloc: Global,
        widths: &Widths,
        rows: u64,
    ) -> Result<Vec<Arc<Chunk>>, Memory>
        requires sealed { self.now.sealed ≡ rows / 64 }
        requires there { HaveRows widths.now rows self.now.chunks }
        ensures { IfOk result (λ c. AreFirst widths.now rows self.now.chunks (map arc_value c.items)) }
    {
        let mut chunks = shared(alloc, &self.sealed, self.sealed.len() + 1)?;
        let left = (rows % 64) as usize;
        if left > 0 {
            let next = &self.unsealed[self.unsealed.len() - 1];
            chunks.push(Arc::new(alloc, next.copy(alloc, widths, left)?)?)?;
        }
        Ok(chunks)
    }
}

// Chunks with room for `capacity` rows, one behind another in memory, as scans go over them.
fn free_chunks(
    alloc: Global,
    widths: &Widths,
    capacity: u32,
    count: u32,
) -> Result<Vec<Chunk>, Memory>
    requires few { capacity ≤ 65536 }
    requires count { count ≡ chunks_of capacity }
    ensures { IfOk result (λ c. HavePlaces widths.now capacity c.items) }
{
    let mut chunks = Vec::with_capacity(alloc, count as usize)?;
    for c in 0..count {
        let rows = 64.min(capacity - 64 * c) as usize;
        chunks.push(Chunk::new(alloc, widths, rows)?)?;
    }
    Ok(chunks)
}

// The same chunks once more, with room for `room` chunks. Nothing is copied.
pub(crate) fn shared(
    alloc: Global,
    chunks: &[Arc<Chunk>],
    room: usize,
) -> Result<Vec<Arc<Chunk>>, Memory>
    ensures { IfOk result (λ c. map arc_value c.items ≡ map arc_value chunks.now) }
{
    let mut again = Vec::with_capacity(alloc, room)?;
    for chunk in chunks {
        again.push(Arc::try_clone(chunk)?)?;
    }
    Ok(again)
}

// Drops the first chunks.
pub(crate) fn drop_first(chunks: &mut Vec<Arc<Chunk>>, count: usize)
    requires { count ≤ length chunks.old.items }
    ensures items { chunks.new.items ≡ drop count chunks.old.items }
    ensures room { vec_capacity chunks.new ≡ vec_capacity chunks.old }
{
    chunks.rotate_left(count);
    chunks.truncate(chunks.len() - count);
}

// Writes the pieces of as many rows as there are places into the chunks of three servers, by `workers` threads. The only error is
// out of memory.
pub(crate) fn fill_three<R: Threads + Sync>(
    rt: &R,
    alloc: Global,
    widths: &Widths,
    entries: &[Entry],
    workers: usize,
    zero: &mut Chunks,
    one: &mut Chunks,
    two: &mut Chunks,
) -> Result<(), Memory>
    requires some { 0 < workers }
    requires held { All (λ e. Holds widths.now e.row) entries.now }
    requires small { length entries.now ≤ 65536 }
    requires zero { IsFree widths.now (length entries.now) zero.old }
    requires one { IsFree widths.now (length entries.now) one.old }
    requires two { IsFree widths.now (length entries.now) two.old }
    ensures zero { IsFree widths.now (length entries.now) zero.new }
    ensures one { IsFree widths.now (length entries.now) one.new }
    ensures two { IsFree widths.now (length entries.now) two.new }
    ensures zero_pieces { OnOk result (HasPieces widths.now 0 entries.now zero.new.chunks) }
    ensures one_pieces { OnOk result (HasPieces widths.now 1 entries.now one.new.chunks) }
    ensures two_pieces { OnOk result (HasPieces widths.now 2 entries.now two.new.chunks) }
{
    fill_lists(
        rt,
        alloc,
        widths,
        entries,
        workers,
        &mut zero.unsealed,
        &mut one.unsealed,
        &mut two.unsealed,
    )
}
