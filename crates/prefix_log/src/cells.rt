//! The cells of a column of a chunk.
ghost use Rattle.std.specs.Prelude.{◌≡◌, ℕ, ◌+◌, ◌++◌, ◌<◌, ◌≤◌, IfOk, length, vec_capacity, slice_index, take};
ghost use Rattle.prefix_log.specs.Chunks.{HalvesWritten, IsWritten};

use ring128::Memory;
use std::alloc::Global;
use std::marker::Model;

// The firsts and the seconds of the cells of some rows at a column, row after row, with room for more.
#[derive(Drop)]
pub(crate) struct Cells {
    first: Vec<u128>,
    second: Vec<u128>,
}

impl Model for Cells {
    ghost use Rattle.std.specs.Prelude.{vec_capacity, min};
    ghost use Rattle.prefix_log.specs.Chunks.{Halves};

    ghost Value = { Halves };

    ghost view = { λ s. record {
      first = s.first.items;
      second = s.second.items;
      room = min (vec_capacity s.first) (vec_capacity s.second);
    } };
}

impl Cells {
    // No cells, with room for `room` of each.
    pub fn new(alloc: Global, room: usize) -> Result<Cells, Memory>
        ensures { IfOk result (λ c. room ≤ c.room) }
    {
        Ok(Cells {
            first: Vec::with_capacity(alloc, room)?,
            second: Vec::with_capacity(alloc, room)?,
        })
    }

    // Writes a row's cells at a place for which there is room. It takes no memory.
    pub fn write(&mut self, start: usize, first: &[u128], second: &[u128])
        requires first { start + length first.now ≤ self.old.room }
        requires second { start + length second.now ≤ self.old.room }
        ensures { HalvesWritten start first.now second.now self.old self.new }
    {
        write(&mut self.first, start, first);
        write(&mut self.second, start, second);
    }

    // The first of the firsts.
    pub fn firsts(&self, count: usize) -> &[u128]
        requires { count ≤ length self.now.first }
        ensures { result.now ≡ take count self.now.first }
    {
        &self.first.as_slice()[..count]
    }

    // The first of the seconds.
    pub fn seconds(&self, count: usize) -> &[u128]
        requires { count ≤ length self.now.second }
        ensures { result.now ≡ take count self.now.second }
    {
        &self.second.as_slice()[..count]
    }

    // A copy of the first cells.
    pub fn copy(&self, alloc: Global, count: usize) -> Result<Cells, Memory>
        requires first { count ≤ length self.now.first }
        requires second { count ≤ length self.now.second }
        ensures first { IfOk result (λ c. c.first ≡ take count self.now.first) }
        ensures second { IfOk result (λ c. c.second ≡ take count self.now.second) }
    {
        Ok(Cells {
            first: Vec::from_slice(alloc, self.firsts(count))?,
            second: Vec::from_slice(alloc, self.seconds(count))?,
        })
    }
}

// Writes a part over cells from a place on; what was not there yet is 0.
fn write(cells: &mut Vec<u128>, start: usize, part: &[u128])
    requires { start + length part.now ≤ vec_capacity cells.old }
    ensures written { IsWritten start part.now cells.old.items cells.new.items }
    ensures room { vec_capacity cells.old ≤ vec_capacity cells.new }
{
    if start == cells.len() {
        append(cells, part);
    } else {
        overwrite(cells, start, part);
    }
}

// Adds a part at the end, as rows that come in order do, within the room that there is.
fn append(cells: &mut Vec<u128>, part: &[u128])
    requires { length cells.old.items + length part.now ≤ vec_capacity cells.old }
    ensures items { cells.new.items ≡ cells.old.items ++ part.now }
    ensures room { vec_capacity cells.old ≤ vec_capacity cells.new }
{
    let _ = cells.extend_from_slice(part);
}

// Writes a part anywhere else. Rows seldom come so.
#[cold]
fn overwrite(cells: &mut Vec<u128>, start: usize, part: &[u128])
    requires { start + length part.now ≤ vec_capacity cells.old }
    ensures written { IsWritten start part.now cells.old.items cells.new.items }
    ensures room { vec_capacity cells.old ≤ vec_capacity cells.new }
{
    let end = start + part.len();
    reach(cells, end);
    cells[start..end].copy_from_slice(part);
}

// Fills up with zeros, within the room that there is.
fn reach(cells: &mut Vec<u128>, end: usize)
    requires { end ≤ vec_capacity cells.old }
    ensures reach { end ≤ length cells.new.items }
    ensures longer { length cells.old.items ≤ length cells.new.items }
    ensures same { (i : ℕ) → slice_index cells.new.items i ≡ slice_index cells.old.items i }
    ensures room { vec_capacity cells.old ≤ vec_capacity cells.new }
{
    if cells.len() < end {
        let _ = cells.resize(end, 0);
    }
}
