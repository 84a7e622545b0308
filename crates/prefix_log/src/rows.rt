//! Rows of a log, by chunks of 64.
ghost use Rattle.std.specs.Prelude.{◌≡◌, ◌<◌, ◌≤◌, ◌+◌, ◌-◌, ◌/◌, ◌%◌, ◌^◌, IfOk, drop, length, map, take};
ghost use Rattle.std.specs.Arc.{arc_value};
ghost use Rattle.onehot_column.specs.Code.{width_of};
ghost use Rattle.scan_chunks.specs.Pieces.{chunk_of, chunks_of};
ghost use Rattle.scan_chunks.specs.Shelf.{IsShelf};
ghost use Rattle.prefix_log.specs.Chunks.{HaveRows, first_rows};

use crate::chunk::Chunk;
use crate::chunks::{drop_first, shared};
use crate::code::width;
use ring128::Memory;
use scan_chunks::Lent;
use std::alloc::Global;
use std::sync::Arc;
use table_schema::Widths;

// Rows of these widths, the number of their first chunk, and the place of the first row.
#[derive(Drop)]
pub(crate) struct Rows {
    pub count: u64,
    pub start: u32,
    pub place: u64,
    pub widths: Widths,
    pub chunks: Vec<Arc<Chunk>>,
    pub ghost few: { start + chunks_of count ≤ 1024 },
    pub ghost whole: { 0 < count → place % 64 ≡ 0 },
    pub ghost reach: { place + count < 2 ^ 64 },
    pub ghost there: { HaveRows widths count (map arc_value chunks.items) },
}

impl Rows {
    // How many there are.
    pub fn count(&self) -> u64
        ensures value { result ≡ self.now.count }
        ensures shelf { IsShelf (first_rows self.now.widths self.now.count self.now.start (map arc_value self.now.chunks.items)) }
    {
        self.count
    }

    // How many cells a row has in a column.
    pub fn width(&self, column: u8) -> u64
        requires { column ≤ self.now.widths.columns }
        ensures { result ≡ width_of self.now.widths column }
    {
        width(&self.widths, column)
    }

    // Keeps the rows at the places from one to below another, and lets go of the chunks before them. It takes no memory.
    pub fn cut(&mut self, from: u64, to: u64)
        requires whole { from < to → from % 64 ≡ 0 }
        requires from { self.old.place ≤ from }
        requires to { to ≤ self.old.place + self.old.count }
        ensures count { self.new.count ≡ to - from }
        ensures start { self.new.start ≡ self.old.start }
        ensures place { self.new.place ≡ from }
        ensures widths { self.new.widths ≡ self.old.widths }
        ensures chunks { map arc_value self.new.chunks.items ≡ drop ((from - self.old.place) / 64) (map arc_value self.old.chunks.items) }
    {
        let skipped = ((from - self.place) / 64).min(self.chunks.len() as u64);
        drop_first(&mut self.chunks, skipped as usize);
        self.count = to.saturating_sub(from);
        self.place = from;
    }

    // A chunk of a column.
    pub fn chunk(&self, c: u32, column: u8) -> Lent<'_>
        requires column { column ≤ self.now.widths.columns }
        requires from { self.now.start ≤ c }
        requires below { c < self.now.start + chunks_of self.now.count }
        ensures first { let s = self.now in
            result.first.now ≡ chunk_of (width_of s.widths column) (c - s.start)
            ((first_rows s.widths s.count s.start (map arc_value s.chunks.items)).pieces.first column) }
        ensures second { let s = self.now in
            result.second.now ≡ chunk_of (width_of s.widths column) (c - s.start)
            ((first_rows s.widths s.count s.start (map arc_value s.chunks.items)).pieces.second column) }
    {
        let chunk = c - self.start;
        let rows = 64.min(self.count - 64 * u64::from(chunk));
        let count = (rows * width(&self.widths, column)) as usize;
        let shared: &Chunk = &self.chunks[chunk as usize];
        let cells = shared.column(column);
        Lent {
            first: cells.firsts(count),
            second: cells.seconds(count),
        }
    }

    // The chunks from one to below another, counted from 0. Nothing is copied.
    pub fn between(&self, alloc: Global, low: u64, high: u64) -> Result<Vec<Arc<Chunk>>, Memory>
        requires order { low ≤ high }
        requires there { high ≤ chunks_of self.now.count }
        ensures { IfOk result (λ c. map arc_value c.items ≡ take (high - low) (drop low (map arc_value self.now.chunks.items))) }
    {
        let chunks = &self.chunks.as_slice()[low as usize..high as usize];
        shared(alloc, chunks, chunks.len())
    }
}
