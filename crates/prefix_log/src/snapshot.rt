ghost use Rattle.std.specs.Prelude.{◌≡◌, ℕ, ◌+◌, ◌-◌, ◌%◌, ◌^◌, ◌<◌, ◌≤◌, [], IfOk, All, length, map};
ghost use Rattle.scan_chunks.specs.Shelf.{Held, IsShelf};
ghost use Rattle.scan_chunks.specs.Laws.{AreParts, GoOn};
ghost use Rattle.scan_chunks.specs.Pieces.{chunks_of};
ghost use Rattle.std.specs.Arc.{arc_value};
ghost use Rattle.prefix_log.specs.Chunks.{HaveRows, first_rows};
ghost use Rattle.prefix_log.specs.Rows.{IsCut, IsPart, IsEven, rows_before};
ghost use Rattle.prefix_log.specs.Starts.{Follow, start_of};

use crate::chunk::Chunk;
use crate::rows::Rows;
use ring128::Memory;
use scan_chunks::{Lent, Shelf, Visit};
use std::alloc::Global;
use std::sync::Arc;
use table_schema::Widths;

/// The pieces of a server's log at the places from its start to below its prefix, a row each. It shares whole chunks of 64
/// rows with the log and with other snapshots, and owns the rest. Nothing that is placed or retired later changes it.
#[derive(Drop)]
pub struct Snapshot {
    rows: Rows,
    visits: Vec<Visit>,
}

impl Snapshot {
    // The first rows of some chunks, of which the first is at this place. It takes no memory.
    pub(crate) fn new(
        alloc: Global,
        widths: Widths,
        count: u64,
        start: u32,
        place: u64,
        chunks: Vec<Arc<Chunk>>,
    ) -> Snapshot
        requires few { start + chunks_of count ≤ 1024 }
        requires whole { 0 < count → place % 64 ≡ 0 }
        requires reach { place + count < 2 ^ 64 }
        requires there { HaveRows widths count (map arc_value chunks.items) }
        ensures held { ⟦<Snapshot as Shelf>⟧.held result ≡ first_rows widths count start (map arc_value chunks.items) }
        ensures place { start_of result ≡ place }
        ensures visits { ⟦<Snapshot as Shelf>⟧.visited result ≡ [] }
    {
        Snapshot {
            rows: Rows {
                count,
                start,
                place,
                widths,
                chunks,
            },
            visits: Vec::new(alloc),
        }
    }

    /// The place of the first row, also where there are no rows.
    pub fn start(&self) -> u64
        ensures value { result ≡ start_of self.now }
        ensures whole { 0 < (⟦<Snapshot as Shelf>⟧.held self.now).rows → result % 64 ≡ 0 }
        ensures reach { result + (⟦<Snapshot as Shelf>⟧.held self.now).rows < 2 ^ 64 }
    {
        self.rows.place
    }

    /// Keeps the rows at the places from `from` to `to - 1`, and none where `from` is not below `to`; the start is then
    /// `from`. Rows are kept from a multiple of 64 on. The number of the first chunk and the visits stay: chunks are numbered
    /// from the first row that is kept. It takes no memory.
    pub fn cut(&mut self, from: u64, to: u64)
        requires whole { from < to → from % 64 ≡ 0 }
        requires from { start_of self.old ≤ from }
        requires to { to ≤ start_of self.old + (⟦<Snapshot as Shelf>⟧.held self.old).rows }
        ensures cut { let first = start_of self.old in
            IsCut (from - first) (to - first) (⟦<Snapshot as Shelf>⟧.held self.old) (⟦<Snapshot as Shelf>⟧.held self.new) }
        ensures start { start_of self.new ≡ from }
        ensures visits { ⟦<Snapshot as Shelf>⟧.visited self.new ≡ ⟦<Snapshot as Shelf>⟧.visited self.old }
    {
        self.rows.cut(from, to);
    }

    /// As many snapshots as there are workers, without visits yet, whose rows one after another are those of this one.
    /// They are cut at the ends of chunks, and their numbers of chunks differ by at most one. Each begins with the chunk
    /// after the last one of that before it, also where one has no rows, and its start is this one's and the rows of those
    /// before it. The only error is out of memory.
    pub fn parts(&self, alloc: Global, workers: u8) -> Result<Vec<Snapshot>, Memory>
        requires { 0 < workers }
        ensures count { IfOk result (λ p. length p.items ≡ workers) }
        ensures rows { (column : ℕ) → column ≤ (⟦<Snapshot as Shelf>⟧.held self.now).columns
            → IfOk result (λ p. AreParts column (map ⟦<Snapshot as Shelf>⟧.held p.items) (⟦<Snapshot as Shelf>⟧.held self.now)) }
        ensures columns { IfOk result (λ p.
            All (λ (h : Held). h.columns ≡ (⟦<Snapshot as Shelf>⟧.held self.now).columns) (map ⟦<Snapshot as Shelf>⟧.held p.items)) }
        ensures chunks { IfOk result (λ p. GoOn (⟦<Snapshot as Shelf>⟧.held self.now).start (map ⟦<Snapshot as Shelf>⟧.held p.items)) }
        ensures starts { IfOk result (λ p. Follow ⟦<Snapshot as Shelf>⟧.held (start_of self.now) p.items) }
        ensures even { IfOk result (λ p. All (IsEven (chunks_of (⟦<Snapshot as Shelf>⟧.held self.now).rows) workers)
            (map ⟦<Snapshot as Shelf>⟧.held p.items)) }
        ensures visits { IfOk result (λ p. All (λ s. ⟦<Snapshot as Shelf>⟧.visited s ≡ []) p.items) }
    {
        let chunks = self.rows.count().div_ceil(64);
        let count = u64::from(workers);
        let (least, longer) = (chunks / count, chunks % count);
        let mut parts = Vec::with_capacity(alloc, workers as usize)?;
        let mut low = 0;
        for worker in 0..count {
            let high = low + least + u64::from(worker < longer);
            parts.push(self.part(alloc, low, high)?)?;
            low = high;
        }
        Ok(parts)
    }

    // The chunks from one to below another, counted from 0.
    fn part(&self, alloc: Global, low: u64, high: u64) -> Result<Snapshot, Memory>
        requires order { low ≤ high }
        requires there { high ≤ chunks_of (⟦<Snapshot as Shelf>⟧.held self.now).rows }
        ensures held { IfOk result (λ s. IsPart low high (⟦<Snapshot as Shelf>⟧.held self.now) (⟦<Snapshot as Shelf>⟧.held s)) }
        ensures place { IfOk result (λ s. start_of s ≡ start_of self.now + rows_before (⟦<Snapshot as Shelf>⟧.held self.now).rows low) }
        ensures visits { IfOk result (λ s. ⟦<Snapshot as Shelf>⟧.visited s ≡ []) }
    {
        let rows = self.rows.count();
        let (first, end) = (rows.min(64 * low), rows.min(64 * high));
        let chunks = self.rows.between(alloc, low, high)?;
        let start = self.rows.start + low as u32;
        let place = self.rows.place + first;
        Ok(Snapshot::new(alloc, self.rows.widths, end - first, start, place, chunks))
    }
}

impl Shelf for Snapshot {
    ghost held = { λ s. first_rows s.rows.widths s.rows.count s.rows.start (map arc_value s.rows.chunks.items) };

    ghost visited = { λ s. s.visits.items };

    fn rows(&self) -> u64 {
        self.rows.count()
    }

    fn first(&self) -> u32 {
        self.rows.start
    }

    fn width(&self, column: u8) -> u64 {
        self.rows.width(column)
    }

    fn visits(&self) -> &[Visit] {
        self.visits.as_slice()
    }

    fn chunk(&mut self, c: u32, column: u8) -> Result<Lent<'_>, Memory> {
        self.visits.push(Visit { column, chunk: c })?;
        Ok(self.rows.chunk(c, column))
    }
}
