//! Three snapshots of the same rows.
ghost use Rattle.std.specs.Prelude.{◌≡◌, ◌<◌, ◌≤◌, List, IfOk, map};
ghost use Rattle.server_rounds.specs.Groups.{by_server};
ghost use Rattle.query_plan.specs.Query.{shaped};
ghost use Rattle.transcript.specs.Laws.{HasColumns};
ghost use Rattle.transcript.specs.Formulas.{setup_for};
ghost use Rattle.transcript.specs.Transcript.{IsPart, IsTranscript, opened_of};
ghost use Rattle.visit_trace.specs.Expected.{trace_of};
ghost use Rattle.visit_trace.specs.Seen.{GrewBy};
ghost use Rattle.wire_line.specs.Messages.{Went};
ghost use Rattle.wire_line.specs.declared.message.Message.{Message};
ghost use Rattle.agreed_rows.specs.Shelves.{AreCuts, ArePartsOf, AreRowsOf};
ghost use Rattle.prefix_log.specs.Rows.{IsCut};

use prefix_log::Snapshot;
use query_plan::Keys;
use ring128::Memory;
use scan_chunks::Shelf;
use server_rounds::{OpenedPair, Servers, both_runs};
use std::alloc::Global;
use std::thread::Threads;
use visit_trace::Trace;
use wire_line::Wire;

// Snapshots of the three servers over the same first rows.
#[derive(Drop)]
pub(crate) struct Agreement {
    pub zero: Snapshot,
    pub one: Snapshot,
    pub two: Snapshot,
}

impl Agreement {
    // The three snapshots, each cut to the rows of the least. It takes no memory.
    pub(crate) fn of(mut zero: Snapshot, mut one: Snapshot, mut two: Snapshot) -> Agreement
        ensures { let held = ⟦<Snapshot as Shelf>⟧.held in
            AreCuts (held zero) (held one) (held two) (held result.zero) (held result.one) (held result.two) }
    {
        let rows = zero.rows().min(one.rows()).min(two.rows());
        keep_first(&mut zero, rows);
        keep_first(&mut one, rows);
        keep_first(&mut two, rows);
        Agreement { zero, one, two }
    }

    // How many rows there are.
    pub(crate) fn rows(&self) -> u64
        ensures { result ≡ (⟦<Snapshot as Shelf>⟧.held self.now.zero).rows }
    {
        self.zero.rows()
    }

    // The rows as shelves, at each server as many as there are workers. The only error is out of memory.
    pub(crate) fn shelves(&self, alloc: Global, workers: u8) -> Result<Servers<Snapshot>, Memory>
        requires { 0 < workers }
        ensures zero { IfOk result (λ s. ArePartsOf (⟦<Snapshot as Shelf>⟧.held self.now.zero)
            (map ⟦<Snapshot as Shelf>⟧.held s.zero.items)) }
        ensures one { IfOk result (λ s. ArePartsOf (⟦<Snapshot as Shelf>⟧.held self.now.one)
            (map ⟦<Snapshot as Shelf>⟧.held s.one.items)) }
        ensures two { IfOk result (λ s. ArePartsOf (⟦<Snapshot as Shelf>⟧.held self.now.two)
            (map ⟦<Snapshot as Shelf>⟧.held s.two.items)) }
    {
        Ok(Servers {
            zero: self.zero.parts(alloc, workers)?,
            one: self.one.parts(alloc, workers)?,
            two: self.two.parts(alloc, workers)?,
        })
    }

    // Both runs of a query over the rows, each server's shared among `workers` threads. The only error is out of memory; the
    // first messages of the query may then have been carried, and the trace has a prefix of its own.
    pub(crate) fn open_pair<R: Threads + Sync, W: Wire>(
        &self,
        rt: &R,
        alloc: Global,
        workers: u8,
        keys: &Keys,
        wire: &mut W,
        trace: &mut Trace,
    ) -> Result<OpenedPair, Memory>
        requires some { 0 < workers }
        requires few { (⟦<Snapshot as Shelf>⟧.held self.now.zero).rows ≤ 65536 }
        requires zero { let held = ⟦<Snapshot as Shelf>⟧.held in AreRowsOf keys.now.widths (held self.now.zero).rows (held self.now.zero) }
        requires one { let held = ⟦<Snapshot as Shelf>⟧.held in AreRowsOf keys.now.widths (held self.now.zero).rows (held self.now.one) }
        requires two { let held = ⟦<Snapshot as Shelf>⟧.held in AreRowsOf keys.now.widths (held self.now.zero).rows (held self.now.two) }
        ensures columns { HasColumns (record {
          rows = (⟦<Snapshot as Shelf>⟧.held self.now.zero).rows;
          widths = keys.now.widths;
          shape = shaped keys.now.query;
        }) }
        ensures messages { let held = ⟦<Snapshot as Shelf>⟧.held in
            let pieces = by_server (held self.now.zero).pieces (held self.now.one).pieces (held self.now.two).pieces in
            let setup = setup_for keys.now.query keys.now.widths keys.now.seed (held self.now.zero).rows pieces in
            (ms : List Message) × Went W.sight wire.old ms wire.new
            × IsPart setup ms
            × IfOk result (λ pair. IsTranscript setup ms × (pair.total ≡ opened_of setup ms 0) × (pair.weighted ≡ opened_of setup ms 1)) }
        ensures trace { let rows = (⟦<Snapshot as Shelf>⟧.held self.now.zero).rows in
            GrewBy trace.old trace.new (trace_of (record { rows = rows; widths = keys.now.widths; shape = shaped keys.now.query })) result }
    {
        keys.shape();
        let mut shelves = self.shelves(alloc, workers)?;
        both_runs(rt, alloc, &mut shelves, keys, wire, trace)
    }
}

// Keeps the first rows alone. It takes no memory.
fn keep_first(snapshot: &mut Snapshot, rows: u64)
    requires { rows ≤ (⟦<Snapshot as Shelf>⟧.held snapshot.old).rows }
    ensures { IsCut 0 rows (⟦<Snapshot as Shelf>⟧.held snapshot.old) (⟦<Snapshot as Shelf>⟧.held snapshot.new) }
{
    let start = snapshot.start();
    snapshot.cut(start, start + rows);
}
