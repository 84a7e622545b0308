ghost use Rattle.std.specs.Prelude.{◌≡◌, ◌*◌, ◌<◌, ◌≤◌, List, [], ◌∷◌, None, map, length, IfOk};
ghost use Rattle.onehot_column.specs.Code.{width_of};
ghost use Rattle.wire_line.specs.declared.message.Message.{Message};
ghost use Rattle.wire_line.specs.Messages.{Went};
ghost use Rattle.transcript.specs.Setup.{column_of};
ghost use Rattle.server_rounds.specs.Groups.{by_server, AreReshared, IsGroup};
ghost use Rattle.server_rounds.specs.Plans.{AreZeros, HaveTables, read_for, sizes_for, views_of, words_for};
ghost use Rattle.server_rounds.specs.Rounds.{bits_of};
ghost use Rattle.server_rounds.specs.Runs.{HaveRead};
ghost use Rattle.server_rounds.specs.Shelves.{AreShelves, pieces_of};
ghost use Rattle.server_rounds.specs.Visits.{AllVisited, AreVisited};
ghost use Rattle.visit_trace.specs.Seen.{GrewBy};
ghost use Rattle.visit_trace.specs.Expected.{bits_part, keys_part};

use crate::bits::Bits;
use crate::carry::{Trio, carry_three};
use crate::keys::ThreeKeys;
use crate::part::seeds_of;
use crate::plan::Plan;
use crate::rounds::bits_round;
use crate::servers::Servers;
use crate::shelves::read_cells;
use crate::way::Way;
use query_plan::Keys;
use replicated_share::PairList;
use ring128::Memory;
use scan_chunks::Shelf;
use std::alloc::Global;
use std::thread::Threads;
use table_schema::{Aggregate, Widths};
use visit_trace::Trace;
use wire_line::Wire;
use zero_share::ZeroSeeds;

/// What the three servers read from their key messages, and from which both runs begin.
#[derive(Drop)]
pub struct Ready {
    pub(crate) plan: Plan,
    pub(crate) keys: ThreeKeys,
    zero: ZeroSeeds,
    one: ZeroSeeds,
    two: ZeroSeeds,
    ghost tables: { HaveTables plan keys },
    ghost zeros: { AreZeros keys zero one two },
}

impl Ready {
    /// Carries the three key messages of a query over `rows` rows, from the client to the servers, and lets each server read
    /// what it received. The only error is out of memory; the first of these messages may then have been carried.
    pub fn send<W: Wire>(
        alloc: Global,
        keys: &Keys,
        rows: u64,
        wire: &mut W,
        trace: &mut Trace,
    ) -> Result<Ready, Memory>
        requires { rows ≤ 65536 }
        ensures plan { IfOk result (λ ready. ready.plan ≡ sizes_for keys.now rows) }
        ensures messages { (ms : List Message) × Went W.sight wire.old ms wire.new
            × IsGroup Way.ToServers (words_for keys.now) ms
            × IfOk result (λ ready. HaveRead (read_for keys.now) (views_of ready.keys) ms) }
        ensures trace { GrewBy trace.old trace.new (keys_part (sizes_for keys.now rows)) result }
    {
        let plan = Plan::new(rows, keys.widths(), keys.shape());
        let zero = keys.message(alloc, 0)?;
        let one = keys.message(alloc, 1)?;
        let two = keys.message(alloc, 2)?;
        let got = carry_three(wire, trace, Way::ToServers, Trio { zero, one, two })?;
        let zero_read = plan.read_keys(alloc, &got.zero)?;
        let one_read = plan.read_keys(alloc, &got.one)?;
        let two_read = plan.read_keys(alloc, &got.two)?;
        let zero_seeds = seeds_of(&zero_read);
        let one_seeds = seeds_of(&one_read);
        let two_seeds = seeds_of(&two_read);
        let keys = ThreeKeys {
            zero: zero_read,
            one: one_read,
            two: two_read,
        };
        Ok(Ready {
            plan,
            keys,
            zero: zero_seeds,
            one: one_seeds,
            two: two_seeds,
        })
    }

    /// The two seeds of zero parts that server 0, 1 or 2 received: its own, and the next server's.
    pub fn zero(&self, server: u8) -> &ZeroSeeds
        requires { server < 3 }
        ensures own { result.now.own ≡ (views_of self.now.keys server).own }
        ensures next { result.now.next ≡ (views_of self.now.keys server).next }
    {
        match server {
            0 => &self.zero,
            1 => &self.one,
            _ => &self.two,
        }
    }

    /// How many rows the run is over.
    pub fn rows(&self) -> u64
        ensures value { result ≡ self.now.plan.rows }
        ensures few { result ≤ 65536 }
    {
        self.plan.rows()
    }

    /// The widths of the rows.
    pub fn widths(&self) -> Widths
        ensures { result ≡ self.now.plan.widths }
    {
        self.plan.widths()
    }

    /// Whether values are summed, or rows counted.
    pub fn aggregate(&self) -> Aggregate
        ensures { result ≡ self.now.plan.shape.aggregate }
    {
        self.plan.aggregate()
    }

    /// The pairs of a server's rows at a column, row after row; the value's column is the last one. Each chunk of the column is
    /// visited once, rising. The only error is out of memory; each shelf's visits are then the first of its own.
    pub fn cells<S: Shelf>(
        &self,
        alloc: Global,
        shelves: &mut Vec<S>,
        column: u8,
    ) -> Result<PairList, Memory>
        requires shelves { AreShelves self.now.plan.widths self.now.plan.rows (map S.held shelves.old.items) }
        requires column { column ≤ self.now.plan.widths.columns }
        ensures held { map S.held shelves.new.items ≡ map S.held shelves.old.items }
        ensures first { IfOk result (λ p. p.first ≡ (pieces_of (map S.held shelves.old.items)).first column) }
        ensures second { IfOk result (λ p. p.second ≡ (pieces_of (map S.held shelves.old.items)).second column) }
        ensures long { IfOk result (λ p. length p.first ≡ self.now.plan.rows * width_of self.now.plan.widths column) }
        ensures visits { AreVisited S.held S.visited (column ∷ []) shelves.old.items shelves.new.items result }
    {
        let cells = read_cells(alloc, &self.plan, shelves, column)?;
        Ok(cells)
    }

    /// The bits of the first predicate in run 0 or 1: the servers scan their shelves and send each other their words. Each
    /// server visits each chunk of the predicate's column once, rising. The only error is out of memory; the first of these
    /// messages may then have been carried, and the first of these visits made.
    pub fn bits<R: Threads + Sync, S: Shelf + Send, W: Wire>(
        &self,
        rt: &R,
        alloc: Global,
        run: u8,
        shelves: &mut Servers<S>,
        wire: &mut W,
        trace: &mut Trace,
    ) -> Result<Bits, Memory>
        requires run { run < 2 }
        requires zero { AreShelves self.now.plan.widths self.now.plan.rows (map S.held shelves.old.zero.items) }
        requires one { AreShelves self.now.plan.widths self.now.plan.rows (map S.held shelves.old.one.items) }
        requires two { AreShelves self.now.plan.widths self.now.plan.rows (map S.held shelves.old.two.items) }
        ensures zero { map S.held shelves.new.zero.items ≡ map S.held shelves.old.zero.items }
        ensures one { map S.held shelves.new.one.items ≡ map S.held shelves.old.one.items }
        ensures two { map S.held shelves.new.two.items ≡ map S.held shelves.old.two.items }
        ensures visits { AllVisited S.held S.visited (column_of self.now.plan 0 ∷ []) shelves.old shelves.new result }
        ensures plan { IfOk result (λ b. b.plan ≡ self.now.plan) }
        ensures run { IfOk result (λ b. b.run ≡ run) }
        ensures j { IfOk result (λ b. b.j ≡ 0) }
        ensures chain { IfOk result (λ b. b.chain ≡ None) }
        ensures messages { let pieces = by_server (pieces_of (map S.held shelves.old.zero.items))
            (pieces_of (map S.held shelves.old.one.items)) (pieces_of (map S.held shelves.old.two.items)) in
            (ms : List Message) × Went W.sight wire.old ms wire.new
            × IsGroup Way.Around (bits_of self.now.plan run (views_of self.now.keys) pieces 0) ms
            × IfOk result (λ b. AreReshared b.bits ms) }
        ensures trace { GrewBy trace.old trace.new (bits_part self.now.plan (column_of self.now.plan 0)) result }
    {
        self.plan.count();
        let bits = bits_round(
            rt, alloc, &self.plan, &self.keys, shelves, wire, trace, run, 0,
        )?;
        Ok(Bits {
            plan: self.plan.same(),
            run,
            j: 0,
            chain: None,
            bits,
            parts: shelves.zero.len(),
        })
    }
}
