ghost use Rattle.std.specs.Prelude.{◌≡◌, ◌<◌, ◌+◌, List, [], ◌∷◌, Some, map, IfOk};
ghost use Rattle.wire_line.specs.declared.message.Message.{Message};
ghost use Rattle.wire_line.specs.Messages.{Went};
ghost use Rattle.transcript.specs.Setup.{column_of, count_of};
ghost use Rattle.server_rounds.specs.Groups.{by_server, AreLong, AreReshared, IsGroup};
ghost use Rattle.server_rounds.specs.Plans.{views_of};
ghost use Rattle.server_rounds.specs.Rounds.{IsOpened, bits_of, openings_of};
ghost use Rattle.server_rounds.specs.Shelves.{AreShelves, pieces_of};
ghost use Rattle.server_rounds.specs.Visits.{AllVisited, opened_columns};
ghost use Rattle.visit_trace.specs.Seen.{GrewBy};
ghost use Rattle.visit_trace.specs.Expected.{bits_part, opening_part};

use crate::bits::Bits;
use crate::held::Held;
use crate::opened::Opened;
use crate::plan::Plan;
use crate::ready::Ready;
use crate::rounds::{bits_round, opening_round};
use crate::servers::Servers;
use crate::way::Way;
use ring128::Memory;
use scan_chunks::Shelf;
use std::alloc::Global;
use std::thread::Threads;
use visit_trace::Trace;
use wire_line::Wire;

/// The state of a run in which the servers hold the product of the bits through predicate j, from 0.
#[derive(Drop)]
pub struct Product {
    pub(crate) plan: Plan,
    pub(crate) run: u8,
    pub(crate) j: u8,
    pub(crate) chain: Held,
    ghost one_of_two: { run < 2 },
    ghost there: { j < count_of plan },
    ghost chain_long: { AreLong plan.rows chain },
}

impl Product {
    /// The bits of the next predicate, with what the servers read when the run began. Each server visits each chunk of the
    /// predicate's column once, rising. The only error is out of memory; the first of these messages may then have been
    /// carried, and the first of these visits made.
    pub fn bits<R: Threads + Sync, S: Shelf + Send, W: Wire>(
        self,
        rt: &R,
        alloc: Global,
        ready: &Ready,
        shelves: &mut Servers<S>,
        wire: &mut W,
        trace: &mut Trace,
    ) -> Result<Bits, Memory>
        requires began { self.plan ≡ ready.now.plan }
        requires left { self.j + 1 < count_of self.plan }
        requires zero { AreShelves self.plan.widths self.plan.rows (map S.held shelves.old.zero.items) }
        requires one { AreShelves self.plan.widths self.plan.rows (map S.held shelves.old.one.items) }
        requires two { AreShelves self.plan.widths self.plan.rows (map S.held shelves.old.two.items) }
        ensures zero { map S.held shelves.new.zero.items ≡ map S.held shelves.old.zero.items }
        ensures one { map S.held shelves.new.one.items ≡ map S.held shelves.old.one.items }
        ensures two { map S.held shelves.new.two.items ≡ map S.held shelves.old.two.items }
        ensures visits { AllVisited S.held S.visited (column_of self.plan (self.j + 1) ∷ []) shelves.old shelves.new result }
        ensures plan { IfOk result (λ b. b.plan ≡ self.plan) }
        ensures run { IfOk result (λ b. b.run ≡ self.run) }
        ensures j { IfOk result (λ b. b.j ≡ self.j + 1) }
        ensures chain { IfOk result (λ b. b.chain ≡ Some self.chain) }
        ensures messages { let pieces = by_server (pieces_of (map S.held shelves.old.zero.items))
            (pieces_of (map S.held shelves.old.one.items)) (pieces_of (map S.held shelves.old.two.items)) in
            (ms : List Message) × Went W.sight wire.old ms wire.new
            × IsGroup Way.Around (bits_of self.plan self.run (views_of ready.now.keys) pieces (self.j + 1)) ms
            × IfOk result (λ b. AreReshared b.bits ms) }
        ensures trace { GrewBy trace.old trace.new (bits_part self.plan (column_of self.plan (self.j + 1))) result }
    {
        let Product {
            plan,
            run,
            j,
            chain,
        } = self;
        plan.count();
        let next = j + 1;
        let bits = bits_round(
            rt,
            alloc,
            &plan,
            &ready.keys,
            shelves,
            wire,
            trace,
            run,
            next,
        )?;
        Ok(Bits {
            plan,
            run,
            j: next,
            chain: Some(chain),
            bits,
            parts: shelves.zero.len(),
        })
    }

    /// What the servers hold after the last predicate, which is the product of all bits: a run may end otherwise than by `reveal`.
    pub fn into_chain(self) -> Held
        requires { self.j + 1 ≡ count_of self.plan }
        ensures chain { result ≡ self.chain }
        ensures long { AreLong self.plan.rows self.chain }
    {
        let Product { chain, .. } = self;
        chain
    }

    /// The opening, with what the servers read when the run began: each server sends its share of the count, or of the sum, to
    /// the client, which adds up what it received. For a sum each server visits each chunk of the value's column once, rising; for
    /// a count it visits none. The only error is out of memory; the first of these messages may then have been carried, and
    /// the first of these visits made.
    pub fn reveal<R: Threads + Sync, S: Shelf + Send, W: Wire>(
        self,
        rt: &R,
        alloc: Global,
        ready: &Ready,
        shelves: &mut Servers<S>,
        wire: &mut W,
        trace: &mut Trace,
    ) -> Result<Opened, Memory>
        requires last { self.j + 1 ≡ count_of self.plan }
        requires zero { AreShelves self.plan.widths self.plan.rows (map S.held shelves.old.zero.items) }
        requires one { AreShelves self.plan.widths self.plan.rows (map S.held shelves.old.one.items) }
        requires two { AreShelves self.plan.widths self.plan.rows (map S.held shelves.old.two.items) }
        ensures zero { map S.held shelves.new.zero.items ≡ map S.held shelves.old.zero.items }
        ensures one { map S.held shelves.new.one.items ≡ map S.held shelves.old.one.items }
        ensures two { map S.held shelves.new.two.items ≡ map S.held shelves.old.two.items }
        ensures visits { AllVisited S.held S.visited
            (opened_columns self.plan.shape.aggregate self.plan.widths.columns) shelves.old shelves.new result }
        ensures messages { let pieces = by_server (pieces_of (map S.held shelves.old.zero.items))
            (pieces_of (map S.held shelves.old.one.items)) (pieces_of (map S.held shelves.old.two.items)) in
            (ms : List Message) × Went W.sight wire.old ms wire.new
            × IsGroup Way.ToClient (openings_of self.plan self.run (views_of ready.now.keys) pieces self.chain) ms
            × IfOk result (λ opened. IsOpened ms opened.total) }
        ensures trace { GrewBy trace.old trace.new (opening_part self.plan) result }
    {
        let Product {
            plan,
            run,
            chain,
            ..
        } = self;
        let total = opening_round(
            rt,
            alloc,
            &plan,
            &ready.keys,
            &chain,
            shelves,
            wire,
            trace,
            run,
        )?;
        Ok(Opened { total })
    }
}
