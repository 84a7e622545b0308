ghost use Rattle.std.specs.Prelude.{◌≡◌, ◌<◌, List, [], Some, IfOk, MatchOption};
ghost use Rattle.wire_line.specs.declared.message.Message.{Message};
ghost use Rattle.wire_line.specs.Messages.{Went};
ghost use Rattle.transcript.specs.Setup.{count_of};
ghost use Rattle.server_rounds.specs.Groups.{AreLong, AreReshared, IsGroup, Pairs};
ghost use Rattle.visit_trace.specs.Seen.{GrewBy};
ghost use Rattle.server_rounds.specs.Noted.{product_of};
ghost use Rattle.server_rounds.specs.Plans.{views_of};
ghost use Rattle.server_rounds.specs.Rounds.{products_of};

use crate::held::Held;
use crate::plan::Plan;
use crate::product::Product;
use crate::ready::Ready;
use crate::rounds::product_round;
use crate::way::Way;
use ring128::Memory;
use std::alloc::Global;
use std::thread::Threads;
use visit_trace::Trace;
use wire_line::Wire;

/// The state of a run in which the servers hold the bits of predicate j, from 0, and the product of the bits of those before
/// it, if there are any.
#[derive(Drop)]
pub struct Bits {
    pub(crate) plan: Plan,
    pub(crate) run: u8,
    pub(crate) j: u8,
    pub(crate) chain: Option<Held>,
    pub(crate) bits: Held,
    // How many shelves each server has: as many stretches of rows are worked on at once.
    pub(crate) parts: usize,
    ghost one_of_two: { run < 2 },
    ghost there: { j < count_of plan },
    ghost chain_long: { (pairs : Pairs) → chain ≡ Some pairs → AreLong plan.rows pairs },
    ghost bits_long: { AreLong plan.rows bits },
}

impl Bits {
    /// The product with the bits: the servers multiply their shares row by row and send each other their words. For the first
    /// predicate it is its bits, and no message is carried. The only error is out of memory; the first of these messages may
    /// then have been carried, and the first lengths noted.
    pub fn product<R: Threads + Sync, W: Wire>(
        self,
        rt: &R,
        alloc: Global,
        ready: &Ready,
        wire: &mut W,
        trace: &mut Trace,
    ) -> Result<Product, Memory>
        ensures plan { IfOk result (λ p. p.plan ≡ self.plan) }
        ensures run { IfOk result (λ p. p.run ≡ self.run) }
        ensures j { IfOk result (λ p. p.j ≡ self.j) }
        ensures messages { (ms : List Message) × Went W.sight wire.old ms wire.new
            × MatchOption self.chain (ms ≡ [])
            (λ chain. IsGroup Way.Around (products_of self.plan self.run (views_of ready.now.keys) self.j chain self.bits) ms)
            × IfOk result (λ p. MatchOption self.chain (p.chain ≡ self.bits) (λ _. AreReshared p.chain ms)) }
        ensures trace { GrewBy trace.old trace.new (product_of self.plan self.chain) result }
    {
        let Bits {
            plan,
            run,
            j,
            chain,
            bits,
            parts,
        } = self;
        match chain {
            None => Ok(Product {
                plan,
                run,
                j,
                chain: bits,
            }),
            Some(earlier) => {
                let chain = product_round(
                    rt,
                    alloc,
                    &plan,
                    &ready.keys,
                    &earlier,
                    &bits,
                    parts,
                    wire,
                    trace,
                    run,
                    j,
                )?;
                Ok(Product {
                    plan,
                    run,
                    j,
                    chain,
                })
            }
        }
    }
}
