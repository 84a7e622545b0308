//! The words of the three servers in a step, made side by side.
ghost use denote.Param.Send.{IsSend, IsSync};
ghost use Rattle.std.specs.Prelude.{◌≡◌, ◌<◌, ◌≤◌, map, length, IfOk};
ghost use Rattle.server_rounds.specs.AtOnce.{AreAll, CanMultiply, CanOpen, GivesLocals, GivesOpening};
ghost use Rattle.server_rounds.specs.Plans.{views_of};
ghost use Rattle.server_rounds.specs.Shelves.{AreShelves, pieces_of};

use crate::carry::Trio;
use crate::held::Held;
use crate::keys::ThreeKeys;
use crate::part::{locals_part, opening_part};
use crate::plan::Plan;
use ring128::{Memory, Words};
use scan_chunks::Shelf;
use std::alloc::Global;
use std::thread::{Threads, join_mut};

/// Calls three closures, each in a thread of its own where one can be made, and gives what each gave.
pub fn join_three<
    R: Threads + Sync,
    F: FnMut() -> A + Send,
    G: FnMut() -> B + Send,
    H: FnMut() -> C,
    A: Send,
    B: Send,
    C,
>(rt: &R, f: &mut F, g: &mut G, h: &mut H) -> (A, (B, C))
    requires { F.pre f.old × G.pre g.old × H.pre h.old }
    ensures { F.step f.old result.0 f.new × G.step g.old result.1.0 g.new × H.step h.old result.1.1 h.new }
{
    let mut others = || -> (B, C)
        requires { IsSync R.row × IsSend G.row × IsSend B.row × G.pre g.now × H.pre h.now }
        ensures { G.step g.entry.now result.0 g.exit.now × H.step h.entry.now result.1 h.exit.now }
    { join_mut(rt, g, h) };
    join_mut(rt, f, &mut others)
}

/// The servers' parts of the product of a chain and bits, side by side where this is wanted, else one after another.
pub(crate) fn locals_at_once<R: Threads + Sync>(
    rt: &R,
    alloc: Global,
    chain: &Held,
    bits: &Held,
    side_by_side: bool,
) -> (
    Result<Words, Memory>,
    (Result<Words, Memory>, Result<Words, Memory>),
)
    requires { CanMultiply chain.now bits.now }
    ensures zero { GivesLocals chain.now bits.now 0 result.0 }
    ensures one { GivesLocals chain.now bits.now 1 result.1.0 }
    ensures two { GivesLocals chain.now bits.now 2 result.1.1 }
{
    let mut first = || -> Result<Words, Memory>
        requires { CanMultiply chain.now bits.now }
        ensures { GivesLocals chain.entry.now bits.entry.now 0 result }
    { locals_part(alloc, chain, bits, 0) };
    let mut second = || -> Result<Words, Memory>
        requires { CanMultiply chain.now bits.now }
        ensures { GivesLocals chain.entry.now bits.entry.now 1 result }
    { locals_part(alloc, chain, bits, 1) };
    let mut third = || -> Result<Words, Memory>
        requires { CanMultiply chain.now bits.now }
        ensures { GivesLocals chain.entry.now bits.entry.now 2 result }
    { locals_part(alloc, chain, bits, 2) };
    if side_by_side {
        join_three(rt, &mut first, &mut second, &mut third)
    } else {
        (first(), (second(), third()))
    }
}

/// The words of the servers in the opening: side by side where each has several shelves, else one after another.
pub(crate) fn openings_at_once<R: Threads + Sync, S: Shelf + Send>(
    rt: &R,
    alloc: Global,
    plan: &Plan,
    keys: &ThreeKeys,
    chain: &Held,
    run: u8,
    zero: &mut Vec<S>,
    one: &mut Vec<S>,
    two: &mut Vec<S>,
) -> (
    Result<Words, Memory>,
    (Result<Words, Memory>, Result<Words, Memory>),
)
    requires zero { CanOpen S.held plan.now run chain.now zero.old.items }
    requires one { CanOpen S.held plan.now run chain.now one.old.items }
    requires two { CanOpen S.held plan.now run chain.now two.old.items }
    ensures zero { GivesOpening S.held S.visited plan.now run (views_of keys.now) chain.now 0 zero.old.items zero.new.items result.0 }
    ensures one { GivesOpening S.held S.visited plan.now run (views_of keys.now) chain.now 1 one.old.items one.new.items result.1.0 }
    ensures two { GivesOpening S.held S.visited plan.now run (views_of keys.now) chain.now 2 two.old.items two.new.items result.1.1 }
{
    if zero.len() < 2 {
        let first = opening_part(alloc, plan, keys, chain, 0, run, zero);
        let second = opening_part(alloc, plan, keys, chain, 1, run, one);
        let third = opening_part(alloc, plan, keys, chain, 2, run, two);
        return (first, (second, third));
    }
    let mut first = || -> Result<Words, Memory>
        requires { CanOpen S.held plan.now run chain.now zero.now.items }
        ensures { GivesOpening S.held S.visited plan.entry.now run
            (views_of keys.entry.now) chain.entry.now 0 zero.entry.now.items zero.exit.now.items result }
    { opening_part(alloc, plan, keys, chain, 0, run, zero) };
    let mut second = || -> Result<Words, Memory>
        requires { CanOpen S.held plan.now run chain.now one.now.items }
        ensures { GivesOpening S.held S.visited plan.entry.now run
            (views_of keys.entry.now) chain.entry.now 1 one.entry.now.items one.exit.now.items result }
    { opening_part(alloc, plan, keys, chain, 1, run, one) };
    let mut third = || -> Result<Words, Memory>
        requires { CanOpen S.held plan.now run chain.now two.now.items }
        ensures { GivesOpening S.held S.visited plan.entry.now run
            (views_of keys.entry.now) chain.entry.now 2 two.entry.now.items two.exit.now.items result }
    { opening_part(alloc, plan, keys, chain, 2, run, two) };
    join_three(rt, &mut first, &mut second, &mut third)
}

/// The words of the three servers, where each had memory.
pub fn all_three(
    zero: Result<Words, Memory>,
    others: (Result<Words, Memory>, Result<Words, Memory>),
) -> Result<Trio, Memory>
    ensures { IfOk result (AreAll zero others.0 others.1) }
{
    let (one, two) = others;
    Ok(Trio {
        zero: zero?,
        one: one?,
        two: two?,
    })
}
