//! What the three servers make in a step after the products of the bits: made side by side where each has several shelves, else
//! one after another.
ghost use Rattle.server_rounds.specs.Plans.{views_of};
ghost use Rattle.bucket_groups.specs.AtOnce.{CanGroup, CanValue, GivesBuckets, GivesValues};

use crate::part::{bucket_part, value_part};
use ring128::{Memory, Words};
use scan_chunks::Shelf;
use server_rounds::{Held, Ready, join_three};
use std::alloc::Global;
use std::thread::Threads;

/// The numbers of the products with the values, without their parts of zero.
pub(crate) fn values_at_once<R: Threads + Sync, S: Shelf + Send>(
    rt: &R,
    alloc: Global,
    ready: &Ready,
    chain: &Held,
    zero: &mut Vec<S>,
    one: &mut Vec<S>,
    two: &mut Vec<S>,
) -> (
    Result<Words, Memory>,
    (Result<Words, Memory>, Result<Words, Memory>),
)
    requires zero { CanValue S.held ready.now.plan chain.now zero.old.items }
    requires one { CanValue S.held ready.now.plan chain.now one.old.items }
    requires two { CanValue S.held ready.now.plan chain.now two.old.items }
    ensures zero { GivesValues S.held S.visited ready.now.plan chain.now 0 zero.old.items zero.new.items result.0 }
    ensures one { GivesValues S.held S.visited ready.now.plan chain.now 1 one.old.items one.new.items result.1.0 }
    ensures two { GivesValues S.held S.visited ready.now.plan chain.now 2 two.old.items two.new.items result.1.1 }
{
    if zero.len() < 2 {
        let first = value_part(alloc, ready, 0, zero, chain);
        let second = value_part(alloc, ready, 1, one, chain);
        let third = value_part(alloc, ready, 2, two, chain);
        return (first, (second, third));
    }
    let mut first = || -> Result<Words, Memory>
        requires { CanValue S.held ready.now.plan chain.now zero.now.items }
        ensures { GivesValues S.held S.visited ready.entry.now.plan chain.entry.now 0 zero.entry.now.items zero.exit.now.items result }
    { value_part(alloc, ready, 0, zero, chain) };
    let mut second = || -> Result<Words, Memory>
        requires { CanValue S.held ready.now.plan chain.now one.now.items }
        ensures { GivesValues S.held S.visited ready.entry.now.plan chain.entry.now 1 one.entry.now.items one.exit.now.items result }
    { value_part(alloc, ready, 1, one, chain) };
    let mut third = || -> Result<Words, Memory>
        requires { CanValue S.held ready.now.plan chain.now two.now.items }
        ensures { GivesValues S.held S.visited ready.entry.now.plan chain.entry.now 2 two.entry.now.items two.exit.now.items result }
    { value_part(alloc, ready, 2, two, chain) };
    join_three(rt, &mut first, &mut second, &mut third)
}

/// The words of the openings, one a bucket.
pub(crate) fn buckets_at_once<R: Threads + Sync, S: Shelf + Send>(
    rt: &R,
    alloc: Global,
    ready: &Ready,
    held: &Held,
    column: u8,
    run: u8,
    zero: &mut Vec<S>,
    one: &mut Vec<S>,
    two: &mut Vec<S>,
) -> (
    Result<Words, Memory>,
    (Result<Words, Memory>, Result<Words, Memory>),
)
    requires zero { CanGroup S.held ready.now.plan column run held.now zero.old.items }
    requires one { CanGroup S.held ready.now.plan column run held.now one.old.items }
    requires two { CanGroup S.held ready.now.plan column run held.now two.old.items }
    ensures zero { GivesBuckets S.held S.visited ready.now.plan column run (views_of ready.now.keys) held.now 0
        zero.old.items zero.new.items result.0 }
    ensures one { GivesBuckets S.held S.visited ready.now.plan column run (views_of ready.now.keys) held.now 1
        one.old.items one.new.items result.1.0 }
    ensures two { GivesBuckets S.held S.visited ready.now.plan column run (views_of ready.now.keys) held.now 2
        two.old.items two.new.items result.1.1 }
{
    if zero.len() < 2 {
        let first = bucket_part(alloc, ready, 0, zero, held, column, run);
        let second = bucket_part(alloc, ready, 1, one, held, column, run);
        let third = bucket_part(alloc, ready, 2, two, held, column, run);
        return (first, (second, third));
    }
    let mut first = || -> Result<Words, Memory>
        requires { CanGroup S.held ready.now.plan column run held.now zero.now.items }
        ensures { GivesBuckets S.held S.visited ready.entry.now.plan column run (views_of ready.entry.now.keys) held.entry.now 0
            zero.entry.now.items zero.exit.now.items result }
    { bucket_part(alloc, ready, 0, zero, held, column, run) };
    let mut second = || -> Result<Words, Memory>
        requires { CanGroup S.held ready.now.plan column run held.now one.now.items }
        ensures { GivesBuckets S.held S.visited ready.entry.now.plan column run (views_of ready.entry.now.keys) held.entry.now 1
            one.entry.now.items one.exit.now.items result }
    { bucket_part(alloc, ready, 1, one, held, column, run) };
    let mut third = || -> Result<Words, Memory>
        requires { CanGroup S.held ready.now.plan column run held.now two.now.items }
        ensures { GivesBuckets S.held S.visited ready.entry.now.plan column run (views_of ready.entry.now.keys) held.entry.now 2
            two.entry.now.items two.exit.now.items result }
    { bucket_part(alloc, ready, 2, two, held, column, run) };
    join_three(rt, &mut first, &mut second, &mut third)
}
