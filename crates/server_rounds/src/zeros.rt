//! Parts of zero at the three servers, which several threads add to their numbers.
ghost use denote.Param.Send.{IsSync};
ghost use Rattle.std.specs.Prelude.{◌≡◌, ◌<◌, ◌+◌, length};
ghost use Rattle.server_rounds.specs.Groups.{AsLong};
ghost use Rattle.server_rounds.specs.Zeros.{AreZeroed, BothZeroed, CanZero, zeroed};

use crate::carry::Trio;
use crate::keys::ThreeKeys;
use crate::part::seeds_of;
use crate::ready::Ready;
use ring128::Words;
use std::thread::{Threads, join_mut};
use zero_share::add_parts_of_three;

// Shorter lists than this are not cut: to start a thread takes as long as some thousand parts of zero.
const LEAST: usize = 4096;

/// The numbers of the three servers, each with its part of zero, whose counters begin at `start`. The rows are cut into `parts`
/// stretches, each in a thread of its own where one can be made.
pub(crate) fn with_three_zeros<R: Threads + Sync>(
    rt: &R,
    keys: &ThreeKeys,
    start: u64,
    parts: usize,
    numbers: Trio,
) -> Trio
    requires { CanZero start numbers.zero numbers.one numbers.two }
    ensures long { AsLong result.zero result.one result.two numbers.zero numbers.one numbers.two }
    ensures zero { result.zero ≡ zeroed keys.now.zero start numbers.zero }
    ensures one { result.one ≡ zeroed keys.now.one start numbers.one }
    ensures two { result.two ≡ zeroed keys.now.two start numbers.two }
{
    let mut zero = numbers.zero.into_vec();
    let mut one = numbers.one.into_vec();
    let mut two = numbers.two.into_vec();
    add_stretches(
        rt,
        keys,
        start,
        parts,
        zero.as_mut_slice(),
        one.as_mut_slice(),
        two.as_mut_slice(),
    );
    Trio {
        zero: Words::from_vec(zero),
        one: Words::from_vec(one),
        two: Words::from_vec(two),
    }
}

impl Ready {
    /// The numbers of the three servers, each with its part of zero, whose counters begin at `start`: all three are of one length. The
    /// rows are cut into `parts` stretches, each in a thread of its own where one can be made.
    pub fn with_three_zeros<R: Threads + Sync>(
        &self,
        rt: &R,
        start: u64,
        parts: usize,
        numbers: Trio,
    ) -> Trio
        requires { CanZero start numbers.zero numbers.one numbers.two }
        ensures long { AsLong result.zero result.one result.two numbers.zero numbers.one numbers.two }
        ensures zero { result.zero ≡ zeroed self.now.keys.zero start numbers.zero }
        ensures one { result.one ≡ zeroed self.now.keys.one start numbers.one }
        ensures two { result.two ≡ zeroed self.now.keys.two start numbers.two }
    {
        with_three_zeros(rt, &self.keys, start, parts, numbers)
    }
}

// The stretches are halved at each step and one half goes to a new thread, down to a stretch a thread.
#[cycle(stretches)]
fn add_stretches<R: Threads + Sync>(
    rt: &R,
    keys: &ThreeKeys,
    start: u64,
    parts: usize,
    zero: &mut [u128],
    one: &mut [u128],
    two: &mut [u128],
)
    requires { CanZero start zero.old one.old two.old }
    ensures { AreZeroed keys.now start zero.old one.old two.old zero.new one.new two.new }
{
    if parts < 2 || zero.len() < LEAST {
        let (own, next, last) = (
            seeds_of(&keys.zero),
            seeds_of(&keys.one),
            seeds_of(&keys.two),
        );
        add_parts_of_three(&own, &next, &last, start, zero, one, two);
        return;
    }
    let near = parts / 2;
    let cut = zero.len() / parts * near;
    let (zero, zero_rest) = zero.split_at_mut(cut);
    let (one, one_rest) = one.split_at_mut(cut);
    let (two, two_rest) = two.split_at_mut(cut);
    let parts = (near, parts - near);
    add_both(
        rt, keys, start, parts, zero, one, two, zero_rest, one_rest, two_rest,
    );
}

// A separate function from `add_stretches`, so that what the closures require is what this function is given.
#[cycle(stretches)]
fn add_both<R: Threads + Sync>(
    rt: &R,
    keys: &ThreeKeys,
    start: u64,
    parts: (usize, usize),
    zero: &mut [u128],
    one: &mut [u128],
    two: &mut [u128],
    zero_rest: &mut [u128],
    one_rest: &mut [u128],
    two_rest: &mut [u128],
)
    requires some { 0 < parts.0 }
    requires more { 0 < parts.1 }
    requires front { CanZero start zero.old one.old two.old }
    requires back { CanZero (start + length zero.old) zero_rest.old one_rest.old two_rest.old }
    ensures { BothZeroed keys.now start zero.old one.old two.old zero.new one.new two.new
        zero_rest.old one_rest.old two_rest.old zero_rest.new one_rest.new two_rest.new }
{
    let later = start + zero.len() as u64;
    let (front, back) = parts;
    let mut first = || -> ()
        requires { IsSync R.row × CanZero start zero.now one.now two.now }
        ensures { AreZeroed keys.entry.now start zero.entry.now one.entry.now two.entry.now zero.exit.now one.exit.now two.exit.now }
    { add_stretches(rt, keys, start, front, zero, one, two) };
    let mut second = || -> ()
        requires { IsSync R.row × CanZero later zero_rest.now one_rest.now two_rest.now }
        ensures { AreZeroed keys.entry.now later zero_rest.entry.now one_rest.entry.now two_rest.entry.now
            zero_rest.exit.now one_rest.exit.now two_rest.exit.now }
    { add_stretches(rt, keys, later, back, zero_rest, one_rest, two_rest) };
    join_mut(rt, &mut first, &mut second);
}
