ghost use Rattle.std.specs.Prelude.{◌≡◌, ◌+◌, ◌<◌, ◌++◌, ◌∷◌, [], true, false, IfOk, IsTrue, MatchResult, length};
ghost use mathlib.Core.List.{IsPrefix};

use crate::{JournalLock, Journaled, Seat};
use std::alloc::AllocError;
use std::process::Abort;
use std::sync::Wait;
use std::test::*;
use std::thread::{Threads, join};

#[derive(Drop)]
struct Notebook {
    owner: u8,
    lines: Vec<u64>,
}

impl Journaled for Notebook {
    type Tag = u8;

    ghost journal = { λ n. n.lines.items };

    ghost tag = { λ n. n.owner };

    fn count(&self) -> u64 {
        self.lines.len() as u64
    }
}

impl Notebook {
    fn write(&mut self, line: u64) -> Result<(), AllocError>
        ensures owner { self.new.owner ≡ self.old.owner }
        ensures lines { MatchResult result (λ _. self.new.lines.items ≡ self.old.lines.items ++ line ∷ [])
            (λ _. self.new.lines.items ≡ self.old.lines.items) }
    {
        self.lines.push(line)?;
        Ok(())
    }

    fn times(&self, line: u64) -> usize {
        self.lines.iter().filter(|l| **l == line).count()
    }
}

// One entry more, or none where there is no memory.
fn append<R: Wait>(
    rt: &R,
    lock: &JournalLock<Notebook>,
    seat: &mut Seat<Notebook>,
    line: u64,
) -> Result<(), AllocError>
    requires { (seat.old.lock ≡ lock.now.id) × (seat.old.holds ≡ false) }
    ensures seat { (seat.new.lock ≡ lock.now.id) × (seat.new.holds ≡ false) }
    ensures looks { seat.new.looks ≡ seat.old.looks + 1 }
    ensures grown { IsPrefix seat.old.seen seat.new.seen }
    ensures last { IfOk result (λ _. (before : _) × (seat.new.seen ≡ before ++ line ∷ [])) }
{
    let mut held = lock.take(rt, seat);
    let written = held.value_mut().write(line);
    lock.give(seat, held);
    written
}

// How often the line stands in the journal, at one look.
fn times<R: Wait>(
    rt: &R,
    lock: &JournalLock<Notebook>,
    seat: &mut Seat<Notebook>,
    line: u64,
) -> usize
    requires { (seat.old.lock ≡ lock.now.id) × (seat.old.holds ≡ false) }
    ensures seat { (seat.new.lock ≡ lock.now.id) × (seat.new.holds ≡ false) }
    ensures looks { seat.new.looks ≡ seat.old.looks + 1 }
    ensures grown { IsPrefix seat.old.seen seat.new.seen }
{
    let held = lock.take(rt, seat);
    let times = held.value().times(line);
    lock.give(seat, held);
    times
}

// Whether a try failed. The value goes back at once.
fn fails(lock: &JournalLock<Notebook>, seat: &mut Seat<Notebook>) -> bool
    requires { (seat.old.lock ≡ lock.now.id) × (seat.old.holds ≡ false) }
    ensures seat { (seat.new.lock ≡ lock.now.id) × (seat.new.holds ≡ false) }
    ensures tries { result ≡ true → seat.new.tries ≡ seat.old.tries + 1 }
    ensures looks { result ≡ false → seat.new.looks ≡ seat.old.looks + 1 }
{
    match lock.try_take(seat) {
        Some(held) => {
            lock.give(seat, held);
            false
        }
        None => true,
    }
}

// A takes, B tries, A gives, B tries.
fn tries_of_two<R: Wait>(
    rt: &R,
    lock: &JournalLock<Notebook>,
    a: &mut Seat<Notebook>,
) -> (bool, bool)
    requires { (a.old.lock ≡ lock.now.id) × (a.old.holds ≡ false) }
    ensures { (a.new.lock ≡ lock.now.id) × (a.new.holds ≡ false) }
{
    let mut b = lock.split(a);
    let held = lock.take(rt, a);
    let first = fails(lock, &mut b);
    lock.give(a, held);
    let second = fails(lock, &mut b);
    lock.join(a, b);
    (first, second)
}

fn many<R: Wait>(
    rt: &R,
    lock: &JournalLock<Notebook>,
    mut seat: Seat<Notebook>,
    line: u64,
) -> Seat<Notebook>
    requires { (seat.lock ≡ lock.now.id) × (seat.holds ≡ false) }
    ensures { (result.lock ≡ lock.now.id) × (result.holds ≡ false) }
{
    for _ in 0..100u8 {
        let _ = append(rt, lock, &mut seat, line);
    }
    seat
}

// A hundred lines from each of two threads.
fn two_threads<R: Wait + Threads + Sync>(
    rt: &R,
    lock: &JournalLock<Notebook>,
    seat: &mut Seat<Notebook>,
)
    requires { (seat.old.lock ≡ lock.now.id) × (seat.old.holds ≡ false) }
    ensures { (seat.new.lock ≡ lock.now.id) × (seat.new.holds ≡ false) }
{
    let a = lock.split(seat);
    let b = lock.split(seat);
    let (a, b) = join(
        rt,
        || -> Seat<Notebook>
            requires { (a.lock ≡ lock.now.id) × (a.holds ≡ false) }
            ensures { (result.lock ≡ lock.entry.now.id) × (result.holds ≡ false) }
        { many(rt, lock, a, 1) },
        || -> Seat<Notebook>
            requires { (b.lock ≡ lock.now.id) × (b.holds ≡ false) }
            ensures { (result.lock ≡ lock.entry.now.id) × (result.holds ≡ false) }
        { many(rt, lock, b, 2) },
    );
    lock.join(seat, a);
    lock.join(seat, b);
}

#[test]
fn every_call(rt: HostRuntime) -> Result<(), Fail> {
    let notebook = Notebook {
        owner: 7,
        lines: Vec::new(rt.alloc()),
    };
    let (lock, mut seat) = JournalLock::new(rt.alloc(), notebook)?;

    let mut early = lock.split(&mut seat);
    append(&rt, &lock, &mut seat, 5)?;
    assert_eq!(rt; times(&rt, &lock, &mut early, 5), 1);
    assert_eq!(rt; times(&rt, &lock, &mut seat, 5), 1);

    assert_eq!(rt; tries_of_two(&rt, &lock, &mut seat), (true, false));

    two_threads(&rt, &lock, &mut seat);
    assert_eq!(rt; times(&rt, &lock, &mut early, 1), 100);
    assert_eq!(rt; times(&rt, &lock, &mut early, 2), 100);
    assert_eq!(rt; times(&rt, &lock, &mut early, 5), 1);
    Ok(())
}
