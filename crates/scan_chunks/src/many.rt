ghost use denote.Param.Send.{IsSend, IsSync};
ghost use Rattle.std.specs.Prelude.{◌≡◌, ◌<◌, ◌≤◌, ◌++◌, length, IfOk, OnOk, OnErr, All};
ghost use Rattle.std.specs.List.{AllZip, flat_map};
ghost use Rattle.scan_chunks.specs.Halves.{AreJoined, AreReady, Scans, ScansBoth};
ghost use Rattle.scan_chunks.specs.Scan.{scan_of, visits_of, VisitsPart};

use crate::scan::append_scan;
use crate::shelf::Shelf;
use crate::tables::Tables;
use ring128::{Memory, Words};
use std::alloc::Global;
use std::thread::{Threads, join_mut};

/// The scans of some shelves, one after another in the result, each in a thread of its own where one can be made. Each chunk of the
/// column of each shelf is visited once, rising. The only error is out of memory; each shelf's visits are then the first of its own.
pub fn scan_many<R: Threads + Sync, S: Shelf + Send>(
    rt: &R,
    alloc: Global,
    shelves: &mut [S],
    column: u8,
    tables: &Tables,
) -> Result<Words, Memory>
    requires column { All (λ s. column ≤ (S.held s).columns) shelves.old }
    requires zero { All (λ s. length tables.now.zero ≡ (S.held s).width column) shelves.old }
    requires one { All (λ s. length tables.now.one ≡ (S.held s).width column) shelves.old }
    ensures held { AllZip (λ s t. S.held t ≡ S.held s) shelves.old shelves.new }
    ensures numbers { IfOk result (λ w. w ≡ flat_map (λ s. scan_of (S.held s) column tables.now.zero tables.now.one) shelves.old) }
    ensures visits { OnOk result (AllZip (λ s t. S.visited t ≡ S.visited s ++ visits_of (S.held s) column) shelves.old shelves.new) }
    ensures part { OnErr result (AllZip (λ s t. VisitsPart (S.visited s) (S.visited t) (visits_of (S.held s) column))
        shelves.old shelves.new) }
{
    scan_halves(rt, alloc, column, tables, shelves)
}

// The list is halved at each step and one half goes to a new thread, down to a shelf a thread. The shelves are the last parameter, so
// that a closure reads what else it captured before it lends them.
#[cycle(halves)]
fn scan_halves<R: Threads + Sync, S: Shelf + Send>(
    rt: &R,
    alloc: Global,
    column: u8,
    tables: &Tables,
    shelves: &mut [S],
) -> Result<Words, Memory>
    requires { AreReady S.held column tables.now.zero tables.now.one shelves.old }
    ensures { Scans S.held S.visited column tables.now.zero tables.now.one shelves.old shelves.new result }
{
    if shelves.len() < 2 {
        return scan_in_turn(alloc, column, tables, shelves);
    }
    let (front, back) = shelves.split_at_mut(shelves.len() / 2);
    scan_both(rt, alloc, column, tables, front, back)
}

// A separate function from `scan_halves`, so that what the closures require is what this function is given.
#[cycle(halves)]
fn scan_both<R: Threads + Sync, S: Shelf + Send>(
    rt: &R,
    alloc: Global,
    column: u8,
    tables: &Tables,
    front: &mut [S],
    back: &mut [S],
) -> Result<Words, Memory>
    requires some { 0 < length front.old }
    requires more { 0 < length back.old }
    requires front { AreReady S.held column tables.now.zero tables.now.one front.old }
    requires back { AreReady S.held column tables.now.zero tables.now.one back.old }
    ensures { ScansBoth S.held S.visited column tables.now.zero tables.now.one front.old front.new back.old back.new result }
{
    let mut first = || -> Result<Words, Memory>
        requires { IsSync R.row × IsSend S.row × AreReady S.held column tables.now.zero tables.now.one front.now }
        ensures { Scans S.held S.visited column tables.entry.now.zero tables.entry.now.one front.entry.now front.exit.now result }
    { scan_halves(rt, alloc, column, tables, front) };
    let mut second = || -> Result<Words, Memory>
        requires { IsSync R.row × IsSend S.row × AreReady S.held column tables.now.zero tables.now.one back.now }
        ensures { Scans S.held S.visited column tables.entry.now.zero tables.entry.now.one back.entry.now back.exit.now result }
    { scan_halves(rt, alloc, column, tables, back) };
    let (a, b) = join_mut(rt, &mut first, &mut second);
    joined(a, b)
}

// The numbers of one scan and of another one after it, where both had memory.
fn joined(front: Result<Words, Memory>, back: Result<Words, Memory>) -> Result<Words, Memory>
    ensures { IfOk result (AreJoined front back) }
{
    let back = back?;
    let mut numbers = front?.into_vec();
    numbers.extend_from_slice(back.as_slice())?;
    Ok(Words::from_vec(numbers))
}

// The scans of some shelves in one thread.
fn scan_in_turn<S: Shelf>(
    alloc: Global,
    column: u8,
    tables: &Tables,
    shelves: &mut [S],
) -> Result<Words, Memory>
    requires column { All (λ s. column ≤ (S.held s).columns) shelves.old }
    requires zero { All (λ s. length tables.now.zero ≡ (S.held s).width column) shelves.old }
    requires one { All (λ s. length tables.now.one ≡ (S.held s).width column) shelves.old }
    ensures held { AllZip (λ s t. S.held t ≡ S.held s) shelves.old shelves.new }
    ensures numbers { IfOk result (λ w. w ≡ flat_map (λ s. scan_of (S.held s) column tables.now.zero tables.now.one) shelves.old) }
    ensures visits { OnOk result (AllZip (λ s t. S.visited t ≡ S.visited s ++ visits_of (S.held s) column) shelves.old shelves.new) }
    ensures part { OnErr result (AllZip (λ s t. VisitsPart (S.visited s) (S.visited t) (visits_of (S.held s) column))
        shelves.old shelves.new) }
{
    let mut numbers = Vec::new(alloc);
    for i in 0..shelves.len() {
        append_scan(&mut numbers, &mut shelves[i], column, tables)?;
    }
    Ok(Words::from_vec(numbers))
}
