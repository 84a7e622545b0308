ghost use Rattle.std.specs.Prelude.{◌≡◌, ◌≤◌, IfOk};
ghost use Rattle.prefix_log.specs.Logs.{IsOwn, empty_log};

use super::*;
use onehot_column::{Piece, pieces};
use prg_chacha::Seed;
use ring128::{Memory, Words};
use scan_chunks::{Shelf, Tables, scan_one};
use std::alloc::Global;
use std::process::Abort;
use table_schema::{Row, Widths};

const WIDTHS: Widths = Widths {
    columns: 1,
    bits: [1, 0, 0, 0, 0, 0],
};

// Server 0's piece of a row with bucket 1.
fn piece<R: Abort>(rt: &R, alloc: Global, widths: &Widths, n: u32) -> Result<Piece, Memory>
    ensures { IfOk result (λ p. IsOwn 0 widths.now p) }
{
    let row = Row {
        columns: 1,
        buckets: [1, 0, 0, 0, 0, 0],
        value: i64::from(n),
    };
    assert!(rt; widths.holds(&row));
    let seed = Seed { words: [n; 8] };
    Ok(pieces(alloc, widths, &row, &seed)?.zero)
}

// Server 0's log.
fn log<R: Abort>(rt: &R, alloc: Global, widths: &Widths, capacity: u32) -> Result<ServerLog, Memory>
    ensures { IfOk result (λ l. l ≡ empty_log 0 widths.now capacity) }
{
    assert!(rt; widths.fits(capacity));
    ServerLog::new(alloc, 0, widths, capacity)
}

// Puts a piece at each place from one to below another.
fn fill<R: Abort>(
    rt: &R,
    alloc: Global,
    widths: &Widths,
    log: &mut ServerLog,
    from: u32,
    to: u32,
) -> Result<(), Memory>
    requires server { log.old.server ≡ 0 }
    requires widths { log.old.widths ≡ widths.now }
    requires room { to ≤ log.old.capacity }
    ensures server { log.new.server ≡ 0 }
    ensures widths { log.new.widths ≡ widths.now }
    ensures capacity { log.new.capacity ≡ log.old.capacity }
{
    for n in from..to {
        log.place(u64::from(n), piece(rt, alloc, widths, n)?);
    }
    Ok(())
}

// What may go to another thread.
fn sent<S: Send>(shared: S) -> S
    ensures { result ≡ shared }
{
    shared
}

// The numbers of a scan of the first column.
fn scan<R: Abort>(rt: &R, alloc: Global, snapshot: &mut Snapshot) -> Result<Words, Memory> {
    assert!(rt; snapshot.width(0) == 2);
    let tables = Tables {
        zero: Words::from_vec(vec![in alloc; 1, 10]?),
        one: Words::from_vec(vec![in alloc; 100, 1000]?),
    };
    scan_one(alloc, snapshot, 0, &tables)
}

#[test]
fn a_place_keeps_its_first_piece(rt: HostRuntime) -> Result<(), Memory> {
    let alloc = rt.alloc();
    let mut log = log(&rt, alloc, &WIDTHS, 4)?;
    log.place(1, piece(&rt, alloc, &WIDTHS, 1)?);
    assert_eq!(rt; log.prefix(), 0);
    log.place(0, piece(&rt, alloc, &WIDTHS, 2)?);
    assert_eq!(rt; log.prefix(), 2);
    let before = scan(&rt, alloc, &mut log.fix(alloc)?)?;
    log.place(0, piece(&rt, alloc, &WIDTHS, 3)?);
    assert_eq!(rt; log.prefix(), 2);
    let mut snapshot = log.fix(alloc)?;
    assert_eq!(rt; (snapshot.rows(), snapshot.first()), (2, 0));
    let after = scan(&rt, alloc, &mut snapshot)?;
    assert_eq!(rt; before.as_slice(), after.as_slice());
    assert_eq!(rt; snapshot.rows(), 2);
    assert_eq!(rt; snapshot.start(), 0);
    snapshot.cut(0, 1);
    assert_eq!(rt; (snapshot.rows(), snapshot.visits().len()), (1, 1));
    let cut = scan(&rt, alloc, &mut snapshot)?;
    assert!(rt; after.as_slice().starts_with(cut.as_slice()) && cut.len() == 1);
    Ok(())
}

#[test]
fn the_parts_of_65_rows_have_64_and_1(rt: HostRuntime) -> Result<(), Memory> {
    let alloc = rt.alloc();
    let widths = WIDTHS;
    let mut log = log(&rt, alloc, &widths, 65)?;
    fill(&rt, alloc, &widths, &mut log, 0, 65)?;
    let mut snapshot = sent(log.fix(alloc)?);
    let mut parts = snapshot.parts(alloc, 2)?;
    assert_eq!(rt; (parts[0].rows(), parts[0].first()), (64, 0));
    assert_eq!(rt; (parts[1].rows(), parts[1].first()), (1, 1));
    let whole = scan(&rt, alloc, &mut snapshot)?;
    let first = scan(&rt, alloc, &mut parts[0])?;
    let second = scan(&rt, alloc, &mut parts[1])?;
    assert!(rt; whole.len() == 65 && first.len() == 64 && second.len() == 1);
    assert!(rt; whole.as_slice().starts_with(first.as_slice()));
    assert!(rt; whole.as_slice().ends_with(second.as_slice()));
    Ok(())
}

#[test]
fn a_snapshot_stays_as_it_was(rt: HostRuntime) -> Result<(), Memory> {
    let alloc = rt.alloc();
    let widths = WIDTHS;
    let mut log = sent(log(&rt, alloc, &widths, 129)?);
    fill(&rt, alloc, &widths, &mut log, 0, 65)?;
    let mut first = log.fix(alloc)?;
    let before = scan(&rt, alloc, &mut first)?;
    fill(&rt, alloc, &widths, &mut log, 65, 129)?;
    let mut second = log.fix(alloc)?;
    assert_eq!(rt; (first.rows(), second.rows()), (65, 129));
    let after = scan(&rt, alloc, &mut first)?;
    assert_eq!(rt; before.as_slice(), after.as_slice());
    let all = scan(&rt, alloc, &mut second)?;
    assert!(rt; all.len() == 129 && all.as_slice().starts_with(before.as_slice()));
    Ok(())
}

#[test]
fn whole_chunks_below_the_prefix_are_retired(rt: HostRuntime) -> Result<(), Memory> {
    let alloc = rt.alloc();
    let widths = WIDTHS;
    let mut log = log(&rt, alloc, &widths, 130)?;
    fill(&rt, alloc, &widths, &mut log, 0, 129)?;
    assert_eq!(rt;
        (log.retire(63), log.retire(64), log.retire(65)),
        (0, 64, 64)
    );
    assert_eq!(rt; (log.retire(64), log.start()), (64, 64));
    assert!(rt; log.journal().ends_with(&[128, 4_294_967_360]));
    assert_eq!(rt; (log.retire(1000), log.prefix()), (128, 129));
    assert!(rt; log.journal().ends_with(&[4_294_967_360, 4_294_967_424]));
    let mut snapshot = log.fix(alloc)?;
    assert_eq!(rt;
        (snapshot.start(), snapshot.rows(), snapshot.first()),
        (128, 1, 0)
    );
    assert_eq!(rt; scan(&rt, alloc, &mut snapshot)?.len(), 1);
    Ok(())
}

#[test]
fn all_rows_are_retired(rt: HostRuntime) -> Result<(), Memory> {
    let alloc = rt.alloc();
    let widths = WIDTHS;
    let mut log = log(&rt, alloc, &widths, 65)?;
    fill(&rt, alloc, &widths, &mut log, 0, 64)?;
    assert_eq!(rt; (log.retire(64), log.prefix()), (64, 64));
    let none = log.fix(alloc)?;
    assert_eq!(rt; (none.start(), none.rows()), (64, 0));
    fill(&rt, alloc, &widths, &mut log, 0, 65)?;
    assert_eq!(rt;
        (log.start(), log.prefix(), log.journal().len()),
        (64, 65, 66)
    );
    let one = log.fix(alloc)?;
    assert_eq!(rt; (one.start(), one.rows()), (64, 1));
    Ok(())
}

#[test]
fn a_snapshot_stays_while_its_log_retires(rt: HostRuntime) -> Result<(), Memory> {
    let alloc = rt.alloc();
    let widths = WIDTHS;
    let mut log = log(&rt, alloc, &widths, 65)?;
    fill(&rt, alloc, &widths, &mut log, 0, 65)?;
    let mut snapshot = log.fix(alloc)?;
    let before = scan(&rt, alloc, &mut snapshot)?;
    assert_eq!(rt; log.retire(64), 64);
    let after = scan(&rt, alloc, &mut snapshot)?;
    assert_eq!(rt; before.len(), 65);
    assert_eq!(rt; before.as_slice(), after.as_slice());
    let last = scan(&rt, alloc, &mut log.fix(alloc)?)?;
    assert_eq!(rt; last.len(), 1);
    assert!(rt; before.as_slice().ends_with(last.as_slice()));
    assert_eq!(rt; snapshot.rows(), 65);
    assert_eq!(rt; snapshot.start(), 0);
    snapshot.cut(64, 65);
    assert_eq!(rt; (snapshot.start(), snapshot.first()), (64, 0));
    let cut = scan(&rt, alloc, &mut snapshot)?;
    assert_eq!(rt; cut.as_slice(), last.as_slice());
    Ok(())
}

#[test]
fn the_parts_start_where_their_rows_do(rt: HostRuntime) -> Result<(), Memory> {
    let alloc = rt.alloc();
    let widths = WIDTHS;
    let mut log = log(&rt, alloc, &widths, 193)?;
    fill(&rt, alloc, &widths, &mut log, 0, 193)?;
    assert_eq!(rt; log.retire(64), 64);
    let parts = log.fix(alloc)?.parts(alloc, 4)?;
    assert_eq!(rt; (parts[0].start(), parts[1].start()), (64, 128));
    assert_eq!(rt; (parts[2].start(), parts[3].start()), (192, 193));
    assert_eq!(rt; (parts[2].rows(), parts[3].rows()), (1, 0));
    Ok(())
}

#[test]
fn the_prefix_is_found_place_by_place(rt: HostRuntime) {
    assert_eq!(rt; prefix_of(&[]), 0);
    assert_eq!(rt; prefix_of(&[1]), 0);
    assert_eq!(rt; prefix_of(&[1, 0]), 2);
    assert_eq!(rt; prefix_of(&[0, 2, 5]), 1);
    assert_eq!(rt; prefix_of(&[2, 0, 1]), 3);
}
