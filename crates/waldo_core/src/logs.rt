//! The logs of the three servers.
ghost use denote.Param.Send.{IsSync};
ghost use Rattle.std.specs.Prelude.{◌≡◌, ◌<◌, ◌≤◌, All, IfOk, OnErr, OnOk, length};
ghost use Rattle.std.specs.Option.{ForSome};
ghost use Rattle.table_schema.specs.Widths.{Fits, Holds, column_bits};
ghost use Rattle.prefix_log.specs.Bulk.{TakesRows};
ghost use Rattle.waldo_core.specs.InBulk.{IsBlank};
ghost use Rattle.prefix_log.specs.Journal.{HasNoMark, prefix as prefix_in};
ghost use Rattle.prefix_log.specs.Logs.{IsLog, IsOwn, empty_log};
ghost use Rattle.agreed_rows.specs.Servers.{IsFixOf};
ghost use Rattle.waldo_core.specs.Held.{log_of, with_piece};

use onehot_column::Piece;
use prefix_log::{Entry, ServerLog, Snapshot, append_rows};
use ring128::Memory;
use scan_chunks::Shelf;
use std::alloc::Global;
use std::thread::{Threads, join};
use table_schema::Widths;

/// The logs of servers 0, 1 and 2.
#[derive(Drop)]
pub(crate) struct Logs {
    pub zero: ServerLog,
    pub one: ServerLog,
    pub two: ServerLog,
}

impl Logs {
    /// Logs without pieces. The only error is out of memory.
    pub(crate) fn new(alloc: Global, widths: &Widths, capacity: u32) -> Result<Logs, Memory>
        requires { Fits (column_bits widths.now) capacity }
        ensures zero { IfOk result (λ logs. logs.zero ≡ empty_log 0 widths.now capacity) }
        ensures one { IfOk result (λ logs. logs.one ≡ empty_log 1 widths.now capacity) }
        ensures two { IfOk result (λ logs. logs.two ≡ empty_log 2 widths.now capacity) }
    {
        Ok(Logs {
            zero: ServerLog::new(alloc, 0, widths, capacity)?,
            one: ServerLog::new(alloc, 1, widths, capacity)?,
            two: ServerLog::new(alloc, 2, widths, capacity)?,
        })
    }

    /// The same. Where there are several workers, each log is made in a thread of its own if one can be made, which then is the first to
    /// touch its memory.
    pub(crate) fn by_workers<R: Threads + Sync>(
        rt: &R,
        alloc: Global,
        widths: &Widths,
        capacity: u32,
        workers: u8,
    ) -> Result<Logs, Memory>
        requires { Fits (column_bits widths.now) capacity }
        ensures zero { IfOk result (λ logs. logs.zero ≡ empty_log 0 widths.now capacity) }
        ensures one { IfOk result (λ logs. logs.one ≡ empty_log 1 widths.now capacity) }
        ensures two { IfOk result (λ logs. logs.two ≡ empty_log 2 widths.now capacity) }
    {
        if workers < 2 {
            return Logs::new(alloc, widths, capacity);
        }
        let (zero, (one, two)) = side_by_side(rt, alloc, widths, capacity);
        Ok(Logs {
            zero: zero?,
            one: one?,
            two: two?,
        })
    }

    /// Takes as many rows as there are places, in logs without pieces. The only error is out of memory; the logs then stay.
    pub(crate) fn append_rows<R: Threads + Sync>(
        &mut self,
        rt: &R,
        alloc: Global,
        widths: &Widths,
        entries: &[Entry],
        workers: usize,
    ) -> Result<(), Memory>
        requires some { 0 < workers }
        requires small { length entries.now ≤ 65536 }
        requires held { All (λ e. Holds widths.now e.row) entries.now }
        requires zero { IsBlank 0 widths.now (length entries.now) self.old.zero }
        requires one { IsBlank 1 widths.now (length entries.now) self.old.one }
        requires two { IsBlank 2 widths.now (length entries.now) self.old.two }
        ensures zero { OnOk result (TakesRows widths.now 0 entries.now self.new.zero) }
        ensures one { OnOk result (TakesRows widths.now 1 entries.now self.new.one) }
        ensures two { OnOk result (TakesRows widths.now 2 entries.now self.new.two) }
        ensures stays { OnErr result (self.new ≡ self.old) }
    {
        self.zero.prefix();
        self.one.prefix();
        self.two.prefix();
        append_rows(
            rt,
            alloc,
            widths,
            entries,
            workers,
            &mut self.zero,
            &mut self.one,
            &mut self.two,
        )
    }

    /// How many of the first places a server has.
    pub(crate) fn prefix(&self, server: u8) -> u64
        ensures value { result ≡ prefix_in (log_of self.now server).journal }
        ensures legal { IsLog (log_of self.now server) }
    {
        match server {
            0 => self.zero.prefix(),
            1 => self.one.prefix(),
            _ => self.two.prefix(),
        }
    }

    /// Puts a piece at a place of a server, where there is one to put.
    pub(crate) fn place(&mut self, server: u8, place: u64, piece: Option<Piece>)
        requires below { place < (log_of self.old server).capacity }
        requires own { ForSome piece (IsOwn (log_of self.old server).server (log_of self.old server).widths) }
        ensures { self.new ≡ with_piece self.old server place piece }
    {
        let Some(piece) = piece else {
            return;
        };
        match server {
            0 => self.zero.place(place, piece),
            1 => self.one.place(place, piece),
            _ => self.two.place(place, piece),
        }
    }

    /// A snapshot of a server's first places, of which none is retired. The only error is out of memory.
    pub(crate) fn fix(&mut self, alloc: Global, server: u8) -> Result<Snapshot, Memory>
        requires places { let log = log_of self.old server in HasNoMark log.capacity log.journal }
        ensures stays { self.new ≡ self.old }
        ensures fixed { IfOk result (λ s. IsFixOf (⟦<Snapshot as Shelf>⟧.held s) (log_of self.old server)) }
    {
        match server {
            0 => self.zero.fix(alloc),
            1 => self.one.fix(alloc),
            _ => self.two.fix(alloc),
        }
    }
}

// A log of each server.
fn side_by_side<R: Threads + Sync>(
    rt: &R,
    alloc: Global,
    widths: &Widths,
    capacity: u32,
) -> (
    Result<ServerLog, Memory>,
    (Result<ServerLog, Memory>, Result<ServerLog, Memory>),
)
    requires { Fits (column_bits widths.now) capacity }
    ensures zero { IfOk result.0 (λ log. log ≡ empty_log 0 widths.now capacity) }
    ensures one { IfOk result.1.0 (λ log. log ≡ empty_log 1 widths.now capacity) }
    ensures two { IfOk result.1.1 (λ log. log ≡ empty_log 2 widths.now capacity) }
{
    let zero = || -> Result<ServerLog, Memory>
        requires { Fits (column_bits widths.now) capacity }
        ensures { IfOk result (λ log. log ≡ empty_log 0 widths.entry.now capacity) }
    { ServerLog::new(alloc, 0, widths, capacity) };
    let others = || -> (Result<ServerLog, Memory>, Result<ServerLog, Memory>)
        requires { IsSync R.row × Fits (column_bits widths.now) capacity }
        ensures { IfOk result.0 (λ log. log ≡ empty_log 1 widths.entry.now capacity)
            × IfOk result.1 (λ log. log ≡ empty_log 2 widths.entry.now capacity) }
    { one_and_two(rt, alloc, widths, capacity) };
    join(rt, zero, others)
}

// A log of server 1 and one of server 2.
fn one_and_two<R: Threads + Sync>(
    rt: &R,
    alloc: Global,
    widths: &Widths,
    capacity: u32,
) -> (Result<ServerLog, Memory>, Result<ServerLog, Memory>)
    requires { Fits (column_bits widths.now) capacity }
    ensures one { IfOk result.0 (λ log. log ≡ empty_log 1 widths.now capacity) }
    ensures two { IfOk result.1 (λ log. log ≡ empty_log 2 widths.now capacity) }
{
    let one = || -> Result<ServerLog, Memory>
        requires { Fits (column_bits widths.now) capacity }
        ensures { IfOk result (λ log. log ≡ empty_log 1 widths.entry.now capacity) }
    { ServerLog::new(alloc, 1, widths, capacity) };
    let two = || -> Result<ServerLog, Memory>
        requires { Fits (column_bits widths.now) capacity }
        ensures { IfOk result (λ log. log ≡ empty_log 2 widths.entry.now capacity) }
    { ServerLog::new(alloc, 2, widths, capacity) };
    join(rt, one, two)
}
