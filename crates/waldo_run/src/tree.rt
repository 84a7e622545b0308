//! The command that counts over a range of places.
ghost use Rattle.std.specs.Prelude.{◌≡◌, ◌≢◌, ◌<◌, ◌≤◌, ℕ, Ok, List, IfOk, OnErr, All, length, map};
ghost use Rattle.row_tree.specs.Rounds.{IsTreePart, IsTreeTranscript};
ghost use Rattle.schedule_play.specs.History.{AreHonest, Done, pair_at};
ghost use Rattle.schedule_play.specs.Plays.{seen};
ghost use Rattle.schedule_play.specs.Wires.{Carried, Unaltered};
ghost use Rattle.server_rounds.specs.Shelves.{AreShelves, pieces_of};
ghost use Rattle.waldo_run.specs.Replies.{range_line, range_reply};
ghost use Rattle.waldo_run.specs.Trees.{BeginsRange, HasRange, IsPlainRange, IsRange, judged_in};
ghost use Rattle.waldo_run.specs.Trees.{opened_by, pair_of, plain_count, server_tree, sides_in, tree_over};
ghost use Rattle.wire_line.specs.Messages.{IsHonest, Went};
ghost use Rattle.wire_line.specs.declared.message.Message.{Message};

use crate::reply::{Reply, single_line};
use agreed_rows::Agreed;
use prefix_log::Snapshot;
use prg_chacha::derive;
use query_plan::{key_of, make_keys};
use report_lines::Line;
use ring128::Memory;
use row_tree::{RowTree, TreePair, Trees, add_shelves, cover, tree_runs};
use scan_chunks::Shelf;
use schedule_play::{Setting, agree};
use std::alloc::Global;
use std::thread::Threads;
use table_schema::Widths;
use weighted_check::{Altered, check};
use wire_line::Wire;

// A server's tree over a column of its rows.
fn server_tree(
    alloc: Global,
    widths: &Widths,
    column: u8,
    rows: u64,
    mut shelves: Vec<Snapshot>,
) -> Result<RowTree, Memory>
    requires column { column < widths.now.columns }
    requires few { rows ≤ 65536 }
    requires shelves { AreShelves widths.now rows (map ⟦<Snapshot as Shelf>⟧.held shelves.items) }
    ensures { IfOk result (λ t. t ≡ server_tree widths.now column rows (pieces_of (map ⟦<Snapshot as Shelf>⟧.held shelves.items))) }
{
    let width = 1u64 << widths.bits[usize::from(column)];
    let mut tree = RowTree::new(alloc, column, width);
    add_shelves(alloc, &mut tree, &mut shelves)?;
    Ok(tree)
}

// The trees of the three servers over a column of rows that were agreed on.
fn three_trees(alloc: Global, widths: &Widths, column: u8, agreed: &Agreed) -> Result<Trees, Memory>
    requires column { column < widths.now.columns }
    requires widths { agreed.now.widths ≡ widths.now }
    ensures zero { IfOk result (λ t. t.zero ≡ tree_over widths.now agreed.now.all column 0) }
    ensures one { IfOk result (λ t. t.one ≡ tree_over widths.now agreed.now.all column 1) }
    ensures two { IfOk result (λ t. t.two ≡ tree_over widths.now agreed.now.all column 2) }
{
    let rows = agreed.rows();
    let shelves = agreed.shelves(alloc, 1)?;
    let zero = server_tree(alloc, widths, column, rows, shelves.zero)?;
    let one = server_tree(alloc, widths, column, rows, shelves.one)?;
    let two = server_tree(alloc, widths, column, rows, shelves.two)?;
    Ok(Trees { zero, one, two })
}

// Asks the query over the range, once actor 0 has appended all rows and agreed on them. Out of memory, the first messages may have
// been carried.
fn ask_range<R: Threads + Sync, W: Wire>(
    rt: &R,
    alloc: Global,
    setting: &Setting<'_>,
    low: u64,
    high: u64,
    wire: &mut W,
) -> Result<TreePair, Memory>
    requires legal { IsRange setting.now.widths (seen setting.now) low high }
    requires there { high ≤ length setting.now.rows.now }
    requires some { 1 ≤ setting.now.workers }
    requires few { setting.now.workers ≤ 16 }
    ensures messages { let sides = sides_in setting.now.widths (seen setting.now) low high in
        (ms : List Message) × Went W.sight wire.old ms wire.new × IsTreePart sides ms
        × IfOk result (λ pair. IsTreeTranscript sides ms × (opened_by pair ≡ pair_of ms)
        × (IsHonest ms → judged_in (seen setting.now) (opened_by pair) ≡ Ok (plain_count (seen setting.now) low high))) }
{
    transcript::laws::pieces_hold();
    transcript::laws::plain_is_small();
    row_tree::laws::trees_open();
    let machine = agree(rt, alloc, setting)?;
    let Some(agreed) = machine.agreed(0) else {
        unreachable!();
    };
    let query = &setting.queries[0];
    let seed = derive(&setting.master, 2, 0, 0);
    let keys = make_keys(alloc, query, &setting.widths, &seed)?;
    let column = query.predicates[0].column;
    let mut trees = three_trees(alloc, &setting.widths, column, agreed)?;
    tree_runs(alloc, &mut trees, &keys, low, high, wire)
}

// The reply to a pair that the query opened.
fn range_line(
    alloc: Global,
    setting: &Setting<'_>,
    low: u64,
    high: u64,
    pair: TreePair,
) -> Result<Reply, Memory>
    requires order { low ≤ high }
    requires few { high ≤ 65536 }
    requires single { length setting.now.queries.now ≡ 1 }
    ensures { IfOk result (λ reply. reply ≡ range_line low high (judged_in (seen setting.now) (opened_by pair))) }
{
    let seed = derive(&setting.master, 2, 0, 0);
    let key = key_of(&setting.queries[0], &seed);
    match check(pair.total, pair.weighted, key) {
        Ok(total) => {
            let nodes = cover(alloc, low, high)?.len() as u64;
            let line = Line::Tree {
                low,
                high,
                total,
                nodes,
            };
            single_line(alloc, 0, line)
        }
        Err(Altered { total, weighted }) => {
            single_line(alloc, 7, Line::TreeAltered { total, weighted })
        }
    }
}

/// The reply of the one query over the rows at the places from low to high - 1, which goes over the first wire. The only error is out
/// of memory; the first messages may then have been carried.
pub(crate) fn answer_range<R: Threads + Sync, W: Wire>(
    rt: &R,
    alloc: Global,
    setting: &Setting<'_>,
    low: u64,
    high: u64,
    wires: &mut Vec<W>,
) -> Result<Reply, Memory>
    requires legal { IsRange setting.now.widths (seen setting.now) low high }
    requires high { high ≤ 65536 }
    requires some { 1 ≤ setting.now.workers }
    requires few { setting.now.workers ≤ 16 }
    requires wires { length wires.old.items ≡ 16 }
    ensures wires { length wires.new.items ≡ 16 }
    ensures asked { let s = seen setting.now in
        (history : List Done) × Carried W.sight wires.old.items wires.new.items history
        × OnErr result (BeginsRange setting.now.widths s low high history)
        × IfOk result (λ reply. HasRange setting.now.widths s low high history
        × AreHonest (Unaltered W.sight wires.old.items wires.new.items) history
        × IsPlainRange s low high history
        × (reply ≡ range_reply s low high (judged_in s (pair_at history 0)))
        × (((actor : ℕ) → Unaltered W.sight wires.old.items wires.new.items actor) → reply.status ≢ 7)) }
{
    if (setting.rows.len() as u64) < high {
        return single_line(alloc, 5, Line::TooFew { wanted: high });
    }
    let pair = ask_range(rt, alloc, setting, low, high, &mut wires[0])?;
    range_line(alloc, setting, low, high, pair)
}
