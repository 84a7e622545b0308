//! The nine messages of a query over three pairs of sums.
ghost use Rattle.std.specs.Prelude.{◌≡◌, ◌≤◌, List, length, IfOk};
ghost use Rattle.onehot_column.specs.Code.{width_of};
ghost use Rattle.wire_line.specs.declared.message.Message.{Message};
ghost use Rattle.wire_line.specs.Messages.{Went};
ghost use Rattle.transcript.specs.Setup.{column_of};
ghost use Rattle.server_rounds.specs.Plans.{sizes_for};
ghost use Rattle.row_tree.specs.Rounds.{IsTreePart, tree_opened};
ghost use Rattle.row_tree.specs.Sides.{sides_of};

use crate::opening::{Sums, open_run};
use query_plan::Keys;
use ring128::Memory;
use server_rounds::Ready;
use std::alloc::Global;
use visit_trace::Trace;
use wire_line::Wire;

/// What the client opened in the two runs: the number of the rows that pass, and the key times it.
#[derive(Clone, Copy, Debug, PartialEq, Eq)]
pub struct TreePair {
    pub total: u128,
    pub weighted: u128,
}

/// Carries the nine messages. The only error is out of memory; the first of them may then have been carried.
pub(crate) fn exchange<W: Wire>(
    alloc: Global,
    keys: &Keys,
    rows: u64,
    zero: &Sums,
    one: &Sums,
    two: &Sums,
    wire: &mut W,
) -> Result<TreePair, Memory>
    requires rows { rows ≤ 65536 }
    requires zero_first { length zero.now.first.items ≡ width_of keys.now.widths (column_of (sizes_for keys.now rows) 0) }
    requires zero_second { length zero.now.second.items ≡ width_of keys.now.widths (column_of (sizes_for keys.now rows) 0) }
    requires one_first { length one.now.first.items ≡ width_of keys.now.widths (column_of (sizes_for keys.now rows) 0) }
    requires one_second { length one.now.second.items ≡ width_of keys.now.widths (column_of (sizes_for keys.now rows) 0) }
    requires two_first { length two.now.first.items ≡ width_of keys.now.widths (column_of (sizes_for keys.now rows) 0) }
    requires two_second { length two.now.second.items ≡ width_of keys.now.widths (column_of (sizes_for keys.now rows) 0) }
    ensures { let s = sides_of keys.now zero.now one.now two.now in
        (ms : List Message) × Went W.sight wire.old ms wire.new
        × IsTreePart s ms
        × IfOk result (λ pair. (length ms ≡ 9) × (pair.total ≡ tree_opened ms 0) × (pair.weighted ≡ tree_opened ms 1)) }
{
    let mut trace = Trace::new(alloc); // what servers see of a tree are the nodes that it lends
    let ready = Ready::send(alloc, keys, rows, wire, &mut trace)?;
    let total = open_run(alloc, &ready, zero, one, two, 0, wire, &mut trace)?;
    let weighted = open_run(alloc, &ready, zero, one, two, 1, wire, &mut trace)?;
    Ok(TreePair { total, weighted })
}
