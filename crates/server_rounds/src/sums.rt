//! What a server sends of a query with one predicate over sums of rows.
ghost use Rattle.std.specs.Prelude.{◌≡◌, ◌<◌, length, IfOk};
ghost use Rattle.onehot_column.specs.Code.{width_of};
ghost use Rattle.query_plan.specs.KeyMessages.{view_from};
ghost use Rattle.transcript.specs.Setup.{column_of, count_of};
ghost use Rattle.server_rounds.specs.Plans.{HasTables, views_of};
ghost use Rattle.server_rounds.specs.Rounds.{sum_word};

use crate::part::seeds_of;
use crate::plan::Plan;
use crate::ready::Ready;
use query_plan::ServerKeys;
use ring128::{Memory, Party, add, dot};
use std::alloc::Global;

// The word of a server with these keys.
fn sum_part(
    alloc: Global,
    plan: &Plan,
    keys: &ServerKeys,
    run: u8,
    first: &[u128],
    second: &[u128],
    counter: u64,
) -> Result<u128, Memory>
    requires run { run < 2 }
    requires some { 0 < count_of plan.now }
    requires tables { HasTables plan.now keys.now }
    requires first { length first.now ≡ width_of plan.now.widths (column_of plan.now 0) }
    requires second { length second.now ≡ width_of plan.now.widths (column_of plan.now 0) }
    ensures { IfOk result (λ n. n ≡ sum_word (view_from keys.now) run first.now second.now counter) }
{
    let zero = keys.table(alloc, run, 0, Party::Zero)?;
    let one = keys.table(alloc, run, 0, Party::One)?;
    let share = add(dot(zero.as_slice(), first), dot(one.as_slice(), second));
    Ok(add(share, seeds_of(keys).part(counter)))
}

impl Ready {
    /// The word that server 0, 1 or 2 sends the client in run 0 or 1 of a query with one predicate, where the rows are at hand as
    /// a sum: its two tables at the sums of its two shares, each a cell a bucket, and the part of zero at a counter. The only error
    /// is out of memory.
    pub fn sum_word(
        &self,
        alloc: Global,
        server: u8,
        run: u8,
        first: &[u128],
        second: &[u128],
        counter: u64,
    ) -> Result<u128, Memory>
        requires server { server < 3 }
        requires run { run < 2 }
        requires first { length first.now ≡ width_of self.now.plan.widths (column_of self.now.plan 0) }
        requires second { length second.now ≡ width_of self.now.plan.widths (column_of self.now.plan 0) }
        ensures { IfOk result (λ n. n ≡ sum_word (views_of self.now.keys server) run first.now second.now counter) }
    {
        self.plan.rows();
        self.plan.count();
        match server {
            0 => sum_part(
                alloc,
                &self.plan,
                &self.keys.zero,
                run,
                first,
                second,
                counter,
            ),
            1 => sum_part(
                alloc,
                &self.plan,
                &self.keys.one,
                run,
                first,
                second,
                counter,
            ),
            _ => sum_part(
                alloc,
                &self.plan,
                &self.keys.two,
                run,
                first,
                second,
                counter,
            ),
        }
    }
}
