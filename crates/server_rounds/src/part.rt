//! What one server sends.
ghost use Rattle.std.specs.Prelude.{◌≡◌, ◌<◌, ◌≤◌, ◌+◌, ◌^◌, [], ◌∷◌, map, length, IfOk};
ghost use Rattle.ring128.specs.Ring.{sums, total_of};
ghost use Rattle.zero_share.specs.Zero.{parts_of};
ghost use Rattle.transcript.specs.Setup.{column_of, count_of};
ghost use Rattle.transcript.specs.Formulas.{opening_share};
ghost use Rattle.query_plan.specs.KeyMessages.{view_from};
ghost use Rattle.server_rounds.specs.AtOnce.{CanMultiply, CanOpen, GivesLocals, GivesOpening};
ghost use Rattle.server_rounds.specs.Plans.{HasTables, views_of};
ghost use Rattle.server_rounds.specs.Rounds.{bit_numbers};
ghost use Rattle.server_rounds.specs.Shelves.{AreShelves, pieces_of};
ghost use Rattle.server_rounds.specs.Visits.{AreVisited, opened_columns};

use crate::held::Held;
use crate::keys::ThreeKeys;
use crate::plan::Plan;
use crate::shelves::sum_values;
use query_plan::ServerKeys;
use replicated_share::PairList;
use ring128::{Memory, Words, add};
use scan_chunks::Shelf;
use share_product::locals;
use std::alloc::Global;
use table_schema::Aggregate;
use zero_share::ZeroSeeds;

/// The numbers, each with a zero part, whose counters begin at `start`.
pub fn with_zeros(numbers: Words, zeros: &ZeroSeeds, start: u64) -> Words
    requires { start + length numbers ≤ 2 ^ 64 }
    ensures { result ≡ sums numbers (parts_of zeros.now.own zeros.now.next start (length numbers)) }
{
    let mut words = numbers.into_vec();
    zeros.add_parts(start, words.as_mut_slice());
    Words::from_vec(words)
}

/// The seeds of a server's zero parts.
pub(crate) fn seeds_of(keys: &ServerKeys) -> ZeroSeeds
    ensures own { result.own ≡ keys.now.own }
    ensures next { result.next ≡ keys.now.next }
{
    let (own, next) = keys.zeros();
    ZeroSeeds { own, next }
}

/// A server's parts of the product of a chain and bits.
pub(crate) fn locals_part(
    alloc: Global,
    chain: &Held,
    bits: &Held,
    server: u8,
) -> Result<Words, Memory>
    requires server { server < 3 }
    requires factors { CanMultiply chain.now bits.now }
    ensures { GivesLocals chain.now bits.now server result }
{
    let numbers = locals(alloc, chain.of_server(server), bits.of_server(server))?;
    Ok(numbers)
}

// The sum of the numbers.
fn total(words: &[u128]) -> u128
    ensures { result ≡ total_of words.now }
{
    let mut sum = 0;
    for word in words {
        sum = add(sum, *word);
    }
    sum
}

// A server's share of the count of the rows, or of the sum of their values.
fn share_of<S: Shelf>(plan: &Plan, chain: &PairList, shelves: &mut Vec<S>) -> Result<u128, Memory>
    requires chain { length chain.now.first ≡ plan.now.rows }
    requires shelves { AreShelves plan.now.widths plan.now.rows (map S.held shelves.old.items) }
    ensures held { map S.held shelves.new.items ≡ map S.held shelves.old.items }
    ensures share { let pieces = pieces_of (map S.held shelves.old.items) in
        let value = plan.now.widths.columns in
        IfOk result (λ n. n ≡ opening_share plan.now.shape.aggregate chain.now.first chain.now.second (pieces.first value)
        (pieces.second value)) }
    ensures visits { AreVisited S.held S.visited
        (opened_columns plan.now.shape.aggregate plan.now.widths.columns) shelves.old.items shelves.new.items result }
{
    match plan.aggregate() {
        Aggregate::Count => Ok(total(chain.first.as_slice())),
        Aggregate::Sum => {
            let sum = sum_values(plan, chain, shelves)?;
            Ok(sum)
        }
    }
}

/// The word of a server in the opening.
pub(crate) fn opening_part<S: Shelf>(
    alloc: Global,
    plan: &Plan,
    keys: &ThreeKeys,
    chain: &Held,
    server: u8,
    run: u8,
    shelves: &mut Vec<S>,
) -> Result<Words, Memory>
    requires server { server < 3 }
    requires rows { CanOpen S.held plan.now run chain.now shelves.old.items }
    ensures { GivesOpening S.held S.visited plan.now run (views_of keys.now) chain.now server shelves.old.items shelves.new.items result }
{
    let mut words = Vec::with_capacity(alloc, 1)?;
    let share = share_of(plan, chain.of_server(server), shelves)?;
    let start = plan.opening_counter(run);
    let zero = seeds_of(keys.of_server(server)).part(start);
    words.push_reserved(add(share, zero));
    Ok(Words::from_vec(words))
}
