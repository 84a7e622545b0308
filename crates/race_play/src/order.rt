//! The order that is printed.
ghost use Rattle.std.specs.Prelude.{◌≡◌, ℕ, ◌≤◌, ◌<◌, ◌++◌, ◌∷◌, [], All, OnOk, IfOk, List, length, if◌then◌else◌, ◌%◌, ◌==◌};
ghost use Rattle.race_play.specs.Filled.{IsGathered, filled};
ghost use Rattle.race_play.specs.Gathers.{places_in};
ghost use Rattle.race_play.specs.Laws.{Stands};
ghost use Rattle.race_play.specs.Turns.{turns};

use crate::gather::Gathered;
use prg_chacha::Seed;
use ring128::Memory;
use std::alloc::Global;
use table_schema::Row;
use waldo_table::Pass;

// A row's number, if it is the writer's turn.
fn push_turn(list: &mut Vec<u64>, i: usize, writer: u8, writers: u8) -> Result<(), Memory>
    requires { writer < writers }
    ensures { OnOk result (list.new.items ≡ list.old.items ++ (if i % writers == writer then i ∷ [] else [])) }
{
    if i % writers as usize != writer as usize {
        return Ok(());
    }
    list.push(i as u64)?;
    Ok(())
}

// The numbers of the input rows that a writer writes, rising; there are `rows` in all.
pub(crate) fn turns_of(
    alloc: Global,
    rows: usize,
    writer: u8,
    writers: u8,
) -> Result<Vec<u64>, Memory>
    requires { writer < writers }
    ensures { IfOk result (λ list. list.items ≡ turns writer writers rows) }
{
    let mut list = Vec::new(alloc);
    for i in 0..rows {
        push_turn(&mut list, i, writer, writers)?;
    }
    Ok(list)
}

// Puts rows at their places.
fn fill(printed: &mut Vec<u64>, rows: &[u64], places: &[u64])
    requires long { length places.now ≡ length rows.now }
    requires below { All (λ place. place < length printed.old.items) places.now }
    ensures { printed.new.items ≡ filled printed.old.items rows.now places.now }
{
    for k in 0..places.len() {
        printed[places[k] as usize] = rows[k];
    }
}

/// The number of the input row at each place, by what the writers wrote. The only error is out of memory.
pub fn printed(
    alloc: Global,
    rows: &[Row],
    master: &Seed,
    writers: u8,
    pass: &Pass,
    gathered: &Gathered,
) -> Result<Vec<u64>, Memory>
    requires { IsGathered rows.now master.now writers pass.now.sight.order (places_in gathered.now) }
    ensures { IfOk result (λ p. Stands rows.now master.now writers pass.now.sight.order (places_in gathered.now) p.items) }
{
    let mut printed = vec![in alloc; rows.len() as u64; rows.len()]?;
    for w in 0..gathered.places.len() {
        let turns = turns_of(alloc, rows.len(), w as u8, writers)?;
        fill(
            &mut printed,
            turns.as_slice(),
            gathered.places[w].as_slice(),
        );
    }
    Ok(printed)
}
