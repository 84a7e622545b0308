//! The prefix of a journal.
ghost use Rattle.std.specs.Prelude.{◌≡◌, ℕ, ◌<◌, ◌≤◌, true, false, length, slice_index_or};
ghost use Rattle.list_facts.specs.Count.{has};
ghost use Rattle.prefix_log.specs.Journal.{IsPrefixOf};

/// The largest number such that each place below it is in the journal, found place by place. It reads the whole
/// journal for each place: [`ServerLog::prefix`](crate::ServerLog::prefix) gives the same at once.
pub fn prefix_of(journal: &[u64]) -> u64
    ensures { IsPrefixOf journal.now result }
{
    for place in 0..journal.len() as u64 {
        if !holds(journal, place) {
            return place;
        }
    }
    journal.len() as u64
}

// Whether the place is in the journal.
fn holds(journal: &[u64], place: u64) -> bool
    ensures { result ≡ has place journal.now }
{
    for there in journal {
        if *there == place {
            return true;
        }
    }
    false
}

// The first place from one on that isn't filled; past the last one there is none.
pub(crate) fn first_gap(filled: &[bool], from: usize) -> usize
    requires { from ≤ length filled.now }
    ensures later { from ≤ result }
    ensures within { result ≤ length filled.now }
    ensures below { (place : ℕ) → from ≤ place → place < result → slice_index_or filled.now place false ≡ true }
    ensures gap { slice_index_or filled.now result false ≡ false }
{
    for place in from..filled.len() {
        if !filled[place] {
            return place;
        }
    }
    filled.len()
}
