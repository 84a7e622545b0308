// Levels of keys of any kind, and walks over them.

ghost use Rattle.std.specs.Prelude.{◌≡◌, ◌+◌, ◌≤◌, ◌^◌, ◌++◌, ℕ, List, OnOk, length, slice_index};
ghost use Rattle.list_facts.specs.Listed.{listed};
ghost use Rattle.ring128.specs.declared.party.Party.{Party};
ghost use Rattle.prg_chacha.specs.declared.seed.Seed.{Seed};
ghost use Rattle.prg_chacha.specs.declared.side.Side.{Side};
ghost use Rattle.key_tree.specs.Tree.{descend, of_party};

use crate::leaf::of_party;
use crate::side::side_of;
use prg_chacha::{Seed, Side};
use ring128::{Memory, Party};

/// One level of a key of any kind: how a walk goes on below it, and how it is written as words.
pub trait KeyLevel: Copy {
    /// What a walk carries from level to level.
    type Place: Copy;

    ghost WIDTH: { ℕ };

    ghost top: { Party → Seed → Self.Place };

    ghost below: { Self → Side → Self.Place → Self.Place };

    ghost number: { ℕ → Self.Place → ℕ };

    ghost words: { Self → List ℕ };

    ghost read: { List ℕ → Self };

    /// How many words a level has.
    const WIDTH: usize;

    /// The place where a party starts from its root.
    fn top(party: Party, root: &Seed) -> Self::Place
        ensures { result ≡ top party root.now };

    /// The place on a side below a place.
    fn below(&self, place: &Self::Place, side: Side) -> Self::Place
        ensures { result ≡ below self.now side place.now };

    /// The places on the left and on the right below a place, for the price of one.
    fn both(&self, place: &Self::Place) -> (Self::Place, Self::Place)
        ensures left { result.0 ≡ below self.now Side.Left place.now }
        ensures right { result.1 ≡ below self.now Side.Right place.now };

    /// The number at a leaf under the last word of a key.
    fn number(last: u128, place: &Self::Place) -> u128
        ensures { result ≡ number last place.now };

    /// Appends the words of the level. The third one is its control word.
    fn push_words(&self, to: &mut Vec<u128>) -> Result<(), Memory>
        ensures pushed { OnOk result (to.new.items ≡ to.old.items ++ words self.now) }
        ensures undone { read (words self.now) ≡ self.now };

    /// The level that has these words. Of the control word its two lowest bits count.
    fn read(from: &[u128]) -> Self
        requires width { length from.now ≡ WIDTH }
        ensures level { result ≡ read from.now }
        ensures undone { slice_index from.now 2 ≤ 3 → words result ≡ from.now };

    ghost wide: { (3 ≤ WIDTH) × (WIDTH ≤ 4) };

    ghost long: { (l : Self) → length (words l) ≡ WIDTH };
}

/// The leaf that a number leads to from a place, a level for each of its bits from the highest on.
pub fn descend<L: KeyLevel>(levels: &[L], x: u8, top: &L::Place) -> L::Place
    requires { length levels.now ≤ 8 }
    ensures { result ≡ descend L.below levels.now x top.now }
{
    let mut place = *top;
    for (i, level) in levels.iter().enumerate() {
        let side = side_of(x, levels.len() - 1 - i);
        place = level.below(&place, side);
    }
    place
}

/// Writes the values of a party at 0, 1 and so on to the last leaf below a place. Each place on the way
/// is reached once.
pub fn write_values<L: KeyLevel>(
    levels: &[L],
    last: u128,
    party: Party,
    place: &L::Place,
    to: &mut [u128],
)
    requires { length to.old ≡ 2 ^ length levels.now }
    ensures { to.new ≡ listed (2 ^ length levels.now) (λ x. of_party party (L.number last (descend L.below levels.now x place.now))) }
{
    match levels.split_first() {
        None => {
            to[0] = of_party(party, L::number(last, place));
        }
        Some((level, rest)) => {
            let (left, right) = level.both(place);
            let (low, high) = to.split_at_mut(to.len() / 2);
            write_values(rest, last, party, &left, low);
            write_values(rest, last, party, &right, high);
        }
    }
}
