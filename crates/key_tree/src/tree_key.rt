ghost use Rattle.std.specs.Prelude.{◌≡◌, ◌<◌, ◌≤◌, ◌^◌, IfOk, length};
ghost use Rattle.list_facts.specs.Listed.{listed};
ghost use Rattle.key_tree.specs.Keys.{value_under};

use crate::key_level::{KeyLevel, descend, write_values};
use crate::leaf::of_party;
use prg_chacha::Seed;
use ring128::{Memory, Party, Words};
use std::alloc::Global;
use std::marker::Model;

/// The key of one party: a root, a correction for each bit, the highest first, and a last word. There are
/// at most 8 levels.
#[derive(Drop)]
pub struct TreeKey<L> {
    pub(crate) root: Seed,
    pub(crate) levels: Vec<L>,
    pub(crate) last: u128,
}

impl<L> Model for TreeKey<L> {
    ghost use Rattle.std.specs.Prelude.{length, ◌≤◌};
    ghost use Rattle.key_tree.specs.Keys.{Key};

    ghost Value = { Key L };

    ghost view = { λ a. record {
      root = a.root;
      levels = a.levels.items;
      last = a.last;
    } };

    ghost invariant = { λ a. length a.levels.items ≤ 8 };
}

impl<L> TreeKey<L> {
    /// The key of these parts.
    pub fn new(root: Seed, levels: Vec<L>, last: u128) -> TreeKey<L>
        requires { length levels.items ≤ 8 }
        ensures { result ≡ record { root = root; levels = levels.items; last = last } }
    {
        TreeKey { root, levels, last }
    }

    /// The number of bits of the numbers that the key has values at.
    pub fn bits(&self) -> usize
        ensures { result ≡ length self.now.levels }
    {
        self.levels.len()
    }
}

/// The keys of party 0 and party 1 with these roots, and the same levels and last word.
pub fn pair<L: KeyLevel + Drop>(
    alloc: Global,
    root0: &Seed,
    root1: &Seed,
    levels: Vec<L>,
    last: u128,
) -> Result<(TreeKey<L>, TreeKey<L>), Memory>
    requires { length levels.items ≤ 8 }
    ensures zero { IfOk result (λ p. p.0 ≡ record { root = root0.now; levels = levels.items; last = last }) }
    ensures one { IfOk result (λ p. p.1 ≡ record { root = root1.now; levels = levels.items; last = last }) }
{
    let copy = Vec::from_slice(alloc, levels.as_slice())?;
    Ok((
        TreeKey::new(*root0, levels, last),
        TreeKey::new(*root1, copy, last),
    ))
}

/// The value of a party's key at `x`: below the last level the number of the leaf that `x` leads to, for
/// party 1 its negative.
pub fn value<L: KeyLevel>(key: &TreeKey<L>, party: Party, x: u8) -> u128
    requires { x < 2 ^ length key.now.levels }
    ensures { result ≡ value_under L.top L.below L.number key.now party x }
{
    let leaf = descend(key.levels.as_slice(), x, &L::top(party, &key.root));
    of_party(party, L::number(key.last, &leaf))
}

/// The values of a party's key at 0, 1 and so on to the last number, by one walk over the tree.
pub fn table<L: KeyLevel>(alloc: Global, key: &TreeKey<L>, party: Party) -> Result<Words, Memory>
    ensures { IfOk result (λ w. w ≡ listed (2 ^ length key.now.levels) (value_under L.top L.below L.number key.now party)) }
{
    let mut values = vec![in alloc; 0; 1 << key.levels.len()]?;
    let top = L::top(party, &key.root);
    write_values(
        key.levels.as_slice(),
        key.last,
        party,
        &top,
        values.as_mut_slice(),
    );
    Ok(Words::from_vec(values))
}
