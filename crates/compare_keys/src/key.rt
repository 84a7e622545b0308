ghost use Rattle.std.specs.Prelude.{◌≡◌, ◌<◌, ◌≤◌, ◌^◌, IfOk, length};
ghost use Rattle.list_facts.specs.Listed.{listed};
ghost use Rattle.ring128.specs.Laws.{IsKeyPair};
ghost use Rattle.compare_keys.specs.Compares.{value_of, compare_key, at_most};
ghost use Rattle.compare_keys.specs.Generated.{value_between, added};

use crate::CompareLevel;
use key_tree::{Level, Node, TreeKey, last_word, pair, side_of, signed};
use prg_chacha::{Seed, Side, strand};
use ring128::{Memory, Party, Words, add, sub};
use std::alloc::Global;

/// The key of one party for "at most a".
pub type CompareKey = TreeKey<CompareLevel>;

/// Makes the keys of party 0 and party 1 for a weight at each number up to `a`, from the roots of the two
/// parties. Their values add up to the weight at each number that is at most `a` and to 0 at every other
/// number below 2^bits, whatever the roots are, equal ones among them.
pub fn generate(
    alloc: Global,
    bits: u8,
    a: u8,
    weight: u128,
    root0: &Seed,
    root1: &Seed,
) -> Result<(CompareKey, CompareKey), Memory>
    requires few { bits ≤ 8 }
    requires within { a < 2 ^ bits }
    ensures zero { IfOk result (λ p. p.0 ≡ compare_key Party.Zero bits a weight root0.now root1.now) }
    ensures one { IfOk result (λ p. p.1 ≡ compare_key Party.One bits a weight root0.now root1.now) }
    ensures bits { IfOk result (λ p. (length p.0.levels ≡ bits) × (length p.1.levels ≡ bits)) }
    ensures pair { IfOk result (λ p. IsKeyPair bits (value_of p.0 Party.Zero) (value_of p.1 Party.One) (at_most a weight)) }
{
    let mut levels = Vec::with_capacity(alloc, bits as usize)?;
    let mut zero = Node::start(Party::Zero, root0);
    let mut one = Node::start(Party::One, root1);
    let mut total = 0;
    for place in (0..bits).rev() {
        let keep = side_of(a, place as usize);
        let level = Level::between(keep, &zero, &one);
        let value = value_between(weight, keep, total, &zero, &one);
        total = added(keep, value, total, &zero, &one);
        zero = zero.step(&level, keep);
        one = one.step(&level, keep);
        levels.push(CompareLevel { level, value })?;
    }
    let last = last_word(weight, total, &zero, &one);
    let keys = pair(alloc, root0, root1, levels, last)?;
    Ok(keys)
}

/// The value of a party's key at `x`.
pub fn value(key: &CompareKey, party: Party, x: u8) -> u128
    requires { x < 2 ^ length key.now.levels }
    ensures { result ≡ value_of key.now party x }
{
    key_tree::value(key, party, x)
}

/// The values of a party's key at 0, 1 and so on to 2^bits - 1, by one walk over its tree.
pub fn table(alloc: Global, key: &CompareKey, party: Party) -> Result<Words, Memory>
    ensures { IfOk result (λ w. w ≡ listed (2 ^ length key.now.levels) (value_of key.now party)) }
{
    key_tree::table(alloc, key, party)
}

// The value correction below the nodes of two parties, where `total` has been added so far. On the side
// that is lost the values below add up to the weight if that side is the left one, and to 0 else.
fn value_between(weight: u128, keep: Side, total: u128, zero: &Node, one: &Node) -> u128
    ensures { result ≡ value_between weight keep total zero.now one.now }
{
    let (lose, wanted) = match keep {
        Side::Left => (Side::Right, 0),
        Side::Right => (Side::Left, weight),
    };
    let gap = sub(strand(&one.seed, lose), strand(&zero.seed, lose));
    signed(one.bit, add(sub(gap, total), wanted))
}

// What has been added after a level, on the side that is kept.
fn added(keep: Side, value: u128, total: u128, zero: &Node, one: &Node) -> u128
    ensures { result ≡ added keep value total zero.now one.now }
{
    let moved = add(
        sub(total, strand(&one.seed, keep)),
        strand(&zero.seed, keep),
    );
    add(moved, signed(one.bit, value))
}
