ghost use Rattle.std.specs.Prelude.{◌≡◌, ◌<◌, ◌≤◌, ◌^◌, IfOk, length};
ghost use Rattle.list_facts.specs.Listed.{listed};
ghost use Rattle.ring128.specs.Laws.{IsKeyPair};
ghost use Rattle.point_keys.specs.Points.{value_of, point_key, point_at};

use key_tree::{Level, Node, TreeKey, last_word, pair, side_of};
use prg_chacha::Seed;
use ring128::{Memory, Party, Words};
use std::alloc::Global;

/// The key of one party for a point function.
pub type PointKey = TreeKey<Level>;

/// Makes the keys of party 0 and party 1 for a weight at `a`, from the roots of the two parties. Their
/// values add up to the weight at `a` and to 0 at every other number below 2^bits, whatever the roots
/// are, equal ones among them.
pub fn generate(
    alloc: Global,
    bits: u8,
    a: u8,
    weight: u128,
    root0: &Seed,
    root1: &Seed,
) -> Result<(PointKey, PointKey), Memory>
    requires few { bits ≤ 8 }
    requires within { a < 2 ^ bits }
    ensures zero { IfOk result (λ p. p.0 ≡ point_key Party.Zero bits a weight root0.now root1.now) }
    ensures one { IfOk result (λ p. p.1 ≡ point_key Party.One bits a weight root0.now root1.now) }
    ensures bits { IfOk result (λ p. (length p.0.levels ≡ bits) × (length p.1.levels ≡ bits)) }
    ensures pair { IfOk result (λ p. IsKeyPair bits (value_of p.0 Party.Zero) (value_of p.1 Party.One) (point_at a weight)) }
{
    let mut levels = Vec::with_capacity(alloc, bits as usize)?;
    let mut zero = Node::start(Party::Zero, root0);
    let mut one = Node::start(Party::One, root1);
    for place in (0..bits).rev() {
        let keep = side_of(a, place as usize);
        let level = Level::between(keep, &zero, &one);
        zero = zero.step(&level, keep);
        one = one.step(&level, keep);
        levels.push(level)?;
    }
    let last = last_word(weight, 0, &zero, &one);
    let keys = pair(alloc, root0, root1, levels, last)?;
    Ok(keys)
}

/// The value of a party's key at `x`.
pub fn value(key: &PointKey, party: Party, x: u8) -> u128
    requires { x < 2 ^ length key.now.levels }
    ensures { result ≡ value_of key.now party x }
{
    key_tree::value(key, party, x)
}

/// The values of a party's key at 0, 1 and so on to 2^bits - 1, by one walk over its tree.
pub fn table(alloc: Global, key: &PointKey, party: Party) -> Result<Words, Memory>
    ensures { IfOk result (λ w. w ≡ listed (2 ^ length key.now.levels) (value_of key.now party)) }
{
    key_tree::table(alloc, key, party)
}
