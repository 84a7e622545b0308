ghost use Rattle.std.specs.Prelude.{◌≡◌, ◌<◌, ◌≤◌, ◌-◌, ◌^◌, IfOk, length, slice_index};
ghost use Rattle.list_facts.specs.Listed.{listed};
ghost use Rattle.ring128.specs.Laws.{IsKeyPair};
ghost use Rattle.ring128.specs.Ring.{minus};
ghost use Rattle.interval_keys.specs.Intervals.{inside, weight_below, value_of, interval_key};

use compare_keys::CompareKey;
use prg_chacha::Seed;
use ring128::{Memory, Party, Words, sub};
use std::alloc::Global;
use std::marker::Model;

/// The key of one party for an interval.
#[derive(Drop)]
pub struct IntervalKey {
    pub(crate) upper: CompareKey,
    pub(crate) lower: CompareKey,
}

impl Model for IntervalKey {
    ghost use Rattle.std.specs.Prelude.{◌≡◌, ◌≤◌, length};
    ghost use Rattle.interval_keys.specs.Keys.{Key};

    ghost Value = { Key };

    ghost view = { λ a. record { upper = a.upper; lower = a.lower } };

    ghost invariant = { λ a. (length a.lower.levels ≡ length a.upper.levels) × (length a.upper.levels ≤ 8) };
}

impl IntervalKey {
    /// The number of bits of the numbers that the key has values at.
    pub fn bits(&self) -> usize
        ensures { result ≡ length self.now.upper.levels }
    {
        self.upper.bits()
    }
}

/// Makes the keys of party 0 and party 1 for a weight at each number from `low` to `high`. The roots are
/// those of the upper key, party 0 and party 1, and of the lower key, party 0 and party 1. The values add
/// up to the weight inside and to 0 at every other number below 2^bits, whatever the roots are, equal ones
/// among them.
pub fn generate(
    alloc: Global,
    bits: u8,
    low: u8,
    high: u8,
    weight: u128,
    roots: &[Seed; 4],
) -> Result<(IntervalKey, IntervalKey), Memory>
    requires few { bits ≤ 8 }
    requires order { low ≤ high }
    requires within { high < 2 ^ bits }
    ensures zero { IfOk result (λ p. p.0 ≡ interval_key Party.Zero bits low high weight roots.now) }
    ensures one { IfOk result (λ p. p.1 ≡ interval_key Party.One bits low high weight roots.now) }
    ensures bits { IfOk result (λ p. (length p.0.upper.levels ≡ bits) × (length p.1.upper.levels ≡ bits)) }
    ensures pair { IfOk result (λ p. IsKeyPair bits (value_of p.0 Party.Zero) (value_of p.1 Party.One) (inside low high weight)) }
{
    let [upper0, upper1, lower0, lower1] = *roots;
    let upper = compare_keys::generate(alloc, bits, high, weight, &upper0, &upper1)?;
    let (below, weight_below) = end_below(low, weight);
    let lower = compare_keys::generate(alloc, bits, below, weight_below, &lower0, &lower1)?;
    Ok((
        IntervalKey {
            upper: upper.0,
            lower: lower.0,
        },
        IntervalKey {
            upper: upper.1,
            lower: lower.1,
        },
    ))
}

// The end of the lower key, and its weight: the number below the low end, or 0 with weight 0.
fn end_below(low: u8, weight: u128) -> (u8, u128)
    ensures end { result.0 ≡ low - 1 }
    ensures weight { result.1 ≡ weight_below low weight }
{
    if low == 0 { (0, 0) } else { (low - 1, weight) }
}

/// The value of a party's key at `x`: that of the upper key minus that of the lower one.
pub fn value(key: &IntervalKey, party: Party, x: u8) -> u128
    requires { x < 2 ^ length key.now.upper.levels }
    ensures { result ≡ value_of key.now party x }
{
    let upper = compare_keys::value(&key.upper, party, x);
    let lower = compare_keys::value(&key.lower, party, x);
    sub(upper, lower)
}

/// The values of a party's key at 0, 1 and so on to 2^bits - 1, by one walk over each of its trees.
pub fn table(alloc: Global, key: &IntervalKey, party: Party) -> Result<Words, Memory>
    ensures { IfOk result (λ w. w ≡ listed (2 ^ length key.now.upper.levels) (value_of key.now party)) }
{
    let mut values = compare_keys::table(alloc, &key.upper, party)?.into_vec();
    let lower = compare_keys::table(alloc, &key.lower, party)?;
    subtract(values.as_mut_slice(), lower.as_slice());
    Ok(Words::from_vec(values))
}

// Subtracts place by place.
fn subtract(from: &mut [u128], other: &[u128])
    requires { length from.old ≡ length other.now }
    ensures { from.new ≡ listed (length from.old) (λ i. minus (slice_index from.old i) (slice_index other.now i)) }
{
    for (i, y) in other.iter().enumerate() {
        from[i] = sub(from[i], *y);
    }
}
