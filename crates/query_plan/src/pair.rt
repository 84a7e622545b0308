// The two keys of a predicate for one share, and the words of a key.

ghost use Rattle.std.specs.Prelude.{◌≡◌, ◌<◌, ◌≤◌, ◌^◌, IfOk};
ghost use Rattle.query_plan.specs.PredicateKeys.{key_for, words_of_key};
ghost use Rattle.query_plan.specs.Seeds.{roots_of};

use crate::key::PredicateKey;
use crate::query::Predicate;
use prg_chacha::{Seed, derive};
use ring128::{Memory, Party, Words};
use std::alloc::Global;
use table_schema::Kind;

/// The four roots of the keys of predicate `j` for a share in a run.
pub(crate) fn roots(seed: &Seed, run: u8, j: u8, share: u8) -> [Seed; 4]
    requires { (run < 2) × (j < 4) × (share < 3) }
    ensures { result ≡ roots_of seed.now run j share }
{
    let place = u16::from(4 * run + j);
    let first = u64::from(4 * share);
    [
        derive(seed, 17, place, first),
        derive(seed, 17, place, first + 1),
        derive(seed, 17, place, first + 2),
        derive(seed, 17, place, first + 3),
    ]
}

/// The keys of party 0 and party 1 for a predicate over a column of `bits` bits.
pub(crate) fn generate(
    alloc: Global,
    predicate: &Predicate,
    bits: u8,
    weight: u128,
    roots: &[Seed; 4],
) -> Result<(PredicateKey, PredicateKey), Memory>
    requires few { bits ≤ 8 }
    requires order { predicate.now.low ≤ predicate.now.high }
    requires within { predicate.now.high < 2 ^ bits }
    ensures zero { IfOk result (λ p. p.0 ≡ key_for Party.Zero bits predicate.now weight roots.now) }
    ensures one { IfOk result (λ p. p.1 ≡ key_for Party.One bits predicate.now weight roots.now) }
{
    let Predicate {
        column: _,
        kind,
        low,
        high,
    } = *predicate;
    match kind {
        Kind::Point => {
            let (zero, one) = point_keys::generate(alloc, bits, low, weight, &roots[0], &roots[1])?;
            Ok((PredicateKey::Point(zero), PredicateKey::Point(one)))
        }
        Kind::AtMost => {
            let (zero, one) = compare_keys::generate(
                alloc, bits, high, weight, &roots[0], &roots[1],
            )?;
            Ok((PredicateKey::AtMost(zero), PredicateKey::AtMost(one)))
        }
        Kind::Interval => {
            let (zero, one) = interval_keys::generate(alloc, bits, low, high, weight, roots)?;
            Ok((PredicateKey::Interval(zero), PredicateKey::Interval(one)))
        }
    }
}

/// The words of a key.
pub(crate) fn to_words(alloc: Global, key: &PredicateKey) -> Result<Words, Memory>
    ensures { IfOk result (λ w. w ≡ words_of_key key.now) }
{
    match key {
        PredicateKey::Point(key) => point_keys::to_words(alloc, key),
        PredicateKey::AtMost(key) => compare_keys::to_words(alloc, key),
        PredicateKey::Interval(key) => interval_keys::to_words(alloc, key),
    }
}
