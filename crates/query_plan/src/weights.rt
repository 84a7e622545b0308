// The weights of a query's predicates, and the key that they make.

ghost use Rattle.std.specs.Prelude.{◌≡◌, ◌<◌, ◌%◌};
ghost use Rattle.query_plan.specs.Seeds.{weights_of};
ghost use Rattle.query_plan.specs.Views.{key_from};

use crate::laws;
use crate::query::Query;
use prg_chacha::{Seed, derive};
use ring128::mul;

/// The weight of predicate `j` in a run: 1 in run 0, and in run 1 an odd number below 2^64, drawn from the query's seed.
pub(crate) fn weight(seed: &Seed, run: u8, j: u8) -> u128
    requires { run < 2 }
    ensures { result ≡ weights_of seed.now run j }
{
    if run == 0 {
        return 1;
    }
    let (low, _) = derive(seed, 18, u16::from(j), 0).halves();
    low % (1u128 << 64) / 2 * 2 + 1
}

/// The key of a query: the product of its predicates' weights in run 1, modulo 2^128. It is odd.
pub fn key_of(query: &Query, seed: &Seed) -> u128
    ensures key { result ≡ key_from (weights_of seed.now 1) query.now.count }
    ensures odd { result % 2 ≡ 1 }
{
    laws::keys_are_odd();
    let mut key = 1;
    for j in 0..query.count {
        key = mul(key, weight(seed, 1, j));
    }
    key
}
