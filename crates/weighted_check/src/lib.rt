//! The client's check of the two totals that it opens. A second run repeats the first with a secret odd weight on each
//! predicate, so an unaltered pair is a total and the key times it, the key being the product of the weights. Totals are numbers modulo
//! 2^128; the signed reading of one is itself below 2^127, and from there on itself minus 2^128. A total is accepted where the relation
//! holds modulo 2^128 and its signed reading has a size below 2^63; that reading is then the answer.
//!
//! It does not find who altered what, and an altered pair that keeps the relation passes. Which ones do is said exactly in
//! [`laws`]: where the total is off by d and the weighted total by e, just those with e the key times d, modulo 2^128, whose total's
//! signed reading keeps a size below 2^63.
//!
//! ```text
//! let pair = both_runs(rt, alloc, &mut shelves, &keys, &mut wire)?;
//! match check(pair.total, pair.weighted, keys.key()) {
//!     Ok(total) => println!(rt; "{total}")?,
//!     Err(Altered { total, weighted }) => println!(rt; "altered: {total}, {weighted}")?,
//! }
//! ```
#![tactic(auto)]

ghost use Rattle.std.specs.Prelude.{◌≡◌, ◌↔◌, IsOk};
ghost use Rattle.ring128.specs.Signed.{signed_of};
ghost use Rattle.weighted_check.specs.Check.{Accepts, checked};

pub mod laws;

use ring128::mul;

/// A pair of totals that the check refuses, as it was opened.
#[derive(Clone, Copy, Debug, PartialEq, Eq)]
pub struct Altered {
    pub total: u128,
    pub weighted: u128,
}

// The signed reading of a number modulo 2^128.
fn reading(total: u128) -> i128
    ensures { result ≡ signed_of total }
{
    total.cast_signed()
}

/// The total's signed reading, where the weighted total is the key times the total modulo 2^128 and the reading has a size below 2^63;
/// else `Altered` with the two.
pub fn check(total: u128, weighted: u128, key: u128) -> Result<i64, Altered>
    ensures answer { result ≡ checked total weighted key }
    ensures accepts { IsOk result ↔ Accepts total weighted key }
{
    let read = reading(total);
    if weighted == mul(key, total) && read.unsigned_abs() < 1 << 63 {
        Ok(read as i64)
    } else {
        Err(Altered { total, weighted })
    }
}
