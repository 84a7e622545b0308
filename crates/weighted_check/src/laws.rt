//! The exact limit of what the check finds, as functions without effect: the clause of each is the law, for all numbers.
//!
//! An alteration makes the opened total the plain one plus `d`, and the opened weighted total the key times the plain one plus
//! `e`, modulo 2^128. Whatever was altered, there are such a `d` and such an `e`.

ghost use Rattle.std.specs.Prelude.{◌≡◌, ◌≢◌, ◌↔◌, ◌⊎◌, ◌<◌, ◌^◌, ◌%◌};
ghost use Rattle.ring128.specs.Ring.{times};
ghost use Rattle.ring128.specs.Signed.{signed_of, size_of};
ghost use Rattle.weighted_check.specs.Shifts.{Passes, shifted_total, shifted_weighted, total_shift, weighted_shift};

/// Each pair is the pair of its shifts.
pub fn opened_by_shifts(total: u128, weighted: u128, plain: i64, key: u128)
    ensures total { shifted_total plain (total_shift total plain) ≡ total }
    ensures weighted { shifted_weighted key plain (weighted_shift weighted key plain) ≡ weighted }
{}

/// A pair with the shifts `d` and `e` is accepted exactly where `e` is the key times `d` and the opened total's signed reading has a
/// size below 2^63.
pub fn shifted(plain: i64, d: u128, e: u128, key: u128)
    ensures { Passes plain d e key ↔ ((e ≡ times key d) × (size_of (signed_of (shifted_total plain d)) < 2 ^ 63)) }
{}

/// Where exactly one of the two totals is shifted, the pair is refused.
pub fn one_shift(plain: i64, d: u128, e: u128, key: u128)
    requires odd { key % 2 ≡ 1 }
    requires one { ((d ≢ 0) × (e ≡ 0)) ⊎ ((d ≡ 0) × (e ≢ 0)) }
    ensures { ¬ Passes plain d e key }
{}

/// Where the total is shifted, at most one weight of a predicate lets the shifts pass, the other weights and the shifts being what
/// they are.
pub fn one_weight(plain: i64, d: u128, e: u128, others: u128, first: u64, second: u64)
    requires shift { d ≢ 0 }
    requires odd { others % 2 ≡ 1 }
    ensures { Passes plain d e (times others first) → Passes plain d e (times others second) → first ≡ second }
{}
