ghost use Rattle.std.specs.Prelude.{◌≡◌, ◌≤◌, IfOk, length};
ghost use Rattle.query_plan.specs.PredicateKeys.{key_in, key_of_words, length_of, table_of};

use compare_keys::CompareKey;
use interval_keys::IntervalKey;
use point_keys::PointKey;
use ring128::{Memory, Party, Words};
use std::alloc::Global;
use table_schema::Kind;

/// The key of one party for a predicate of any kind.
#[derive(Drop)]
pub enum PredicateKey {
    Point(PointKey),
    AtMost(CompareKey),
    Interval(IntervalKey),
}

/// The two keys of a predicate that a server holds: that of party 0 for its own share, and that of party 1 for the next
/// server's share.
#[derive(Drop)]
pub struct KeyPair {
    pub party0: PredicateKey,
    pub party1: PredicateKey,
}

impl PredicateKey {
    /// The values of a party's key at all buckets, in order.
    pub(crate) fn table(&self, alloc: Global, party: Party) -> Result<Words, Memory>
        ensures { IfOk result (λ w. w ≡ table_of party self.now) }
    {
        match self {
            PredicateKey::Point(key) => point_keys::table(alloc, key, party),
            PredicateKey::AtMost(key) => compare_keys::table(alloc, key, party),
            PredicateKey::Interval(key) => interval_keys::table(alloc, key, party),
        }
    }
}

impl KeyPair {
    /// The values at all buckets, in order, of the key of that party.
    pub(crate) fn table(&self, alloc: Global, party: Party) -> Result<Words, Memory>
        ensures { IfOk result (λ w. w ≡ table_of party (key_in party self.now)) }
    {
        match party {
            Party::Zero => self.party0.table(alloc, party),
            Party::One => self.party1.table(alloc, party),
        }
    }
}

/// How many words the key of a predicate of this kind has, over a column of `bits` bits.
pub(crate) fn key_length(kind: Kind, bits: u8) -> u64
    ensures { result ≡ length_of kind bits }
{
    match kind {
        Kind::Point => point_keys::length(bits),
        Kind::AtMost => compare_keys::length(bits),
        Kind::Interval => interval_keys::length(bits),
    }
}

/// The key of this kind that words of the right length are. Of each control word the two lowest bits count.
pub(crate) fn read_key(
    alloc: Global,
    kind: Kind,
    bits: u8,
    words: &[u128],
) -> Result<PredicateKey, Memory>
    requires few { bits ≤ 8 }
    requires long { length words.now ≡ length_of kind bits }
    ensures { IfOk result (λ k. k ≡ key_of_words kind bits words.now) }
{
    match kind {
        Kind::Point => read_point(alloc, bits, words),
        Kind::AtMost => read_at_most(alloc, bits, words),
        Kind::Interval => read_interval(alloc, bits, words),
    }
}

fn read_point(alloc: Global, bits: u8, words: &[u128]) -> Result<PredicateKey, Memory>
    requires few { bits ≤ 8 }
    requires long { length words.now ≡ length_of Kind.Point bits }
    ensures { IfOk result (λ k. k ≡ key_of_words Kind.Point bits words.now) }
{
    match point_keys::read_words(alloc, bits, words) {
        Ok(key) => Ok(PredicateKey::Point(key)),
        Err(memory) => Err(memory),
    }
}

fn read_at_most(alloc: Global, bits: u8, words: &[u128]) -> Result<PredicateKey, Memory>
    requires few { bits ≤ 8 }
    requires long { length words.now ≡ length_of Kind.AtMost bits }
    ensures { IfOk result (λ k. k ≡ key_of_words Kind.AtMost bits words.now) }
{
    match compare_keys::read_words(alloc, bits, words) {
        Ok(key) => Ok(PredicateKey::AtMost(key)),
        Err(memory) => Err(memory),
    }
}

fn read_interval(alloc: Global, bits: u8, words: &[u128]) -> Result<PredicateKey, Memory>
    requires few { bits ≤ 8 }
    requires long { length words.now ≡ length_of Kind.Interval bits }
    ensures { IfOk result (λ k. k ≡ key_of_words Kind.Interval bits words.now) }
{
    match interval_keys::read_words(alloc, bits, words) {
        Ok(key) => Ok(PredicateKey::Interval(key)),
        Err(memory) => Err(memory),
    }
}
