// Interval keys as lists of words.

ghost use Rattle.std.specs.Prelude.{◌≡◌, ◌≤◌, ◌*◌, IfOk, IfErr, length};
ghost use Rattle.key_tree.specs.KeyWords.{HasFault, HasNoFault};
ghost use Rattle.interval_keys.specs.IntervalWords.{length_of, words_of_key, key_of_words, controls, later, IsBelow};

use crate::key::IntervalKey;
use key_tree::KeyFault;
use ring128::{Memory, Words};
use std::alloc::Global;

/// How many words a key of `bits` bits has: 6 and 8 more a bit.
pub fn length(bits: u8) -> u64
    ensures { result ≡ length_of bits }
{
    2 * compare_keys::length(bits)
}

/// The words of a key: those of the upper key and then those of the lower one. [`from_words`] makes the
/// key of them again.
pub fn to_words(alloc: Global, key: &IntervalKey) -> Result<Words, Memory>
    ensures words { IfOk result (λ w. w ≡ words_of_key key.now) }
    ensures length { IfOk result (λ w. length w ≡ length_of (length key.now.upper.levels)) }
    ensures undone { IfOk result (λ w. key_of_words (length key.now.upper.levels) w ≡ key.now) }
{
    let mut words = compare_keys::to_words(alloc, &key.upper)?.into_vec();
    let lower = compare_keys::to_words(alloc, &key.lower)?;
    words.extend_from_slice(lower.as_slice())?;
    Ok(Words::from_vec(words))
}

/// The key of `bits` bits that words of the right length are, whatever they are: of each control word its
/// two lowest bits count.
pub fn read_words(alloc: Global, bits: u8, words: &[u128]) -> Result<IntervalKey, Memory>
    requires few { bits ≤ 8 }
    requires long { length words.now ≡ length_of bits }
    ensures key { IfOk result (λ k. k ≡ key_of_words bits words.now) }
    ensures bits { IfOk result (λ k. length k.upper.levels ≡ bits) }
{
    let (first, second) = words.split_at(words.len() / 2);
    let upper = compare_keys::read_words(alloc, bits, first)?;
    let lower = compare_keys::read_words(alloc, bits, second)?;
    Ok(IntervalKey { upper, lower })
}

/// The key of `bits` bits that has these words. `Length` comes exactly where their number is not that of
/// [`length`], then `Bits` exactly where a control word is above 3, with the first such level; the levels
/// of the lower key are counted after those of the upper one. Every other list is a key, and
/// [`to_words`] gives it again.
pub fn from_words(alloc: Global, bits: u8, words: &[u128]) -> Result<IntervalKey, KeyFault>
    requires { bits ≤ 8 }
    ensures key { IfOk result (λ k. k ≡ key_of_words bits words.now) }
    ensures bits { IfOk result (λ k. length k.upper.levels ≡ bits) }
    ensures undone { IfOk result (λ k. words_of_key k ≡ words.now) }
    ensures good { IfOk result (λ k. HasNoFault (length words.now) (length_of bits) (2 * bits) (controls bits words.now)) }
    ensures fault { IfErr result (HasFault (length words.now) (length_of bits) (2 * bits) (controls bits words.now)) }
{
    let wanted = length(bits);
    if words.len() as u64 != wanted {
        return Err(KeyFault::Length {
            had: words.len() as u64,
            wanted,
        });
    }
    let (first, second) = words.split_at(words.len() / 2);
    let upper = compare_keys::from_words(alloc, bits, first)?;
    let lower = match compare_keys::from_words(alloc, bits, second) {
        Ok(lower) => lower,
        Err(fault) => return Err(later(bits, fault)),
    };
    Ok(IntervalKey { upper, lower })
}

// A fault with its level counted after `levels` others.
fn later(levels: u8, fault: KeyFault) -> KeyFault
    requires few { levels ≤ 8 }
    requires low { IsBelow 8 fault }
    ensures { result ≡ later levels fault }
{
    match fault {
        KeyFault::Bits { level } => KeyFault::Bits {
            level: levels + level,
        },
        other => other,
    }
}
