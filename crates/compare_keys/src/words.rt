// Comparison keys as lists of words.

ghost use Rattle.std.specs.Prelude.{◌≡◌, ◌≤◌, IfOk, IfErr, length};
ghost use Rattle.key_tree.specs.KeyWords.{HasFault, HasNoFault};
ghost use Rattle.compare_keys.specs.CompareWords.{length_of, words_of_key, key_of_words, controls};

use crate::key::CompareKey;
use key_tree::KeyFault;
use ring128::{Memory, Words};
use std::alloc::Global;

/// How many words a key of `bits` bits has: 3 and 4 more a bit.
pub fn length(bits: u8) -> u64
    ensures { result ≡ length_of bits }
{
    key_tree::length::<crate::CompareLevel>(bits)
}

/// The words of a key: its root (2 words), for each level from the highest bit down its seed (2), its
/// control word (1) and its value correction (1), and the last word. [`from_words`] makes the key of them again.
pub fn to_words(alloc: Global, key: &CompareKey) -> Result<Words, Memory>
    ensures words { IfOk result (λ w. w ≡ words_of_key key.now) }
    ensures length { IfOk result (λ w. length w ≡ length_of (length key.now.levels)) }
    ensures undone { IfOk result (λ w. key_of_words (length key.now.levels) w ≡ key.now) }
{
    key_tree::to_words(alloc, key)
}

/// The key of `bits` bits that words of the right length are, whatever they are: of each control word its
/// two lowest bits count.
pub fn read_words(alloc: Global, bits: u8, words: &[u128]) -> Result<CompareKey, Memory>
    requires few { bits ≤ 8 }
    requires long { length words.now ≡ length_of bits }
    ensures key { IfOk result (λ k. k ≡ key_of_words bits words.now) }
    ensures bits { IfOk result (λ k. length k.levels ≡ bits) }
{
    key_tree::read_words(alloc, bits, words)
}

/// The key of `bits` bits that has these words. `Length` comes exactly where their number is not that of
/// [`length`], then `Bits` exactly where a control word is above 3, with the first such level. Every
/// other list is a key, and [`to_words`] gives it again.
pub fn from_words(alloc: Global, bits: u8, words: &[u128]) -> Result<CompareKey, KeyFault>
    requires { bits ≤ 8 }
    ensures key { IfOk result (λ k. k ≡ key_of_words bits words.now) }
    ensures bits { IfOk result (λ k. length k.levels ≡ bits) }
    ensures undone { IfOk result (λ k. words_of_key k ≡ words.now) }
    ensures good { IfOk result (λ k. HasNoFault (length words.now) (length_of bits) bits (controls words.now)) }
    ensures fault { IfErr result (HasFault (length words.now) (length_of bits) bits (controls words.now)) }
{
    key_tree::from_words(alloc, bits, words)
}
