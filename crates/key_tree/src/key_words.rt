// Keys as lists of words.

ghost use Rattle.std.specs.Prelude.{◌≡◌, ◌≤◌, IfOk, IfErr, length};
ghost use Rattle.key_tree.specs.KeyWords.{length_of, key_words, key_read, control_at, HasFault, HasNoFault};

use crate::fault::KeyFault;
use crate::key_level::KeyLevel;
use crate::tree_key::TreeKey;
use prg_chacha::Seed;
use ring128::{Memory, Words};
use std::alloc::Global;

/// How many words a key of `bits` bits has: two for the root, those of each level, and the last word.
pub fn length<L: KeyLevel>(bits: u8) -> u64
    ensures { result ≡ length_of L.WIDTH bits }
{
    3 + L::WIDTH as u64 * u64::from(bits)
}

/// The words of a key.
pub fn to_words<L: KeyLevel>(alloc: Global, key: &TreeKey<L>) -> Result<Words, Memory>
    ensures words { IfOk result (λ w. w ≡ key_words L.words key.now) }
    ensures length { IfOk result (λ w. length w ≡ length_of L.WIDTH (length key.now.levels)) }
    ensures undone { IfOk result (λ w. key_read L.read L.WIDTH (length key.now.levels) w ≡ key.now) }
{
    let mut words = Vec::with_capacity(alloc, 3 + L::WIDTH * key.levels.len())?;
    let (low, high) = key.root.halves();
    words.push(low)?;
    words.push(high)?;
    for level in &key.levels {
        level.push_words(&mut words)?;
    }
    words.push(key.last)?;
    Ok(Words::from_vec(words))
}

/// The key of `bits` bits that words of the right length are. Of each control word its two lowest bits
/// count, and where none is above 3 the key has these words.
pub fn read_words<L: KeyLevel>(
    alloc: Global,
    bits: u8,
    words: &[u128],
) -> Result<TreeKey<L>, Memory>
    requires few { bits ≤ 8 }
    requires long { length words.now ≡ length_of L.WIDTH bits }
    ensures key { IfOk result (λ k. k ≡ key_read L.read L.WIDTH bits words.now) }
    ensures bits { IfOk result (λ k. length k.levels ≡ bits) }
    ensures undone { IfOk result (λ k. HasNoFault (length words.now) (length_of L.WIDTH bits) bits (control_at L.WIDTH words.now)
        → key_words L.words k ≡ words.now) }
{
    let mut levels = Vec::with_capacity(alloc, bits as usize)?;
    for i in 0..bits {
        let at = 2 + L::WIDTH * i as usize;
        levels.push(L::read(&words[at..at + L::WIDTH]))?;
    }
    let root = Seed::from_halves(words[0], words[1]);
    Ok(TreeKey::new(root, levels, words[words.len() - 1]))
}

// The fault of a list of words, if it has one.
fn check_words<L: KeyLevel>(bits: u8, words: &[u128]) -> Result<(), KeyFault>
    requires { bits ≤ 8 }
    ensures good { IfOk result (λ _. HasNoFault (length words.now) (length_of L.WIDTH bits) bits (control_at L.WIDTH words.now)) }
    ensures fault { IfErr result (HasFault (length words.now) (length_of L.WIDTH bits) bits (control_at L.WIDTH words.now)) }
{
    let wanted = length::<L>(bits);
    if words.len() as u64 != wanted {
        return Err(KeyFault::Length {
            had: words.len() as u64,
            wanted,
        });
    }
    for i in 0..bits {
        if words[2 + L::WIDTH * i as usize + 2] > 3 {
            return Err(KeyFault::Bits { level: i });
        }
    }
    Ok(())
}

/// The key of `bits` bits that has these words. Every list of the right length whose control words are
/// at most 3 is one.
pub fn from_words<L: KeyLevel>(
    alloc: Global,
    bits: u8,
    words: &[u128],
) -> Result<TreeKey<L>, KeyFault>
    requires { bits ≤ 8 }
    ensures key { IfOk result (λ k. k ≡ key_read L.read L.WIDTH bits words.now) }
    ensures bits { IfOk result (λ k. length k.levels ≡ bits) }
    ensures undone { IfOk result (λ k. key_words L.words k ≡ words.now) }
    ensures good { IfOk result (λ k. HasNoFault (length words.now) (length_of L.WIDTH bits) bits (control_at L.WIDTH words.now)) }
    ensures fault { IfErr result (HasFault (length words.now) (length_of L.WIDTH bits) bits (control_at L.WIDTH words.now)) }
{
    check_words::<L>(bits, words)?;
    let key = read_words(alloc, bits, words)?;
    Ok(key)
}
