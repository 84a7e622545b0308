// What a server reads from its key message.

ghost use Rattle.std.specs.Prelude.{◌≡◌, ◌<◌, ◌≤◌, ◌+◌, ◌*◌, ℕ, All, IfErr, IfOk, length};
ghost use Rattle.query_plan.specs.KeyMessages.{keys_read, message_length, pair_read, pairs_read, part_at};
ghost use Rattle.query_plan.specs.KeyMessages.{part_length, run_length, HasMessageFault, HasColumn};

use crate::key::{KeyPair, key_length, read_key};
use crate::server_keys::ServerKeys;
use prg_chacha::Seed;
use ring128::Memory;
use std::alloc::Global;
use table_schema::{Part, Shape, Widths};

/// Why a list of words is no key message.
#[derive(Clone, Copy, Debug, PartialEq, Eq)]
pub enum MessageFault {
    /// The message has `had` words, and that of a query of this shape has `wanted`.
    Length { had: u64, wanted: u64 },
    /// Out of memory.
    Memory,
}

impl From<Memory> for MessageFault {
    ghost use Rattle.query_plan.specs.declared.message.MessageFault.TheVariants as fault;

    ghost from_gives = { λ _ e. e ≡ fault.Memory };

    fn from(_error: Memory) -> MessageFault {
        MessageFault::Memory
    }
}

/// The keys that a server reads from its key message: two words for its seed of zero parts, two for the next
/// server's, and then the words of its keys, run by run and part by part, two keys of each part. Of each
/// control word the two lowest bits count, so every list of the right length is read. `Length` comes exactly
/// where the list has another length than a query of this shape asks for.
pub fn read_message(
    alloc: Global,
    shape: &Shape,
    widths: &Widths,
    words: &[u128],
) -> Result<ServerKeys, MessageFault>
    requires few { shape.now.count ≤ 4 }
    requires there { (j : ℕ) → j < shape.now.count → (part_at shape.now j).column < widths.now.columns }
    ensures keys { IfOk result (λ k. k ≡ keys_read shape.now widths.now.bits words.now) }
    ensures long { IfOk result (λ _. length words.now ≡ message_length shape.now widths.now.bits) }
    ensures shape { IfOk result (λ k. (length k.run0 ≡ shape.now.count) × (length k.run1 ≡ shape.now.count)) }
    ensures fault { IfErr result (HasMessageFault (length words.now) (message_length shape.now widths.now.bits)) }
{
    let parts = &shape.parts[..shape.count as usize];
    let run = run_length(widths, parts);
    let wanted = 4 + 2 * run as u64;
    if words.len() as u64 != wanted {
        return Err(MessageFault::Length {
            had: words.len() as u64,
            wanted,
        });
    }
    let own = Seed::from_halves(words[0], words[1]);
    let next = Seed::from_halves(words[2], words[3]);
    let run0 = read_run(alloc, widths, parts, &words[4..])?;
    let run1 = read_run(alloc, widths, parts, &words[4 + run..])?;
    Ok(ServerKeys::new(own, next, run0, run1))
}

/// How many words the key message to each server has, for a query of this shape over columns of these widths.
pub fn message_length(shape: &Shape, widths: &Widths) -> u64
    requires few { shape.now.count ≤ 4 }
    requires there { (j : ℕ) → j < shape.now.count → (part_at shape.now j).column < widths.now.columns }
    ensures { result ≡ message_length shape.now widths.now.bits }
{
    4 + 2 * run_length(widths, &shape.parts[..shape.count as usize]) as u64
}

// How many words the keys of a part have.
fn part_length(widths: &Widths, part: &Part) -> usize
    requires { HasColumn widths.now.columns part.now }
    ensures length { result ≡ part_length widths.now.bits part.now }
    ensures few { result ≤ 70 }
{
    key_length(part.kind, widths.bits[part.column as usize]) as usize
}

// How many words the keys of these parts have in a run, two of each part.
fn run_length(widths: &Widths, parts: &[Part]) -> usize
    requires few { length parts.now ≤ 4 }
    requires there { All (HasColumn widths.now.columns) parts.now }
    ensures length { result ≡ run_length widths.now.bits parts.now }
    ensures few { result ≤ 560 }
{
    let mut total = 0;
    for part in parts {
        total += 2 * part_length(widths, part);
    }
    total
}

// The keys of these parts that a list of words begins with.
fn read_run(
    alloc: Global,
    widths: &Widths,
    parts: &[Part],
    words: &[u128],
) -> Result<Vec<KeyPair>, Memory>
    requires there { All (HasColumn widths.now.columns) parts.now }
    requires long { run_length widths.now.bits parts.now ≤ length words.now }
    ensures pairs { IfOk result (λ v. v.items ≡ pairs_read widths.now.bits parts.now words.now) }
    ensures length { IfOk result (λ v. length v.items ≡ length parts.now) }
{
    let mut pairs = Vec::with_capacity(alloc, parts.len())?;
    let mut rest = words;
    for part in parts {
        pairs.push(read_pair(alloc, widths, part, rest)?)?;
        rest = &rest[2 * part_length(widths, part)..];
    }
    Ok(pairs)
}

// The two keys of a part that a list of words begins with.
fn read_pair(alloc: Global, widths: &Widths, part: &Part, words: &[u128]) -> Result<KeyPair, Memory>
    requires there { HasColumn widths.now.columns part.now }
    requires long { 2 * part_length widths.now.bits part.now ≤ length words.now }
    ensures { IfOk result (λ p. p ≡ pair_read widths.now.bits part.now words.now) }
{
    let bits = widths.bits[part.column as usize];
    let length = part_length(widths, part);
    let party0 = read_key(alloc, part.kind, bits, &words[..length])?;
    let party1 = read_key(alloc, part.kind, bits, &words[length..2 * length])?;
    Ok(KeyPair { party0, party1 })
}
