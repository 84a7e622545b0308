//! Seeds written as digits.
ghost use Rattle.std.specs.Prelude.{◌≡◌};
ghost use Rattle.waldo_words.specs.Values.{seed_of, zero_seed};

use hex::FromHex;
use prg_chacha::Seed;

/// The seed of 64 hexadecimal digits, in either case.
#[tactic(auto, unfolding(crate::specs::Values::seed_of))]
pub(crate) fn master_seed(text: &str) -> Option<Seed>
    ensures { result ≡ seed_of text.now }
{
    match <[u8; 32] as FromHex>::from_hex(text) {
        Ok(bytes) => Some(Seed::from_bytes(&bytes)),
        Err(_) => None,
    }
}

/// The seed where none is given: 32 bytes 0.
pub(crate) fn plain_seed() -> Seed
    ensures { result ≡ zero_seed }
{
    Seed { words: [0; 8] }
}
