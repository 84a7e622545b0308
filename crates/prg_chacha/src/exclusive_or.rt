ghost use Rattle.std.specs.Prelude.{◌≡◌};
ghost use Rattle.prg_chacha.specs.Prg.{xor_of};

use crate::Seed;

/// The seed whose words are the bitwise exclusive ors of the words of two seeds.
#[tactic(auto, unfolding(crate::specs::Prg::xor_of))]
pub fn xor(s: &Seed, t: &Seed) -> Seed
    ensures { result ≡ xor_of s.now t.now }
{
    let [s0, s1, s2, s3, s4, s5, s6, s7] = s.words;
    let [t0, t1, t2, t3, t4, t5, t6, t7] = t.words;
    Seed {
        words: [
            s0 ^ t0,
            s1 ^ t1,
            s2 ^ t2,
            s3 ^ t3,
            s4 ^ t4,
            s5 ^ t5,
            s6 ^ t6,
            s7 ^ t7,
        ],
    }
}
