use point_keys::*;
use prg_chacha::Seed;
use ring128::{Party, add};
use std::test::Fail;

const ZEROS: Seed = Seed { words: [0; 8] };

const ONES: Seed = Seed { words: [1; 8] };

#[test]
fn values_and_tables_add_up(rt: HostRuntime) -> Result<(), Fail> {
    let alloc = rt.alloc();
    for (bits, a, weight) in [(2, 2, 5), (8, 255, 1 << 127)] {
        let (first, second) = generate(alloc, bits, a, weight, &ZEROS, &ONES).map_err(
            |_| "no memory",
        )?;
        assert_eq!(rt; first.bits(), bits as usize);
        assert_eq!(rt; second.bits(), bits as usize);
        let firsts = table(alloc, &first, Party::Zero).map_err(|_| "no memory")?;
        let seconds = table(alloc, &second, Party::One).map_err(|_| "no memory")?;
        assert_eq!(rt; firsts.len(), 1 << bits);
        assert_eq!(rt; seconds.len(), 1 << bits);
        for (i, of_first) in firsts.as_slice().iter().enumerate() {
            let x = i as u8;
            let expected = if x == a { weight } else { 0 };
            assert!(rt; i < 1 << first.bits() && i < 1 << second.bits() && i < seconds.len());
            assert_eq!(rt; value(&first, Party::Zero, x), *of_first, "at {i}");
            assert_eq!(rt;
                value(&second, Party::One, x),
                seconds.as_slice()[i],
                "at {i}"
            );
            assert_eq!(rt; add(*of_first, seconds.as_slice()[i]), expected, "at {i}");
        }
    }
    Ok(())
}

// The words are those of the construction in another hand, in Python.
#[test]
fn words_are_read_back_or_refused(rt: HostRuntime) -> Result<(), Fail> {
    let alloc = rt.alloc();
    let (first, _) = generate(alloc, 2, 2, 5, &ZEROS, &ONES).map_err(|_| "no memory")?;
    let words = to_words(alloc, &first).map_err(|_| "no memory")?;
    let expected = [
        0,
        0,
        0x00c5_7e22_da8b_35ac_cced_c3a2_257d_9368,
        0x113b_e91d_06e8_00b9_be8c_901a_29c6_b73f,
        0,
        0x9181_bc97_827c_a91f_a803_315e_5dc0_8ed2,
        0xe132_e376_46b5_cb90_91c1_0c73_e8ae_d64b,
        0,
        0xbdc9_d87a_3cc8_77dd_8a3e_2439_042d_1bba,
    ];
    assert_eq!(rt; words.as_slice(), expected.as_slice());
    assert_eq!(rt; length(2), 9);
    let again = from_words(alloc, 2, &expected).map_err(|_| "no key")?;
    let twice = to_words(alloc, &again).map_err(|_| "no memory")?;
    assert_eq!(rt; twice.as_slice(), expected.as_slice());
    let short = from_words(alloc, 2, &expected[..8]);
    assert_eq!(rt; short.err(), Some(KeyFault::Length { had: 8, wanted: 9 }));
    let mut changed = expected;
    changed[4] = 4;
    let refused = from_words(alloc, 2, &changed);
    assert_eq!(rt; refused.err(), Some(KeyFault::Bits { level: 0 }));
    // The two lowest bits of 4 are 0.
    let reduced = read_words(alloc, 2, &changed).map_err(|_| "no memory")?;
    changed[4] = 0;
    let reread = to_words(alloc, &reduced).map_err(|_| "no memory")?;
    assert_eq!(rt; reread.as_slice(), changed.as_slice());
    Ok(())
}
