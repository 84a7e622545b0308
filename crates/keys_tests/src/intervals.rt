use interval_keys::*;
use prg_chacha::Seed;
use ring128::{Party, add};
use std::test::Fail;

const ZEROS: Seed = Seed { words: [0; 8] };

const ONES: Seed = Seed { words: [1; 8] };

const ROOTS: [Seed; 4] = [ZEROS, ONES, ONES, ZEROS];

#[test]
fn values_and_tables_add_up(rt: HostRuntime) -> Result<(), Fail> {
    let alloc = rt.alloc();
    for (low, high, expected) in [(1, 2, [0, 5, 5, 0]), (0, 0, [5, 0, 0, 0])] {
        let (first, second) = generate(alloc, 2, low, high, 5, &ROOTS).map_err(|_| "no memory")?;
        assert!(rt; first.bits() == 2 && second.bits() == 2);
        let firsts = table(alloc, &first, Party::Zero).map_err(|_| "no memory")?;
        let seconds = table(alloc, &second, Party::One).map_err(|_| "no memory")?;
        assert!(rt; firsts.len() == 4 && seconds.len() == 4);
        for x in 0..4u8 {
            let i = x as usize;
            let sum = add(value(&first, Party::Zero, x), value(&second, Party::One, x));
            assert_eq!(rt; sum, expected[i], "{low} to {high} at {x}");
            let of_tables = add(firsts.as_slice()[i], seconds.as_slice()[i]);
            assert_eq!(rt; of_tables, expected[i], "{low} to {high} at {x}");
        }
    }
    Ok(())
}

// The words are those of the construction in another hand, in Python.
#[test]
fn words_are_read_back_or_refused(rt: HostRuntime) -> Result<(), Fail> {
    let alloc = rt.alloc();
    let (first, _) = generate(alloc, 2, 1, 2, 5, &ROOTS).map_err(|_| "no memory")?;
    let words = to_words(alloc, &first).map_err(|_| "no memory")?;
    let expected = [
        0,
        0,
        0x00c5_7e22_da8b_35ac_cced_c3a2_257d_9368,
        0x113b_e91d_06e8_00b9_be8c_901a_29c6_b73f,
        0,
        0xd407_8ee4_9aa8_ff8c_f035_5792_0214_b113,
        0x9181_bc97_827c_a91f_a803_315e_5dc0_8ed2,
        0xe132_e376_46b5_cb90_91c1_0c73_e8ae_d64b,
        0,
        0xe329_4574_e9b8_a02f_dada_2386_18ec_91d5,
        0xb6cc_d9f6_d974_337c_f171_3a25_3b04_8772,
        0x0001_0000_0001_0000_0001_0000_0001,
        0x0001_0000_0001_0000_0001_0000_0001,
        0xbd8a_69c3_eb6a_8135_b1a5_dd81_3b43_26a2,
        0xca1c_6f10_2bc4_79f5_4a25_5217_833e_af81,
        3,
        0x71cf_22b7_73ed_04b7_bd79_b0e5_b3af_93d6,
        0x7c3c_48ee_f13b_9c64_d838_4e54_2e9d_83f4,
        0xf699_7783_b1b4_54f8_0977_e55f_6078_16bd,
        2,
        0x8892_c043_f64b_8ea9_f825_fd2e_5a4c_9146,
        0x2f0c_85b6_4d6d_d265_99b0_f12e_5362_fad9,
    ];
    assert_eq!(rt; words.as_slice(), expected.as_slice());
    assert_eq!(rt; length(2), 22);
    let again = from_words(alloc, 2, &expected).map_err(|_| "no key")?;
    let twice = to_words(alloc, &again).map_err(|_| "no memory")?;
    assert_eq!(rt; twice.as_slice(), expected.as_slice());
    let short = from_words(alloc, 2, &expected[..11]);
    assert_eq!(rt;
        short.err(),
        Some(KeyFault::Length {
            had: 11,
            wanted: 22
        })
    );
    let mut changed = expected;
    changed[15] = 4;
    let refused = from_words(alloc, 2, &changed);
    assert_eq!(rt; refused.err(), Some(KeyFault::Bits { level: 2 }));
    // The two lowest bits of 4 are 0.
    let reduced = read_words(alloc, 2, &changed).map_err(|_| "no memory")?;
    changed[15] = 0;
    let reread = to_words(alloc, &reduced).map_err(|_| "no memory")?;
    assert_eq!(rt; reread.as_slice(), changed.as_slice());
    Ok(())
}
