use prg_chacha::Seed;
use replicated_share::{Pair, PairList, split};
use ring128::{Memory, Words};
use share_product::*;
use std::alloc::Global;
use std::test::Fail;
use zero_share::ZeroSeeds;

const ZEROS: Seed = Seed { words: [0; 8] };

const ONES: Seed = Seed { words: [1; 8] };

const TWOS: Seed = Seed { words: [2; 8] };

fn shares(alloc: Global, values: [u128; 2], seed: &Seed) -> Result<[PairList; 3], Memory> {
    let (zero, one, two) = split(alloc, &values, seed)?.into_pairs(alloc)?;
    Ok([zero, one, two])
}

#[test]
fn parts_add_up_to_the_products(rt: HostRuntime) -> Result<(), Fail> {
    let a = shares(rt.alloc(), [3, 4], &ZEROS).ok().ok_or("memory")?;
    let b = shares(rt.alloc(), [5, 6], &ONES).ok().ok_or("memory")?;
    let seeds = [ZEROS, ONES, TWOS];
    let mut products = [0; 2];
    let mut total: u128 = 0;
    for k in 0..3 {
        assert!(rt; a[k].len() == 2 && b[k].len() == 2);
        let zero = ZeroSeeds {
            own: seeds[k],
            next: seeds[(k + 1) % 3],
        };
        let rows = local_rows(rt.alloc(), &a[k], &b[k], &zero, 100)
            .ok()
            .ok_or("memory")?;
        assert!(rt; rows.len() == 2);
        ring128::add_into(&mut products, rows.as_slice());
        total = total.wrapping_add(inner(&a[k], &b[k]));
    }
    assert_eq!(rt; products, [15, 24]);
    assert_eq!(rt; total, 39);
    Ok(())
}

#[test]
fn a_server_holds_its_part_and_the_next(rt: HostRuntime) -> Result<(), Fail> {
    let pair = Pair {
        first: 2,
        second: 3,
    };
    assert_eq!(rt;
        local(
            pair,
            Pair {
                first: 5,
                second: 7
            }
        ),
        39
    );
    let own = Words::from_vec(Vec::from_slice(rt.alloc(), &[1])?);
    let got = Words::from_vec(Vec::from_slice(rt.alloc(), &[2])?);
    assert!(rt; own.len() == got.len());
    let held = accept_reshare(own, got);
    assert_eq!(rt; held.first.as_slice(), [1].as_slice());
    assert_eq!(rt; held.second.as_slice(), [2].as_slice());
    Ok(())
}
