use prg_chacha::Seed;
use replicated_share::*;
use std::test::Fail;

const ZERO: Seed = Seed { words: [0; 8] };

// The pads 0 to 3 of the seed of zeros, and what they leave of 7 and of 9, by another ChaCha20.
const X0: [u128; 2] = [
    0x815e634c032f818d72702844b7b9c5d0,
    0xb26260426594d045d4c25ca995a87236,
];

const X1: [u128; 2] = [
    0x1218bf041f0fe43e6347791c312cb092,
    0x1c128d9f7ae4e430a43d575ad619133f,
];

const X2: [u128; 2] = [
    0x6c88ddafddc09a342a485e9f171989a5,
    0x318b121e1f864b8987004bfb943e7a94,
];

#[test]
fn a_split_list_has_these_shares(rt: HostRuntime) -> Result<(), Fail> {
    let three = split(rt.alloc(), &[7, 9], &ZERO).ok().ok_or("memory")?;
    for (k, want) in [(0, X0), (1, X1), (2, X2)] {
        assert_eq!(rt; three.share(k).as_slice(), want.as_slice(), "share {k}");
    }
    for (server, first, second) in [(0, X0, X1), (1, X1, X2), (2, X2, X0)] {
        let pair = three.pair(rt.alloc(), server).ok().ok_or("memory")?;
        assert_eq!(rt;
            pair.first.as_slice(),
            first.as_slice(),
            "first of {server}"
        );
        assert_eq!(rt;
            pair.second.as_slice(),
            second.as_slice(),
            "second of {server}"
        );
    }
    Ok(())
}

#[test]
fn a_number_is_revealed(rt: HostRuntime) -> Result<(), Fail> {
    let three = split(rt.alloc(), &[7], &ZERO).ok().ok_or("memory")?;
    let (p0, p1, p2) = three.into_pairs(rt.alloc()).ok().ok_or("memory")?;
    assert!(rt; !p0.is_empty() && p0.len() == 1 && p1.len() == 1 && p2.len() == 1);
    let (a, b, c) = (p0.at(0), p1.at(0), p2.at(0));
    assert_eq!(rt; reveal(a, b, c), 7);
    assert_eq!(rt;
        reveal(add_pairs(a, a), add_pairs(b, b), add_pairs(c, c)),
        14
    );
    assert_eq!(rt;
        reveal(scale_pair(a, 3), scale_pair(b, 3), scale_pair(c, 3)),
        21
    );
    Ok(())
}
