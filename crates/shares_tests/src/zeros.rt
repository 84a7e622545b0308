use prg_chacha::Seed;
use zero_share::*;

const ZEROS: Seed = Seed { words: [0; 8] };

const ONES: Seed = Seed { words: [1; 8] };

const LAST: u64 = u64::MAX;

// The parts of the seeds of zeros and ones, by another ChaCha20.
const AT_FIRST: u128 = 0xe45bd69862f3076cc980dc13a568f98d;

const AT_LAST: u128 = 0xbe8edbf3a4243f2034a162fa641a1fbf;

#[test]
fn parts_add_up_to_zero(rt: HostRuntime) {
    let s = ZeroSeeds {
        own: ZEROS,
        next: ONES,
    };
    let t = ZeroSeeds {
        own: ONES,
        next: ZEROS,
    };
    let u = ZeroSeeds {
        own: ZEROS,
        next: ZEROS,
    };
    for (c, want) in [(0, AT_FIRST), (LAST, AT_LAST)] {
        assert_eq!(rt; s.part(c), want, "at {c}");
        assert_eq!(rt;
            s.part(c).wrapping_add(t.part(c)).wrapping_add(u.part(c)),
            0,
            "sum at {c}"
        );
    }
}

#[test]
fn words_gain_their_parts(rt: HostRuntime) {
    let s = ZeroSeeds {
        own: ZEROS,
        next: ONES,
    };
    let mut words = [5, 6];
    s.add_parts(LAST - 1, &mut words);
    assert_eq!(rt;
        words,
        [
            0xfdb1902558c4b4868f9f9da1f762a80c,
            0xbe8edbf3a4243f2034a162fa641a1fc5
        ]
    );
}

// Three servers whose seeds go round, and then a last one that received another seed than the first one's own.
#[test]
fn three_servers_gain_their_parts(rt: HostRuntime) {
    let s = ZeroSeeds {
        own: ZEROS,
        next: ONES,
    };
    let t = ZeroSeeds {
        own: ONES,
        next: ZEROS,
    };
    for (next, last) in [(ZEROS, 7), (ONES, AT_LAST.wrapping_add(7))] {
        let u = ZeroSeeds { own: ZEROS, next };
        let (mut zero, mut one, mut two) = ([5], [6], [7]);
        add_parts_of_three(&s, &t, &u, LAST, &mut zero, &mut one, &mut two);
        assert_eq!(rt; zero, [AT_LAST.wrapping_add(5)]);
        assert_eq!(rt; one, [AT_LAST.wrapping_neg().wrapping_add(6)]);
        assert_eq!(rt; two, [last]);
    }
}
