use weighted_check::{Altered, check};

// The number of a negative integer of this size, modulo 2^128.
fn minus(size: u128) -> u128 {
    0u128.wrapping_sub(size)
}

#[test]
fn checks(rt: HostRuntime) {
    let half = 1 << 63;
    for (total, weighted, key, answer) in [
        (15, 45, 3, Some(15)),
        (15, 46, 3, None),
        (0, 0, 3, Some(0)),
        (0, 1, 3, None),
        (minus(5), minus(15), 3, Some(-5)),
        (minus(5), minus(14), 3, None),
        (half - 1, 3 * (half - 1), 3, Some(9223372036854775807)),
        (half, 3 * half, 3, None),
        (
            minus(half - 1),
            minus(3 * (half - 1)),
            3,
            Some(-9223372036854775807),
        ),
        (minus(half), minus(3 * half), 3, None),
        (1 << 64, 3 << 64, 3, None),
        (half, 1 << 127, (1 << 64) + 1, None),
        (1 << 127, 1 << 127, 3, None),
    ] {
        assert_eq!(rt;
            check(total, weighted, key),
            answer.ok_or(Altered { total, weighted }),
            "{total} {weighted} {key}"
        );
    }
}
