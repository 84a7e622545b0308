use fault_count::raised;

#[test]
fn counts(rt: HostRuntime) {
    for (before, after) in [
        (0, 1),
        (7, 8),
        (u64::MAX - 1, u64::MAX),
        (u64::MAX, u64::MAX),
    ] {
        assert_eq!(rt; raised(before), after, "after {before}");
    }
}
