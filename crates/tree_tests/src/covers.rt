use row_tree::cover;
use std::test::Fail;

/// A range of places, and the heights and indices of its nodes.
type Cut = (u64, u64, &'static [(u8, u32)]);

const CUTS: [Cut; 14] = [
    // Empty ranges.
    (0, 0, &[]),
    (3, 3, &[]),
    (65_536, 65_536, &[]),
    // Single places.
    (0, 1, &[(0, 0)]),
    (5, 6, &[(0, 5)]),
    (65_535, 65_536, &[(0, 65_535)]),
    // Whole ranges of 8, 63, 64, 65 and 65,536 rows.
    (0, 8, &[(3, 0)]),
    (0, 63, &[(5, 0), (4, 2), (3, 6), (2, 14), (1, 30), (0, 62)]),
    (0, 64, &[(6, 0)]),
    (0, 65, &[(6, 0), (0, 64)]),
    (0, 65_536, &[(16, 0)]),
    // The others rise, and then fall.
    (1, 7, &[(0, 1), (1, 1), (1, 2), (0, 6)]),
    (63, 65, &[(0, 63), (0, 64)]),
    (1, 64, &[(0, 1), (1, 1), (2, 1), (3, 1), (4, 1), (5, 1)]),
];

#[test]
fn ranges_are_cut_into_nodes(rt: HostRuntime) -> Result<(), Fail> {
    for (low, high, wanted) in &CUTS {
        assert!(rt; *low <= *high && *high <= 65_536);
        let nodes = cover(rt.alloc(), *low, *high).ok().ok_or("memory")?;
        assert_eq!(rt; nodes.len(), wanted.len(), "{low} to {high}");
        for (node, (height, index)) in nodes.iter().zip(*wanted) {
            assert_eq!(rt; node.height, *height, "{low} to {high}");
            assert_eq!(rt; node.index, *index, "{low} to {high}");
        }
    }
    Ok(())
}
