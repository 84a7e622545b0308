use ring128::Memory;
use scan_chunks::Visit;
use table_schema::{Aggregate, Kind, Part, Shape, Widths};
use visit_trace::*;

const FIRST: Part = Part {
    column: 0,
    kind: Kind::Point,
};

// A count of one point over 130 rows of a column of four buckets.
const SIZES: Sizes = Sizes {
    rows: 130,
    widths: Widths {
        columns: 1,
        bits: [2, 0, 0, 0, 0, 0],
    },
    shape: Shape {
        aggregate: Aggregate::Count,
        count: 1,
        parts: [FIRST, FIRST, FIRST, FIRST],
    },
};

#[test]
fn a_count_visits_its_column_twice(rt: HostRuntime) -> Result<(), Memory> {
    let alloc = rt.alloc();
    let trace = expected(alloc, &SIZES)?;
    let lengths: &[u64] = &[40, 130, 130, 1, 130, 130, 1];
    for server in 0..3 {
        let visits: Vec<Visit> = trace.visits(server).collect(alloc)?;
        assert_eq!(rt; visits.len(), 6);
        assert_eq!(rt;
            visits[4],
            Visit {
                column: 0,
                chunk: 1
            }
        );
        assert!(rt; trace.lengths(server) == lengths);
    }
    assert!(rt; trace.visits(3).next().is_none());
    Ok(())
}
