use super::runs::{Case, straight};
use std::test::Fail;

const THREE: &str = "t,value\n1,-5\n1,3\n2,-4294967295\n";

const TWO: &str = "t,b,value\n1,0,-7\n1,0,7\n2,1,-4294967295\n2,1,-4294967295\n3,1,4294967295\n";

/// Where values are negative, so may be the sums. The key of a query with one predicate is 11186861279801934813.
const SUMS: [Case; 11] = [
    (
        "ask|t:2|--query|sum t=1|--query|sum t=2",
        THREE,
        0,
        "ask 0 rows 3 sum -2\nask 1 rows 3 sum -4294967295\n",
    ),
    (
        "ask|t:2|--query|sum t<=3|--query|count t<=3",
        THREE,
        0,
        "ask 0 rows 3 sum -4294967297\nask 1 rows 3 count 3\n",
    ),
    (
        "ask|t:2,b:1|--query|sum t=1|--query|sum b=1 t=2|--query|sum b=1|--query|sum t=3 b=0",
        TWO,
        0,
        "ask 0 rows 5 sum 0\nask 1 rows 5 sum -8589934590\nask 2 rows 5 sum -4294967295\nask 3 rows 5 sum 0\n",
    ),
    // An answer over the first row, and one over all.
    (
        "replay|t:2|--query|sum t<=3|--schedule|d0 p0.0 p0.1 p0.2 f1 f1 f1 a1.0 d0 p0.0 p0.1 p0.2 d0 p0.0 p0.1 p0.2 f1 f1 f1 a1.0",
        THREE,
        0,
        "draw 0 place 0\nask 1.0 rows 1 sum -5\ndraw 0 place 1\ndraw 0 place 2\nask 1.1 rows 3 sum -4294967297\n",
    ),
    (
        "groups|t:2|--query|sum t<=3 by t",
        THREE,
        0,
        "group 0 bucket 0 rows 3 sum 0\ngroup 0 bucket 1 rows 3 sum -2\ngroup 0 bucket 2 rows 3 sum -4294967295\ngroup 0 bucket 3 rows 3 sum 0\n",
    ),
    (
        "groups|t:2,b:1|--query|sum t<=2 by b",
        TWO,
        0,
        "group 0 bucket 0 rows 5 sum 0\ngroup 0 bucket 1 rows 5 sum -8589934590\n",
    ),
    (
        "tree|t:2|--query|count t=1|--from|0|--to|3",
        THREE,
        0,
        "tree 0 places 0 to 3 count 2 nodes 2\n",
    ),
    // The openings of server 0, altered in both runs, past 0, and in the first alone.
    (
        "tamper|t:2|--query|sum t=1|--shift|6:0:3|--shift|12:0:key*3",
        THREE,
        0,
        "ask 0 rows 3 sum 1\n",
    ),
    (
        "tamper|t:2|--query|sum t=1|--shift|6:0:1",
        THREE,
        7,
        "ask 0 rows 3 altered total 340282366920938463463374607431768211455 weighted 340282366920938463441000884872164341830\n",
    ),
    // Of a size of 2^63 - 1, and of 2^63.
    (
        "tamper|t:2|--query|sum t=1|--shift|6:0:340282366920938463454151235394913435651|--shift|12:0:key*340282366920938463454151235394913435651",
        THREE,
        0,
        "ask 0 rows 3 sum -9223372036854775807\n",
    ),
    (
        "tamper|t:2|--query|sum t=1|--shift|6:0:340282366920938463454151235394913435650|--shift|12:0:key*340282366920938463454151235394913435650",
        THREE,
        7,
        "ask 0 rows 3 altered total 340282366920938463454151235394913435648 weighted 237101783412639867901028905254022807552\n",
    ),
];

#[test]
fn sums_of_both_signs(rt: HostRuntime) -> Result<(), Fail> {
    for case in &SUMS {
        straight(&rt, rt.alloc(), case, &[], &[])
            .ok()
            .ok_or("memory")?;
    }
    Ok(())
}
