use super::runs::{Case, lengths, runs, shift_wires, straight};
use std::test::Fail;

// Eight rows: row i has bucket i modulo 4, and the value i.
const EIGHT: &str = "x,value\n0,0\n1,1\n2,2\n3,3\n0,4\n1,5\n2,6\n3,7\n";

const INSIDE: &str = "tree|x:2|--query|count x=1|--from|1|--to|7";

const RANGES: [Case; 8] = [
    (INSIDE, EIGHT, 0, "tree 0 places 1 to 7 count 2 nodes 4\n"),
    (
        "tree|x:2|--query|count x=1|--from|0|--to|8",
        EIGHT,
        0,
        "tree 0 places 0 to 8 count 2 nodes 1\n",
    ),
    (
        "tree|x:2|--query|count x=1|--from|3|--to|3",
        EIGHT,
        0,
        "tree 0 places 3 to 3 count 0 nodes 0\n",
    ),
    // A single place, an interval, and the end of the rows.
    (
        "tree|x:2|--query|count x=1|--to=6|--from=5",
        EIGHT,
        0,
        "tree 0 places 5 to 6 count 1 nodes 1\n",
    ),
    (
        "tree|x:2|--query|count x=1..2|--from|0|--to|7",
        EIGHT,
        0,
        "tree 0 places 0 to 7 count 4 nodes 3\n",
    ),
    (
        "tree|x:2|--query|count x<=1|--from|7|--to|8|--workers|3",
        EIGHT,
        0,
        "tree 0 places 7 to 8 count 0 nodes 1\n",
    ),
    // Without rows there is one range.
    (
        "tree|x:2|--query|count x=1|--from|0|--to|0",
        "x,value\n",
        0,
        "tree 0 places 0 to 0 count 0 nodes 0\n",
    ),
    (
        "tree|x:2|--query|count x=1|--from|0|--to|9",
        EIGHT,
        5,
        "waldo: fewer rows than 9\n",
    ),
];

const REFUSALS: [Case; 12] = [
    // A range that ends before it begins: the value of --to, wherever it stands.
    (
        "tree|x:2|--query|count x=1|--from|2|--to|1",
        EIGHT,
        2,
        "waldo: bad word 7\n",
    ),
    (
        "tree|x:2|--to=1|--query|count x=1|--from|2",
        EIGHT,
        2,
        "waldo: bad word 2\n",
    ),
    // What is missing comes before that.
    (
        "tree|x:2|--from|2|--to|1",
        EIGHT,
        2,
        "waldo: missing --query\n",
    ),
    (
        "tree|x:2|--query|count x=1",
        EIGHT,
        2,
        "waldo: missing --from\n",
    ),
    (
        "tree|x:2|--query|count x=1|--from|9",
        EIGHT,
        2,
        "waldo: missing --to\n",
    ),
    // Not a count with one predicate.
    (
        "tree|x:2|--query|sum x=1|--from|1|--to|7",
        EIGHT,
        2,
        "waldo: bad word 3\n",
    ),
    (
        "tree|x:2,y:2|--from|1|--query|count x=1 y=1",
        EIGHT,
        2,
        "waldo: bad word 5\n",
    ),
    (
        "tree|x:2|--query|count x=1|--query|count x=1",
        EIGHT,
        2,
        "waldo: bad word 4\n",
    ),
    (
        "tree|x:2|--query|count x=1|--from|65537",
        EIGHT,
        2,
        "waldo: bad word 5\n",
    ),
    ("ask|x:2|--from|1", EIGHT, 2, "waldo: bad word 2\n"),
    // Faults of the input come before a range that is too long.
    (
        "tree|x:2|--query|count x=1|--from|0|--to|9",
        "x,value\n4,0\n",
        5,
        "waldo: record 1 Domain\n",
    ),
    (
        "tree|x:2|--query|count x=1|--from|0|--to|9|--capacity|7",
        EIGHT,
        5,
        "waldo: more rows than 7\n",
    ),
];

#[test]
fn ranges(rt: HostRuntime) -> Result<(), Fail> {
    for range in &RANGES {
        straight(&rt, rt.alloc(), range, &[], &[])
            .ok()
            .ok_or("memory")?;
    }
    Ok(())
}

#[test]
fn refused_ranges(rt: HostRuntime) -> Result<(), Fail> {
    for refused in &REFUSALS {
        straight(&rt, rt.alloc(), refused, &[], &[])
            .ok()
            .ok_or("memory")?;
    }
    Ok(())
}

// Three key messages, and six openings of one word.
#[test]
fn nine_messages(rt: HostRuntime) -> Result<(), Fail> {
    let said = (INSIDE, EIGHT, 0, "tree 0 places 1 to 7 count 2 nodes 4\n");
    lengths(&rt, rt.alloc(), &said, &[40, 40, 40, 1, 1, 1, 1, 1, 1])
        .ok()
        .ok_or("memory")?;
    Ok(())
}

// The first opening of run 0 is off by one; twice the key is 22373722559603869626.
#[test]
fn an_altered_opening(rt: HostRuntime) -> Result<(), Fail> {
    let alloc = rt.alloc();
    let said = (
        INSIDE,
        EIGHT,
        7,
        "tree 0 altered total 3 weighted 22373722559603869626\n",
    );
    let mut wires = shift_wires(alloc, &[(3, 0, 1)]).ok().ok_or("memory")?;
    runs(&rt, alloc, &said, &mut wires, &[], &[])
        .ok()
        .ok_or("memory")?;
    Ok(())
}
