use super::runs::{Case, INPUT, KEY, answers, lengths, runs, shift_wires, straight};
use ring128::Memory;
use std::alloc::Global;
use std::test::Fail;

const SUM: &str = "groups|host:2|--query|sum host<=3 by host";

const SUM_TEXT: &str =
    "group 0 bucket 0 rows 3 sum 0\ngroup 0 bucket 1 rows 3 sum 20\ngroup 0 bucket 2 rows 3 sum 0\ngroup 0 bucket 3 rows 3 sum 15\n";

const TWO: &str = "groups|host:2|--query|sum host<=3 by host|--query=count host=1..3 by host";

const FOUR: &str = "host,level,value\n3,1,10\n3,0,20\n1,1,40\n3,1,80\n";

const TOTALS: [Case; 9] = [
    (SUM, INPUT, 0, SUM_TEXT),
    (
        "groups|host:2|--query|count host<=3 by host",
        INPUT,
        0,
        "group 0 bucket 0 rows 3 count 0\ngroup 0 bucket 1 rows 3 count 1\ngroup 0 bucket 2 rows 3 count 0\ngroup 0 bucket 3 rows 3 count 2\n",
    ),
    // The rows that don't pass are in no bucket's total.
    (
        "groups|host:2|--query|sum host=1 by host",
        INPUT,
        0,
        "group 0 bucket 0 rows 3 sum 0\ngroup 0 bucket 1 rows 3 sum 20\ngroup 0 bucket 2 rows 3 sum 0\ngroup 0 bucket 3 rows 3 sum 0\n",
    ),
    // Two queries, a sum and a count.
    (
        TWO,
        INPUT,
        0,
        "group 0 bucket 0 rows 3 sum 0\ngroup 0 bucket 1 rows 3 sum 20\ngroup 0 bucket 2 rows 3 sum 0\ngroup 0 bucket 3 rows 3 sum 15\n\
         group 1 bucket 0 rows 3 count 0\ngroup 1 bucket 1 rows 3 count 1\ngroup 1 bucket 2 rows 3 count 0\ngroup 1 bucket 3 rows 3 count 2\n",
    ),
    // A predicate on one column, by the buckets of another, both ways; and two predicates.
    (
        "groups|host:2,level:1|--query|sum host=3 by level",
        FOUR,
        0,
        "group 0 bucket 0 rows 4 sum 20\ngroup 0 bucket 1 rows 4 sum 90\n",
    ),
    (
        "groups|host:2,level:1|--workers=3|--query|count level=1 by host",
        FOUR,
        0,
        "group 0 bucket 0 rows 4 count 0\ngroup 0 bucket 1 rows 4 count 1\ngroup 0 bucket 2 rows 4 count 0\ngroup 0 bucket 3 rows 4 count 2\n",
    ),
    (
        "groups|host:2,level:1|--query|sum host=1..3 level=1 by host",
        FOUR,
        0,
        "group 0 bucket 0 rows 4 sum 0\ngroup 0 bucket 1 rows 4 sum 40\ngroup 0 bucket 2 rows 4 sum 0\ngroup 0 bucket 3 rows 4 sum 90\n",
    ),
    // Raw numbers from 10 on, three to a bucket.
    (
        "groups|x:1@10/3|--query|sum x<=15 by x",
        "x,value\n15,1\n10,20\n12,300\n13,4294967295\n",
        0,
        "group 0 bucket 0 rows 4 sum 320\ngroup 0 bucket 1 rows 4 sum 4294967296\n",
    ),
    // Without rows each bucket has the total 0.
    (
        SUM,
        "host,value\n",
        0,
        "group 0 bucket 0 rows 0 sum 0\ngroup 0 bucket 1 rows 0 sum 0\ngroup 0 bucket 2 rows 0 sum 0\ngroup 0 bucket 3 rows 0 sum 0\n",
    ),
];

const REFUSALS: [Case; 9] = [
    // No `by`, and no query before it.
    (
        "groups|host:2|--query|sum host=1",
        INPUT,
        2,
        "waldo: bad word 3\n",
    ),
    (
        "groups|host:2|--query|max host=1 by host",
        INPUT,
        2,
        "waldo: bad word 3\n",
    ),
    // No column of the schema.
    (
        "groups|host:2|--query|sum host=1 by level",
        INPUT,
        2,
        "waldo: bad word 3\n",
    ),
    (
        "groups|host:2|--query=sum host=1 by host|--query|sum host=1 by",
        INPUT,
        2,
        "waldo: bad word 4\n",
    ),
    // The other commands know no such query.
    (
        "ask|host:2|--query|sum host=1 by host",
        INPUT,
        2,
        "waldo: bad word 3\n",
    ),
    ("groups|host:2", INPUT, 2, "waldo: missing --query\n"),
    ("groups|host:2|--rows|1", INPUT, 2, "waldo: bad word 2\n"),
    (
        SUM,
        "host,value\n3,10\n4,0\n",
        5,
        "waldo: record 2 Domain\n",
    ),
    (
        "groups|host:2|--capacity|2|--query|sum host<=3 by host",
        INPUT,
        5,
        "waldo: more rows than 2\n",
    ),
];

#[test]
fn totals(rt: HostRuntime) -> Result<(), Fail> {
    for total in &TOTALS {
        straight(&rt, rt.alloc(), total, &[], &[])
            .ok()
            .ok_or("memory")?;
    }
    Ok(())
}

#[test]
fn refused_groups(rt: HostRuntime) -> Result<(), Fail> {
    for refused in &REFUSALS {
        straight(&rt, rt.alloc(), refused, &[], &[])
            .ok()
            .ok_or("memory")?;
    }
    Ok(())
}

// Three key messages, and in each run bits of three rows, products with their values, and openings of a word a bucket.
#[test]
fn messages_of_a_sum(rt: HostRuntime) -> Result<(), Fail> {
    let said = (SUM, INPUT, 0, SUM_TEXT);
    let wanted = [
        48, 48, 48, 3, 3, 3, 3, 3, 3, 4, 4, 4, 3, 3, 3, 3, 3, 3, 4, 4, 4,
    ];
    lengths(&rt, rt.alloc(), &said, &wanted)
        .ok()
        .ok_or("memory")?;
    Ok(())
}

// In each run a server visits one chunk of the predicate's column, one of the values, and one of the buckets' column; it sends and receives
// bits and products, and sends its opening.
#[test]
fn visits_of_a_sum(rt: HostRuntime) -> Result<(), Fail> {
    let trace = answers(&rt, rt.alloc(), SUM, INPUT, SUM_TEXT)
        .ok()
        .ok_or("memory")?;
    assert_eq!(&rt; trace.visits(0).take(7).count(), 6);
    assert_eq!(&rt; trace.visits(1).take(7).count(), 6);
    assert_eq!(&rt; trace.visits(2).take(7).count(), 6);
    assert_eq!(&rt; trace.lengths(2).len(), 11);
    Ok(())
}

// 15 times the key of the one predicate is 167802919197029022195.
#[test]
fn altered_buckets(rt: HostRuntime) -> Result<(), Fail> {
    let alloc = rt.alloc();
    let cases: [(Case, &[(u64, u64, u128)]); 4] = [
        // The opening of server 0 in run 0: the other buckets have their totals.
        (
            (
                SUM,
                INPUT,
                7,
                "group 0 bucket 0 rows 3 sum 0\ngroup 0 bucket 1 rows 3 sum 20\ngroup 0 bucket 2 rows 3 sum 0\n\
                 group 0 bucket 3 altered total 16 weighted 167802919197029022195\n",
            ),
            &[(9, 3, 1)],
        ),
        // Two buckets, whose shifts add up to nothing. The second query, whose messages are as they were sent, has its totals.
        (
            (
                TWO,
                INPUT,
                7,
                "group 0 bucket 0 altered total 1 weighted 0\ngroup 0 bucket 1 rows 3 sum 20\ngroup 0 bucket 2 rows 3 sum 0\n\
                 group 0 bucket 3 altered total 14 weighted 167802919197029022195\n\
                 group 1 bucket 0 rows 3 count 0\ngroup 1 bucket 1 rows 3 count 1\n\
                 group 1 bucket 2 rows 3 count 0\ngroup 1 bucket 3 rows 3 count 2\n",
            ),
            &[(10, 0, 1), (11, 3, u128::MAX)],
        ),
        // The opening of server 2 in run 1.
        (
            (
                SUM,
                INPUT,
                7,
                "group 0 bucket 0 rows 3 sum 0\ngroup 0 bucket 1 rows 3 sum 20\ngroup 0 bucket 2 rows 3 sum 0\n\
                 group 0 bucket 3 altered total 15 weighted 167802919197029022196\n",
            ),
            &[(20, 3, 1)],
        ),
        // Made good in run 1: the limit of the check.
        (
            (
                SUM,
                INPUT,
                0,
                "group 0 bucket 0 rows 3 sum 0\ngroup 0 bucket 1 rows 3 sum 20\ngroup 0 bucket 2 rows 3 sum 0\n\
                 group 0 bucket 3 rows 3 sum 16\n",
            ),
            &[(9, 3, 1), (18, 3, KEY)],
        ),
    ];
    for (case, amounts) in &cases {
        let mut wires = shift_wires(alloc, amounts).ok().ok_or("memory")?;
        runs(&rt, alloc, case, &mut wires, &[], &[])
            .ok()
            .ok_or("memory")?;
    }
    Ok(())
}

// The lines of 256 buckets over two rows: the first one has the total 9, the last one 7, and each other one 0.
fn wide_text(alloc: Global) -> Result<String, Memory> {
    let mut text = String::new(alloc);
    writeln!(text, "group 0 bucket 0 rows 2 sum 9")?;
    for bucket in 1..255u64 {
        writeln!(text, "group 0 bucket {bucket} rows 2 sum 0")?;
    }
    writeln!(text, "group 0 bucket 255 rows 2 sum 7")?;
    Ok(text)
}

#[test]
fn a_column_of_eight_bits(rt: HostRuntime) -> Result<(), Fail> {
    let alloc = rt.alloc();
    let text = wide_text(alloc).ok().ok_or("memory")?;
    answers(
        &rt,
        alloc,
        "groups|x:8|--query|sum x<=255 by x",
        "x,value\n255,7\n0,9\n",
        text.as_str(),
    )
    .ok()
    .ok_or("memory")?;
    Ok(())
}
