use super::runs::{Case, straight};
use std::test::Fail;

const SIX: &str = "a,b,c,d,e,f,value\n0,0,0,0,0,1,5\n1,0,0,0,0,1,7\n";

const SUM: &str = "ask|t:2|--query|sum t=1";

// Up to six columns, of which a query names at most four.
const COLUMNS: [Case; 8] = [
    (
        "ask|a:1,b:1,c:1,d:1,e:1,f:1|--query|count f=1 a=0",
        SIX,
        0,
        "ask 0 rows 2 count 1\n",
    ),
    (
        "ask|a:1,b:2,c:1,d:3,e:1,f:1|--query|sum f=1 a=0 b<=2 d=1..6",
        "a,b,c,d,e,f,value\n0,2,1,6,0,1,-5\n0,0,0,1,1,1,40\n0,3,0,1,1,1,600\n0,1,0,7,1,1,8000\n0,1,0,2,1,0,10000\n1,1,0,2,1,1,200000\n",
        0,
        "ask 0 rows 6 sum 35\n",
    ),
    (
        "ask|a:1,b:1,c:1,d:1,e:1,f:1|--query|count a=0 b=0 c=0 d=0 e=0",
        SIX,
        2,
        "waldo: bad word 3\n",
    ),
    (
        "ask|a:1,b:1,c:1,d:1,e:1,f:1,g:1|--query|count f=1",
        SIX,
        2,
        "waldo: bad word 1\n",
    ),
    (
        "replay|a:1,b:1,c:1,d:1,e:1,f:1|--query|count f=1 a=0|--schedule|d0 p0.0 p0.1 p0.2 f1 f1 f1 a1.0",
        SIX,
        0,
        "draw 0 place 0\nask 1.0 rows 1 count 1\n",
    ),
    // Row 1 alone has 13 modulo 8 in the sixth column.
    (
        "make|a:1,b:2,c:3,d:1,e:2,f:3|--number|7|--rows|4|--query|sum f=5",
        "",
        0,
        "ask 0 rows 4 sum 7001\n",
    ),
    (
        "groups|a:1,b:1,c:1,d:1,e:1,f:1|--query|count a=0 by f",
        SIX,
        0,
        "group 0 bucket 0 rows 2 count 0\ngroup 0 bucket 1 rows 2 count 1\n",
    ),
    // A chunk of the predicate's column and one of the values', in both runs; key messages of 28 words, and 2 rows.
    (
        "trace|a:1,b:1,c:1,d:1,e:1,f:1|--query|sum f=1",
        SIX,
        0,
        "trace 0 server 0 visits 4 words 38\ntrace 0 server 1 visits 4 words 38\ntrace 0 server 2 visits 4 words 38\n",
    ),
];

// A value is an optional `-` and a number, of a size up to 4,294,967,295.
const VALUES: [Case; 8] = [
    (SUM, "t,value\n1,-0\n", 0, "ask 0 rows 1 sum 0\n"),
    (
        SUM,
        "t,value\n1,-4294967295\n1,4294967295\n1,7\n",
        0,
        "ask 0 rows 3 sum 7\n",
    ),
    (
        SUM,
        "t,value\n1,4294967295\n2,-4294967295\n",
        0,
        "ask 0 rows 2 sum 4294967295\n",
    ),
    (SUM, "t,value\n1,--1\n", 5, "waldo: record 1 Number\n"),
    (SUM, "t,value\n1,-\n", 5, "waldo: record 1 Number\n"),
    (SUM, "t,value\n-1,1\n", 5, "waldo: record 1 Number\n"),
    (
        SUM,
        "t,value\n1,-4294967296\n",
        5,
        "waldo: record 1 Value\n",
    ),
    (
        SUM,
        "t,value\n1,-4294967295\n1,4294967296\n",
        5,
        "waldo: record 2 Value\n",
    ),
];

#[test]
fn six_columns(rt: HostRuntime) -> Result<(), Fail> {
    for case in &COLUMNS {
        straight(&rt, rt.alloc(), case, &[], &[])
            .ok()
            .ok_or("memory")?;
    }
    Ok(())
}

#[test]
fn values_at_both_ends(rt: HostRuntime) -> Result<(), Fail> {
    for case in &VALUES {
        straight(&rt, rt.alloc(), case, &[], &[])
            .ok()
            .ok_or("memory")?;
    }
    Ok(())
}
