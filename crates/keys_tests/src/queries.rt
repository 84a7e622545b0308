use query_plan::{Predicate, QueryFault, QueryWhy, read_query, shape_of};
use std::test::Fail;
use table_schema::{Aggregate, Kind, Part, read_schema};

fn bad(index: u8, why: QueryWhy) -> Option<QueryFault> {
    Some(QueryFault::Predicate { index, why })
}

// The first fault of a text, in the order of the causes.
#[test]
fn faults(rt: HostRuntime) -> Result<(), Fail> {
    let schema = read_schema(rt.alloc(), "host:2,load:4@100/10")
        .ok()
        .ok_or("a schema")?;
    let none: Option<QueryFault> = None;
    let table = [
        ("count host=1", none),
        ("sum host<=01 load=100..259", none),
        ("", Some(QueryFault::Aggregate)),
        ("max host=1", Some(QueryFault::Aggregate)),
        (" count host=1", Some(QueryFault::Aggregate)),
        ("count", Some(QueryFault::Count { had: 0 })),
        ("count a b c d e", Some(QueryFault::Count { had: 5 })),
        ("count ", bad(0, QueryWhy::Form)),
        ("count host=1 ", bad(1, QueryWhy::Form)),
        ("count host", bad(0, QueryWhy::Form)),
        ("count host<3", bad(0, QueryWhy::Form)),
        ("count host==3", bad(0, QueryWhy::Form)),
        ("count host=1.3", bad(0, QueryWhy::Form)),
        ("count host=1...3", bad(0, QueryWhy::Form)),
        ("count host=1..", bad(0, QueryWhy::Form)),
        ("count host<=1..2", bad(0, QueryWhy::Form)),
        ("count =3", bad(0, QueryWhy::Form)),
        ("count host=18446744073709551616", bad(0, QueryWhy::Form)),
        ("count cpu=1", bad(0, QueryWhy::Unknown)),
        ("count host=1 host=9", bad(1, QueryWhy::Repeated)),
        ("count host=4", bad(0, QueryWhy::Domain)),
        ("count load<=99", bad(0, QueryWhy::Domain)),
        ("count host=9..1", bad(0, QueryWhy::Domain)),
        ("count host=3..1", bad(0, QueryWhy::Order)),
        ("count load=105..104", bad(0, QueryWhy::Order)),
    ];
    for (text, fault) in table {
        assert_eq!(rt; read_query(&schema, text).err(), fault, "of {text}");
    }
    Ok(())
}

// A query's predicates hold buckets, and the widths of the schema suit it.
#[test]
fn queries(rt: HostRuntime) -> Result<(), Fail> {
    let schema = read_schema(rt.alloc(), "host:2,load:4@100/10")
        .ok()
        .ok_or("a schema")?;
    let query = read_query(&schema, "sum load=119..141 host<=2")
        .ok()
        .ok_or("a query")?;
    let load = Predicate {
        column: 1,
        kind: Kind::Interval,
        low: 1,
        high: 4,
    };
    let host = Predicate {
        column: 0,
        kind: Kind::AtMost,
        low: 0,
        high: 2,
    };
    let blank = Predicate {
        column: 0,
        kind: Kind::Point,
        low: 0,
        high: 0,
    };
    assert!(rt; query.aggregate == Aggregate::Sum);
    assert_eq!(rt; query.count, 2);
    assert_eq!(rt; query.predicates, [load, host, blank, blank]);
    assert!(rt; query.suits(&schema.widths()));
    let narrow = read_schema(rt.alloc(), "host:2").ok().ok_or("a schema")?;
    assert!(rt; !query.suits(&narrow.widths()));
    let part = |column, kind| Part { column, kind };
    let shape = shape_of(&query);
    assert_eq!(rt; (shape.aggregate, shape.count), (Aggregate::Sum, 2));
    assert!(rt; shape.parts[0] == part(1, Kind::Interval));
    assert!(rt; shape.parts[1] == part(0, Kind::AtMost));
    assert!(rt; shape.parts[3] == part(0, Kind::Point));
    Ok(())
}
