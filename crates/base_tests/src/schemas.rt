use std::test::Fail;
use table_schema::{Aggregate, Kind, Part, Row, SchemaFault, SchemaWhy, Shape, read_schema};

const NO_FAULT: Option<SchemaFault> = None;

fn column(index: u8, why: SchemaWhy) -> Option<SchemaFault> {
    Some(SchemaFault::Column { index, why })
}

#[test]
fn faults(rt: HostRuntime) {
    let table = [
        ("host:2", NO_FAULT),
        ("a_9:8@007/18446744073709551615", NO_FAULT),
        ("abcdefghijklmnop:1,b:1,c:1,d:1", NO_FAULT),
        ("a:1,b:1,c:1,d:1,e:1", NO_FAULT),
        ("a:8,b:8,c:8,d:8,e:8,f:8", NO_FAULT),
        ("", column(0, SchemaWhy::Name)),
        ("Host:2", column(0, SchemaWhy::Name)),
        ("_a:2", column(0, SchemaWhy::Name)),
        ("value:2", column(0, SchemaWhy::Name)),
        ("abcdefghijklmnopq:1", column(0, SchemaWhy::Name)),
        ("host:2,", column(1, SchemaWhy::Name)),
        ("host:9", column(0, SchemaWhy::Bits)),
        ("host:02", column(0, SchemaWhy::Bits)),
        ("host", column(0, SchemaWhy::Bits)),
        ("host:2:3", column(0, SchemaWhy::Bits)),
        ("host:2@x", column(0, SchemaWhy::Start)),
        ("host:2@", column(0, SchemaWhy::Start)),
        ("host:2/0", column(0, SchemaWhy::Step)),
        ("host:2/5@3", column(0, SchemaWhy::Step)),
        ("host:2@18446744073709551616", column(0, SchemaWhy::Start)),
        (
            "a:1,b:1,c:1,d:1,e:1,f:1,g:1",
            Some(SchemaFault::Count { had: 7 }),
        ),
        (",,,,,,,", Some(SchemaFault::Count { had: 8 })),
        (",,,,,", column(0, SchemaWhy::Name)),
        (
            "a:1,b:1,c:1,d:1,e:1,a:1",
            Some(SchemaFault::Repeated { index: 5 }),
        ),
        ("a:1,a:2", Some(SchemaFault::Repeated { index: 1 })),
        ("a:1,a:9", column(1, SchemaWhy::Bits)),
    ];
    for (text, fault) in table {
        assert_eq!(rt; read_schema(rt.alloc(), text).err(), fault, "of {text}");
    }
}

#[test]
fn buckets(rt: HostRuntime) -> Result<(), Fail> {
    let schema = read_schema(rt.alloc(), "time:8@1700000000/3600,host:2")
        .ok()
        .ok_or("a schema")?;
    let count = schema.count();
    assert!(rt; count == 2);
    let table = [
        (0, 1_699_999_999, None),
        (0, 1_700_000_000, Some(0)),
        (0, 1_700_003_599, Some(0)),
        (0, 1_700_003_600, Some(1)),
        (0, 1_700_921_599, Some(255)),
        (0, 1_700_921_600, None),
        (1, 3, Some(3)),
        (1, 4, None),
    ];
    for (c, raw, bucket) in table {
        assert!(rt; c < 2);
        assert_eq!(rt; schema.bucket(c, raw), bucket, "of {raw}");
    }
    let host = schema.column(1);
    assert!(rt; host.name.as_bytes() == b"host".as_slice());
    assert_eq!(rt; (host.bits, host.start, host.step), (2, 0, 1));
    Ok(())
}

#[test]
fn widths(rt: HostRuntime) -> Result<(), Fail> {
    let schema = read_schema(rt.alloc(), "x:8").ok().ok_or("a schema")?;
    let widths = schema.widths();
    assert_eq!(rt; (widths.columns, widths.bits), (1, [8, 0, 0, 0, 0, 0]));
    assert_eq!(rt; widths.cells(16_321), 4_194_497);
    assert_eq!(rt; widths.largest(), 16_320);
    let six = read_schema(rt.alloc(), "a:8,b:8,c:8,d:8,e:8,f:8")
        .ok()
        .ok_or("a schema")?;
    let wide = six.widths();
    assert_eq!(rt; (wide.columns, wide.bits), (6, [8, 8, 8, 8, 8, 8]));
    assert_eq!(rt; (wide.cells(1), wide.largest()), (1_537, 2_728));
    for (capacity, fits) in [(0, false), (1, true), (16_320, true), (16_321, false)] {
        assert_eq!(rt; widths.fits(capacity), fits, "at {capacity}");
    }
    let row = Row {
        columns: 1,
        buckets: [255, 0, 0, 0, 0, 0],
        value: 4_294_967_295,
    };
    let table = [
        (row, true),
        (Row { columns: 2, ..row }, false),
        (
            Row {
                buckets: [0, 1, 0, 0, 0, 0],
                ..row
            },
            false,
        ),
        (
            Row {
                value: 4_294_967_296,
                ..row
            },
            false,
        ),
        (Row { value: -1, ..row }, true),
        (
            Row {
                value: -4_294_967_295,
                ..row
            },
            true,
        ),
        (
            Row {
                value: -4_294_967_296,
                ..row
            },
            false,
        ),
        (
            Row {
                value: i64::MIN,
                ..row
            },
            false,
        ),
    ];
    for (row, held) in table {
        assert_eq!(rt; widths.holds(&row), held, "the row {row:?}");
    }
    Ok(())
}

#[test]
fn shapes(rt: HostRuntime) {
    let point = Part {
        column: 0,
        kind: Kind::Point,
    };
    let shape = Shape {
        aggregate: Aggregate::Sum,
        count: 1,
        parts: [point; 4],
    };
    let copy = shape;
    assert!(rt; copy == shape);
    assert!(rt;
        copy != Shape {
            aggregate: Aggregate::Count,
            ..shape
        }
    );
    assert!(rt;
        Part {
            kind: Kind::AtMost,
            ..point
        } != Part {
            kind: Kind::Interval,
            ..point
        }
    );
}
