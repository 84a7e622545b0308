use report_lines::{Line, MemorySink, Name, NameText, Report, RowWhy, Sink, SureSink, Who, text};
use std::test::Fail;
use table_schema::Aggregate;

// The report of every kind of line, and its text.
#[test]
fn texts(rt: HostRuntime) -> Result<(), Fail> {
    let single = Who::Single(1);
    let round = Who::Round { actor: 2, round: 3 };
    let end = Who::End(4);
    let (count, sum) = (Aggregate::Count, Aggregate::Sum);
    let name = NameText::new(Name::Query);
    let lines = [
        (
            Line::Answer {
                who: single,
                rows: 3,
                aggregate: count,
                total: 2,
            },
            "ask 1 rows 3 count 2\n",
        ),
        (
            Line::Answer {
                who: end,
                rows: 0,
                aggregate: sum,
                total: 15,
            },
            "end 4 rows 0 sum 15\n",
        ),
        // The totals of both ends that the check accepts.
        (
            Line::Answer {
                who: single,
                rows: 3,
                aggregate: sum,
                total: -9223372036854775807,
            },
            "ask 1 rows 3 sum -9223372036854775807\n",
        ),
        (
            Line::Answer {
                who: round,
                rows: 3,
                aggregate: sum,
                total: 9223372036854775807,
            },
            "ask 2.3 rows 3 sum 9223372036854775807\n",
        ),
        (
            Line::Answer {
                who: end,
                rows: 1,
                aggregate: sum,
                total: -1,
            },
            "end 4 rows 1 sum -1\n",
        ),
        (
            Line::Altered {
                who: round,
                rows: 3,
                total: 3,
                weighted: u128::MAX,
            },
            "ask 2.3 rows 3 altered total 3 weighted 340282366920938463463374607431768211455\n",
        ),
        (
            Line::Again {
                who: round,
                server: 2,
                had: 0,
                floor: 2,
            },
            "ask 2.3 again server 2 had 0 floor 2\n",
        ),
        (Line::Draw { actor: 1, place: 0 }, "draw 1 place 0\n"),
        (
            Line::Look {
                actor: 2,
                server: 0,
                prefix: 2,
            },
            "look 2 server 0 prefix 2\n",
        ),
        (Line::Rows { count: 3 }, "rows 3\n"),
        (Line::Place { place: 1, row: 2 }, "place 1 row 2\n"),
        (Line::Back { writer: 0, rows: 3 }, "back 0 rows 3\n"),
        (
            Line::BackAgain {
                writer: 15,
                server: 1,
                had: 4,
                floor: 5,
            },
            "back 15 again server 1 had 4 floor 5\n",
        ),
        (
            Line::Trace {
                index: 0,
                server: 2,
                visits: 12,
                words: 614,
            },
            "trace 0 server 2 visits 12 words 614\n",
        ),
        (Line::BadWord { index: 3 }, "waldo: bad word 3\n"),
        (Line::Missing { name }, "waldo: missing --query\n"),
        (Line::BadStep { index: 0 }, "waldo: step 0 not allowed\n"),
        (Line::ReadFault, "waldo: read fault\n"),
        (Line::TooLong, "waldo: input too long\n"),
        (Line::Header, "waldo: header\n"),
        (
            Line::BadRecord {
                number: 2,
                why: RowWhy::Fields,
            },
            "waldo: record 2 Fields\n",
        ),
        (
            Line::BadRecord {
                number: 1,
                why: RowWhy::Text,
            },
            "waldo: record 1 Text\n",
        ),
        (
            Line::BadRecord {
                number: 1,
                why: RowWhy::Number,
            },
            "waldo: record 1 Number\n",
        ),
        (
            Line::BadRecord {
                number: 1,
                why: RowWhy::Domain,
            },
            "waldo: record 1 Domain\n",
        ),
        (
            Line::BadRecord {
                number: 1,
                why: RowWhy::Value,
            },
            "waldo: record 1 Value\n",
        ),
        (
            Line::TooMany { capacity: 65536 },
            "waldo: more rows than 65536\n",
        ),
        (Line::TooFew { wanted: 9 }, "waldo: fewer rows than 9\n"),
        (
            Line::Tree {
                low: 1,
                high: 7,
                total: 2,
                nodes: 4,
            },
            "tree 0 places 1 to 7 count 2 nodes 4\n",
        ),
        (
            Line::Tree {
                low: 0,
                high: 65536,
                total: -1,
                nodes: 1,
            },
            "tree 0 places 0 to 65536 count -1 nodes 1\n",
        ),
        (
            Line::TreeAltered {
                total: 3,
                weighted: 22373722559603869626,
            },
            "tree 0 altered total 3 weighted 22373722559603869626\n",
        ),
        (
            Line::Group {
                index: 0,
                bucket: 3,
                rows: 7,
                aggregate: sum,
                total: 15,
            },
            "group 0 bucket 3 rows 7 sum 15\n",
        ),
        (
            Line::Group {
                index: 15,
                bucket: 255,
                rows: 65536,
                aggregate: count,
                total: 0,
            },
            "group 15 bucket 255 rows 65536 count 0\n",
        ),
        (
            Line::Group {
                index: 1,
                bucket: 0,
                rows: 4,
                aggregate: sum,
                total: -9223372036854775807,
            },
            "group 1 bucket 0 rows 4 sum -9223372036854775807\n",
        ),
        (
            Line::GroupAltered {
                index: 0,
                bucket: 3,
                total: 16,
                weighted: u128::MAX,
            },
            "group 0 bucket 3 altered total 16 weighted 340282366920938463463374607431768211455\n",
        ),
    ];
    let mut report = Report::new(rt.alloc());
    let mut wanted = String::new(rt.alloc());
    for (line, written) in lines {
        report.push(line).ok().ok_or("memory")?;
        wanted.push_str(written)?;
    }
    let made = text(rt.alloc(), &report).ok().ok_or("memory")?;
    assert!(rt; made.as_slice() == wanted.as_bytes());
    Ok(())
}

// A put past the room takes what fits; a put that fails by its number takes nothing.
#[test]
fn sinks(rt: HostRuntime) -> Result<(), Fail> {
    let mut sink = MemorySink::new(rt.alloc(), 3, &[1]).ok().ok_or("a sink")?;
    assert!(rt; sink.put(b"a").is_ok());
    assert!(rt; sink.put(b"b").is_err());
    assert_eq!(rt; sink.faults(), 1);
    assert!(rt; sink.bytes() == b"a".as_slice());
    assert!(rt; sink.put(b"bcdef").is_err());
    assert_eq!(rt; sink.faults(), 2);
    assert!(rt; sink.bytes() == b"abc".as_slice());
    let mut sure = SureSink::new();
    assert!(rt; sure.put(b"abc").is_ok());
    assert_eq!(rt; sure.faults(), 0);
    Ok(())
}
