use row_source::{
    MemorySource, ReadFault, RowFault, RowWhy, Source, SureSource, read_all, read_rows,
};
use std::fmt::Write;
use std::test::Fail;
use table_schema::read_schema;

// All bytes come, through as many reads as they need; a failing read ends the reading.
#[test]
fn inputs(rt: HostRuntime) -> Result<(), Fail> {
    let bytes = vec![in rt.alloc(); 7u8; 20_000]?;
    let mut source = MemorySource::new(rt.alloc(), &bytes, &[])
        .ok()
        .ok_or("a source")?;
    let read = read_all(rt.alloc(), &mut source).ok().ok_or("bytes")?;
    assert!(rt; read.as_slice() == bytes.as_slice());
    assert_eq!(rt; source.faults(), 0);
    let mut source = SureSource::new(rt.alloc(), &bytes).ok().ok_or("a source")?;
    let read = read_all(rt.alloc(), &mut source).ok().ok_or("bytes")?;
    assert!(rt; read.as_slice() == bytes.as_slice());
    assert_eq!(rt; source.faults(), 0);
    let mut source = MemorySource::new(rt.alloc(), &bytes, &[2])
        .ok()
        .ok_or("a source")?;
    assert_eq!(rt;
        read_all(rt.alloc(), &mut source).err(),
        Some(ReadFault::Failed)
    );
    assert_eq!(rt; source.faults(), 1);
    Ok(())
}

#[test]
fn too_long(rt: HostRuntime) -> Result<(), Fail> {
    let mut bytes = vec![in rt.alloc(); 0u8; 16_777_217]?;
    let mut source = SureSource::new(rt.alloc(), &bytes).ok().ok_or("a source")?;
    assert_eq!(rt;
        read_all(rt.alloc(), &mut source).err(),
        Some(ReadFault::TooLong)
    );
    let _last = bytes.pop();
    let mut source = SureSource::new(rt.alloc(), &bytes).ok().ok_or("a source")?;
    let read = read_all(rt.alloc(), &mut source).ok().ok_or("bytes")?;
    assert_eq!(rt; read.len(), 16_777_216);
    Ok(())
}

fn fault(
    rt: &HostRuntime,
    text: &str,
    capacity: u32,
    bytes: &[u8],
) -> Result<Option<RowFault>, Fail> {
    let schema = read_schema(rt.alloc(), text).ok().ok_or("a schema")?;
    Ok(read_rows(rt.alloc(), &schema, capacity, bytes).err())
}

fn bad(number: u64, why: RowWhy) -> Option<RowFault> {
    Some(RowFault::BadRecord { number, why })
}

// The first fault of an input, in the order of the causes.
#[test]
fn faults(rt: HostRuntime) -> Result<(), Fail> {
    let header = Some(RowFault::Header);
    let none: Option<RowFault> = None;
    let table = [
        (b"host,value\n3,10\n1,20\n3,5\n".as_slice(), 3, none),
        (
            b"host,value\n3,10\n1,20\n3,5\n".as_slice(),
            2,
            Some(RowFault::TooMany { capacity: 2 }),
        ),
        (
            b"host,value\n3\n1,20\n3,5\n".as_slice(),
            2,
            Some(RowFault::TooMany { capacity: 2 }),
        ),
        (b"".as_slice(), 9, header),
        (b"\n\r\n".as_slice(), 9, header),
        (b"\xef\xbb\xbf".as_slice(), 9, header),
        (b"host\n3,10\n".as_slice(), 9, header),
        (b"host,value,\n3,10\n".as_slice(), 9, header),
        (b"Host,value\n3,10\n".as_slice(), 9, header),
        (b" host,value\n3,10\n".as_slice(), 9, header),
        (
            b"host,value\n3,10\n1\n3,5\n".as_slice(),
            9,
            bad(2, RowWhy::Fields),
        ),
        (b"host,value\n3,10,\n".as_slice(), 9, bad(1, RowWhy::Fields)),
        (b"host,value\n \n".as_slice(), 9, bad(1, RowWhy::Fields)),
        (b"host,value\n\"\"\n".as_slice(), 9, bad(1, RowWhy::Fields)),
        (
            b"host,value\n3,10\n\xff,2\n".as_slice(),
            9,
            bad(2, RowWhy::Text),
        ),
        (
            b"host,value\nx,10\n1\n".as_slice(),
            9,
            bad(1, RowWhy::Number),
        ),
        (b"host,value\n-1,10\n".as_slice(), 9, bad(1, RowWhy::Number)),
        (b"host,value\n,10\n".as_slice(), 9, bad(1, RowWhy::Number)),
        (b"host,value\n1, 10\n".as_slice(), 9, bad(1, RowWhy::Number)),
        (
            b"host,value\n1,1\n-1,-1\n".as_slice(),
            9,
            bad(2, RowWhy::Number),
        ),
        (
            b"host,value\n1,18446744073709551616\n".as_slice(),
            9,
            bad(1, RowWhy::Number),
        ),
        (
            b"host,value\n4,x\n1\n".as_slice(),
            9,
            bad(1, RowWhy::Domain),
        ),
        (
            b"host,value\n3,10\n1,4294967296\n".as_slice(),
            9,
            bad(2, RowWhy::Value),
        ),
        (
            b"host,value\n1,18446744073709551615\n".as_slice(),
            9,
            bad(1, RowWhy::Value),
        ),
    ];
    for (bytes, capacity, wanted) in table {
        let had = fault(&rt, "host:2", capacity, bytes)?;
        assert!(rt; had == wanted, "of {bytes:?}: {had:?}");
    }
    Ok(())
}

// The bucket and the value of each row of an input over `host:2`, as text.
fn written(rt: &HostRuntime, bytes: &[u8]) -> Result<String, Fail> {
    let schema = read_schema(rt.alloc(), "host:2").ok().ok_or("a schema")?;
    let rows = read_rows(rt.alloc(), &schema, 9, bytes).ok().ok_or("rows")?;
    let mut text = String::new(rt.alloc());
    for row in &rows {
        write!(text, "{}:{} ", row.buckets[0], row.value)?;
    }
    Ok(text)
}

// Why the row of a value is refused, if it is.
fn value_fault(rt: &HostRuntime, field: &[u8]) -> Result<Option<RowWhy>, Fail> {
    let schema = read_schema(rt.alloc(), "host:2").ok().ok_or("a schema")?;
    let mut bytes = Vec::from_slice(rt.alloc(), b"host,value\n0,")?;
    bytes.extend_from_slice(field)?;
    bytes.push(b'\n')?;
    Ok(match read_rows(rt.alloc(), &schema, 9, &bytes) {
        Err(RowFault::BadRecord { why, .. }) => Some(why),
        _ => None,
    })
}

// The last field: an optional `-` and then a number, of a size up to 4,294,967,295.
#[test]
fn values(rt: HostRuntime) -> Result<(), Fail> {
    let table = [
        (b"4294967295".as_slice(), None),
        (b"-4294967295".as_slice(), None),
        (b"-00000000004294967295".as_slice(), None),
        (b"-0".as_slice(), None),
        (b"4294967296".as_slice(), Some(RowWhy::Value)),
        (b"-4294967296".as_slice(), Some(RowWhy::Value)),
        (b"-18446744073709551615".as_slice(), Some(RowWhy::Value)),
        (b"-18446744073709551616".as_slice(), Some(RowWhy::Number)),
        (b"-000000000000000000001".as_slice(), Some(RowWhy::Number)),
        (b"".as_slice(), Some(RowWhy::Number)),
        (b"-".as_slice(), Some(RowWhy::Number)),
        (b"--1".as_slice(), Some(RowWhy::Number)),
        (b"+1".as_slice(), Some(RowWhy::Number)),
        (b"-+1".as_slice(), Some(RowWhy::Number)),
        (b"- 1".as_slice(), Some(RowWhy::Number)),
        (b" -1".as_slice(), Some(RowWhy::Number)),
        (b"-1 ".as_slice(), Some(RowWhy::Number)),
        (b"1-".as_slice(), Some(RowWhy::Number)),
        (b"-1.5".as_slice(), Some(RowWhy::Number)),
        (b"\xe2\x88\x921".as_slice(), Some(RowWhy::Number)),
        (b"-\xff".as_slice(), Some(RowWhy::Text)),
        (b"\xff-1".as_slice(), Some(RowWhy::Text)),
    ];
    for (field, wanted) in table {
        let had = value_fault(&rt, field)?;
        assert!(rt; had == wanted, "of {field:?}: {had:?}");
    }
    Ok(())
}

// What `csv` makes of ends of lines, empty lines, quotes and a byte order mark.
#[test]
fn records(rt: HostRuntime) -> Result<(), Fail> {
    let table = [
        (
            b"host,value\n3,10\n1,20\n3,5\n".as_slice(),
            "3:10 1:20 3:5 ",
        ),
        (b"host,value".as_slice(), ""),
        (b"host,value\n3,10".as_slice(), "3:10 "),
        (b"host,value\r\n3,10\r\n1,20\r\n".as_slice(), "3:10 1:20 "),
        (b"host,value\r3,10\r1,20".as_slice(), "3:10 1:20 "),
        (
            b"\n\nhost,value\n\n3,10\n\r\n\n1,20\n\n".as_slice(),
            "3:10 1:20 ",
        ),
        (b"\xef\xbb\xbfhost,value\n3,10\n".as_slice(), "3:10 "),
        (b"\"host\",\"value\"\n\"3\",\"10\"\n".as_slice(), "3:10 "),
        (b"host,value\n\"\"\"3\",10\n".as_slice(), "bad"),
        (b"host,value\n\"1\"0,10\n".as_slice(), "bad"),
        (b"host,value\n\"0\"1,\"1\"0\n".as_slice(), "1:10 "),
        (b"host,value\n3,\"10".as_slice(), "3:10 "),
        (b"host,value\n3,\"10\n1,20\n".as_slice(), "bad"),
        (
            b"host,value\n003,00000000000000000010\n".as_slice(),
            "3:10 ",
        ),
        (
            b"host,value\n3,-10\n1,\"-4294967295\"\n0,-0\n2,4294967295\n".as_slice(),
            "3:-10 1:-4294967295 0:0 2:4294967295 ",
        ),
    ];
    for (bytes, rows) in table {
        if rows == "bad" {
            assert!(rt; fault(&rt, "host:2", 9, bytes)?.is_some(), "of {bytes:?}");
        } else {
            let text = written(&rt, bytes)?;
            assert!(rt; text.as_str() == rows, "of {bytes:?}: {text}");
        }
    }
    Ok(())
}
