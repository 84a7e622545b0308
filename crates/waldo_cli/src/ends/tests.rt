use super::{Reading, Writing};
use report_lines::Sink;
use row_source::Source;
use std::io::{self, ErrorKind, Read, Write};

/// A reader that gives a byte a read, and fails at the second.
#[derive(Drop)]
struct Stumbling {
    reads: u8,
}

impl Read for Stumbling {
    fn read(&mut self, buf: &mut [u8]) -> io::Result<usize> {
        self.reads = self.reads.saturating_add(1);
        if self.reads == 2 || buf.is_empty() {
            return Err(io::Error::from(ErrorKind::Other));
        }
        buf[0] = b'7';
        Ok(1)
    }
}

/// A writer that takes at most two bytes a write, and three in all.
#[derive(Drop)]
struct Narrow {
    bytes: [u8; 3],
    taken: usize,
}

impl Write for Narrow {
    fn write(&mut self, buf: &[u8]) -> io::Result<usize> {
        for (i, byte) in buf.iter().take(2).enumerate() {
            if self.taken >= 3 {
                return Ok(i);
            }
            self.bytes[self.taken] = *byte;
            self.taken += 1;
        }
        Ok(buf.len().min(2))
    }

    fn flush(&mut self) -> io::Result<()> {
        Ok(())
    }
}

#[test]
fn a_source_over_a_reader(rt: HostRuntime) {
    let mut source = Reading::new(b"abc".as_slice());
    let mut buffer = [0; 2];
    assert_eq!(rt; source.read(&mut buffer).ok(), Some(2));
    assert_eq!(rt; buffer, *b"ab");
    assert_eq!(rt; source.read(&mut buffer).ok(), Some(1));
    assert_eq!(rt; buffer[0], b'c');
    assert_eq!(rt; source.read(&mut buffer).ok(), Some(0));
    assert_eq!(rt; source.faults(), 0);
    let mut source = Reading::new(Stumbling { reads: 0 });
    assert_eq!(rt; source.read(&mut buffer).ok(), Some(1));
    assert_eq!(rt; source.read(&mut buffer).ok(), None);
    assert_eq!(rt; source.faults(), 1);
    assert_eq!(rt; source.read(&mut buffer).ok(), Some(1));
    assert_eq!(rt; source.faults(), 1);
}

#[test]
fn a_sink_over_a_writer(rt: HostRuntime) {
    let mut bytes = Vec::new(rt.alloc());
    let mut sink = Writing::new(&mut bytes);
    assert!(rt; sink.put(b"abc").is_ok());
    assert!(rt; sink.put(b"").is_ok());
    assert!(rt; sink.put(b"de").is_ok());
    assert_eq!(rt; sink.faults(), 0);
    drop(sink);
    assert!(rt; bytes.as_slice() == b"abcde".as_slice());
    let mut narrow = Narrow {
        bytes: [0; 3],
        taken: 0,
    };
    let mut sink = Writing::new(&mut narrow);
    assert!(rt; sink.put(b"abcd").is_err());
    assert_eq!(rt; sink.faults(), 1);
    assert!(rt; sink.put(b"").is_ok());
    assert_eq!(rt; sink.faults(), 1);
    drop(sink);
    assert_eq!(rt; narrow.bytes, *b"abc");
}
