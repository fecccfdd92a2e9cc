//! Sources and sinks.
use its_io::{Failed, MemSink, MemSource, Sink, Source, StdSink, StdSource, SureSink, SureSource};
use std::collections::VecDeque;
use std::io::{self, ErrorKind, Read, Write};
use std::test::Fail;

// A reader that fails, and a writer that takes nothing.
#[derive(Drop)]
struct Broken;

impl Read for Broken {
    fn read(&mut self, _buf: &mut [u8]) -> io::Result<usize> {
        Err(ErrorKind::BrokenPipe.into())
    }
}

impl Write for Broken {
    fn write(&mut self, _piece: &[u8]) -> io::Result<usize> {
        Ok(0)
    }

    fn flush(&mut self) -> io::Result<()> {
        Ok(())
    }
}

// The buffer's length for a read, what it answers, and what a buffer of four zeros then has.
type ReadRow = (usize, Result<usize, Failed>, [u8; 4]);

// How many of the reads do as they say, up to the first that doesn't.
fn read_rows<S: Source>(source: &mut S, rows: &[ReadRow]) -> usize {
    let mut buf = [0; 4];
    for (at, (room, want, bytes)) in rows.iter().enumerate() {
        if *room > 4 || source.read(&mut buf[..*room]) != *want || buf != *bytes {
            return at;
        }
    }
    rows.len()
}

// How many of the writes are answered as they say, up to the first that isn't.
fn write_rows<S: Sink>(sink: &mut S, rows: &[(&[u8], Result<usize, Failed>)]) -> usize {
    for (at, (piece, want)) in rows.iter().enumerate() {
        if sink.write(piece) != *want {
            return at;
        }
    }
    rows.len()
}

// Three bytes, in two reads, and the end.
const ABC: [ReadRow; 3] = [
    (2, Ok(2), *b"ab\0\0"),
    (2, Ok(1), *b"cb\0\0"),
    (2, Ok(0), *b"cb\0\0"),
];

#[test]
fn standard_source_reads_its_reader(rt: HostRuntime) -> Result<(), Fail> {
    let mut queue = VecDeque::new(rt.alloc());
    queue.write_all(b"abc")?;
    let read = read_rows(&mut StdSource::new(queue), &ABC);
    let failed = [(2, Err(Failed), [0; 4])];
    let failed = read_rows(&mut StdSource::new(Broken), &failed);
    assert_eq!(rt; [read, failed], [3, 1]);
    Ok(())
}

#[test]
fn standard_sink_writes_its_writer(rt: HostRuntime) -> Result<(), Fail> {
    let mut queue = VecDeque::new(rt.alloc());
    let taken = [(b"abc".as_slice(), Ok(3)), (b"".as_slice(), Ok(0))];
    let taken = write_rows(&mut StdSink::new(&mut queue), &taken);
    let front = queue.pop_front();
    let failed = [(b"abc".as_slice(), Err(Failed)), (b"".as_slice(), Ok(0))];
    let failed = write_rows(&mut StdSink::new(Broken), &failed);
    assert_eq!(rt; (taken, front, failed), (2, Some(b'a'), 2));
    Ok(())
}

#[test]
fn source_in_memory_fails_where_it_is_told_to(rt: HostRuntime) -> Result<(), Fail> {
    let mut source = MemSource::new(rt.alloc(), b"abcde", 2, &[2])?;
    let rows = [
        (4, Ok(2), *b"ab\0\0"),
        (4, Err(Failed), *b"ab\0\0"),
        (4, Ok(2), *b"cd\0\0"),
        (4, Ok(1), *b"ed\0\0"),
        (4, Ok(0), *b"ed\0\0"),
    ];
    assert_eq!(rt; read_rows(&mut source, &rows), 5);
    Ok(())
}

#[test]
fn sink_in_memory_fails_once_it_is_full(rt: HostRuntime) -> Result<(), Fail> {
    let mut sink = MemSink::new(rt.alloc(), 3, 2, &[1])?;
    let rows = [
        (b"abcd".as_slice(), Err(Failed)),
        (b"abcd".as_slice(), Ok(2)),
        (b"cd".as_slice(), Ok(1)),
        (b"d".as_slice(), Err(Failed)),
        (b"".as_slice(), Ok(0)),
    ];
    let written = write_rows(&mut sink, &rows);
    assert!(rt; written == 5 && sink.bytes() == b"abc".as_slice());
    Ok(())
}

#[test]
fn sure_forms_never_fail(rt: HostRuntime) -> Result<(), Fail> {
    let mut source = SureSource::new(rt.alloc(), b"abc")?;
    let read = read_rows(&mut source, &ABC);
    let mut sink = SureSink::new(rt.alloc(), 3)?;
    let written = write_rows(&mut sink, &[(b"abc".as_slice(), Ok(3))]);
    let is_held = sink.bytes() == Some(b"abc".as_slice());
    let too_many = write_rows(&mut sink, &[(b"d".as_slice(), Ok(1))]);
    assert_eq!(rt; [read, written, too_many], [3, 1, 1]);
    assert!(rt; is_held && sink.bytes().is_none());
    Ok(())
}
