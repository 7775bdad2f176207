use super::*;
use std::alloc::{AllocError, Global};
use std::io::{self, Read, Write};
use std::test::Fail;

fn list(alloc: Global, bytes: &[u8]) -> Result<List<u8>, AllocError> {
    Ok(List::from_vec(bytes.to_vec(alloc)?))
}

fn numbers(alloc: Global, numbers: &[u64]) -> Result<List<u64>, AllocError> {
    Ok(List::from_vec(numbers.to_vec(alloc)?))
}

#[derive(Drop)]
struct Broken;

impl Read for Broken {
    fn read(&mut self, _buf: &mut [u8]) -> io::Result<usize> {
        Err(io::Error::from(io::ErrorKind::BrokenPipe))
    }
}

impl Write for Broken {
    fn write(&mut self, _buf: &[u8]) -> io::Result<usize> {
        Err(io::Error::from(io::ErrorKind::BrokenPipe))
    }

    fn flush(&mut self) -> io::Result<()> {
        Ok(())
    }
}

// Takes nothing, and doesn't call it a failure.
#[derive(Drop)]
struct Full;

impl Write for Full {
    fn write(&mut self, _buf: &[u8]) -> io::Result<usize> {
        Ok(0)
    }

    fn flush(&mut self) -> io::Result<()> {
        Ok(())
    }
}

#[test]
fn a_reader_of_std_passes_on_what_it_reads(rt: HostRuntime) {
    let mut source = StdSource::new(b"abcde".as_slice());
    let mut buf = [0; 3];
    assert_eq!(rt; source.take(&mut buf), Ok(3));
    assert_eq!(rt; buf, *b"abc");
    assert_eq!(rt; source.take(&mut buf), Ok(2));
    assert_eq!(rt; buf, *b"dec");
    assert_eq!(rt; source.take(&mut buf), Ok(0));
    assert_eq!(rt; StdSource::new(Broken).take(&mut buf), Err(Failed));
}

#[test]
fn a_writer_of_std_takes_what_it_is_given(rt: HostRuntime) -> Result<(), Fail> {
    let mut out = [0; 4];
    let mut sink = StdSink::new(out.as_mut_slice());
    assert_eq!(rt; sink.put(b"abc"), Ok(3));
    assert_eq!(rt; sink.put(b"de"), Ok(1));
    assert_eq!(rt; sink.put(b"e"), Err(Failed));
    drop(sink);
    assert_eq!(rt; out, *b"abcd");
    assert_eq!(rt; StdSink::new(Broken).put(b"x"), Err(Failed));
    assert_eq!(rt; StdSink::new(Full).put(b"x"), Err(Failed));
    Ok(())
}

#[test]
fn a_source_in_memory_gives_its_bytes_in_pieces_and_fails_where_told(
    rt: HostRuntime,
) -> Result<(), Fail> {
    let alloc = rt.alloc();
    let mut source = MemSource::new(list(alloc, b"abcde")?, 2, numbers(alloc, &[2])?);
    let mut buf = [b'-'; 3];
    for (number, given, filled) in [
        (1, Ok(2), *b"ab-"),
        (2, Err(Failed), *b"ab-"),
        (3, Ok(2), *b"cd-"),
        (4, Ok(1), *b"ed-"),
        (5, Ok(0), *b"ed-"),
    ] {
        assert_eq!(rt; source.take(&mut buf), given, "call {number}");
        assert_eq!(rt; buf, filled, "call {number}");
    }
    Ok(())
}

#[test]
fn a_sink_in_memory_fills_up_and_fails_where_told(rt: HostRuntime) -> Result<(), Fail> {
    let alloc = rt.alloc();
    let Ok(mut sink) = MemSink::new(alloc, 5, 3, numbers(alloc, &[1])?) else {
        return Err(Fail::from("there is memory"));
    };
    for (number, taken, held) in [
        (1, Err(Failed), b"".as_slice()),
        (2, Ok(3), b"abc".as_slice()),
        (3, Ok(2), b"abcab".as_slice()),
        (4, Err(Failed), b"abcab".as_slice()),
    ] {
        assert_eq!(rt; sink.put(b"abcd"), taken, "call {number}");
        assert_eq!(rt; sink.bytes(), held, "call {number}");
    }
    Ok(())
}

#[test]
fn moments_are_whole_seconds_and_nanoseconds(rt: HostRuntime) {
    for (sec, nsec, nanos) in [
        (0, 0, 0),
        (1, 5, 1_000_000_005),
        (-1, 999_999_999, -1),
        (i64::MAX, 999_999_999, 9_223_372_036_854_775_807_999_999_999),
        (i64::MIN, 0, -9_223_372_036_854_775_808_000_000_000),
    ] {
        let stamp = Stamp::new(sec, nsec);
        assert_eq!(rt; stamp.map(|s| s.nanos()), Some(nanos), "{sec} s {nsec} ns");
        assert_eq!(rt; Stamp::from_nanos(nanos), stamp, "{nanos} ns");
    }
    assert_eq!(rt; Stamp::new(0, 1_000_000_000), None);
    assert_eq!(rt;
        Stamp::from_nanos(9_223_372_036_854_775_808_000_000_000),
        None
    );
    assert_eq!(rt;
        Stamp::from_nanos(-9_223_372_036_854_775_808_000_000_001),
        None
    );
}
