//! Sources of bytes in memory and over readers of std, read to a limit, up to a fault and behind it.
ghost use Rattle.std.specs.Prelude.{◌<◌};

use bench_edges::{MemorySource, ReadRefusal, Source, SourceFault, StdSource, read_to_limit};
use std::alloc::{AllocError, Global};
use std::io::{self, Read};
use std::process::Abort;
use std::test::Fail;

/// What is wanted of a source that is read to a limit.
#[derive(Clone, Copy)]
enum Want<'a> {
    Bytes(&'a [u8]),
    TooLong,
    Fault,
}

/// The source, read to a limit, gives what is wanted.
fn gives<S: Source>(alloc: Global, source: &mut S, limit: usize, want: Want<'_>) -> bool {
    match read_to_limit(alloc, source, limit) {
        Ok(bytes) => matches!(want, Want::Bytes(due) if bytes.as_slice() == due),
        Err(ReadRefusal::TooLong) => matches!(want, Want::TooLong),
        Err(ReadRefusal::Fault(_)) => matches!(want, Want::Fault),
        Err(ReadRefusal::Memory(_)) => false,
    }
}

/// The source has these bytes left, was read so often, and has failed so often.
fn has_left(source: &MemorySource, bytes: &[u8], calls: u64, faults: u64) -> bool {
    source.left() == bytes && source.calls() == calls && source.faults() == faults
}

/// Ten thousand sevens are read whole, at most `most` in one read and so in `calls` reads.
fn expect_whole(rt: &impl Abort, alloc: Global, most: usize, calls: u64) -> Result<(), AllocError>
    requires { 0 < most }
{
    let bytes = vec![in alloc; 7; 10_000]?;
    let mut source = MemorySource::new(bytes.clone()?, Vec::new(alloc)).at_most(most);
    let is_whole = gives(alloc, &mut source, 10_000, Want::Bytes(&bytes));
    assert!(rt;
        is_whole && has_left(&source, b"", calls, 0),
        "{most} a read"
    );
    Ok(())
}

#[test]
fn a_source_is_read_to_its_end(rt: HostRuntime) -> Result<(), Fail> {
    // The last read of each tells the end.
    expect_whole(&rt, rt.alloc(), 1_000, 11)?;
    expect_whole(&rt, rt.alloc(), 4_096, 4)?;
    expect_whole(&rt, rt.alloc(), 20_000, 4)?;
    Ok(())
}

/// Six bytes are too long for a limit below that, and those behind the first past it are left.
fn expect_too_long(
    rt: &impl Abort,
    alloc: Global,
    limit: usize,
    left: &[u8],
) -> Result<(), AllocError> {
    let bytes = b"abcdef".to_vec(alloc)?;
    let mut source = MemorySource::new(bytes, Vec::new(alloc));
    let is_refused = gives(alloc, &mut source, limit, Want::TooLong);
    assert!(rt; is_refused && has_left(&source, left, 1, 0), "{limit}");
    Ok(())
}

#[test]
fn reading_stops_one_byte_past_the_limit(rt: HostRuntime) -> Result<(), Fail> {
    for (limit, left) in [b"bcdef".as_slice(), b"cdef", b"def", b"ef", b"f", b""]
        .iter()
        .enumerate()
    {
        expect_too_long(&rt, rt.alloc(), limit, left)?;
    }
    Ok(())
}

/// What is left of `abc` behind a read of two bytes, which are handed back.
fn left_behind_two(alloc: Global) -> Result<Vec<u8>, Fail> {
    let mut source = MemorySource::new(b"abc".to_vec(alloc)?, Vec::new(alloc));
    let mut chunk = [0; 2];
    if source.read(&mut chunk) != Ok(2) {
        return Err(Fail::from("two bytes were asked"));
    }
    source.take_back(b"ab".to_vec(alloc)?);
    Ok(read_to_limit(alloc, &mut source, 100)?)
}

#[test]
fn bytes_that_are_handed_back_do_not_come_again(rt: HostRuntime) -> Result<(), Fail> {
    assert_eq!(rt; left_behind_two(rt.alloc())?.as_slice(), b"c".as_slice());
    Ok(())
}

/// A source of `abcdef`, two bytes a read, of which the third fails.
fn failing_third(alloc: Global) -> Result<MemorySource, AllocError> {
    let failing = [2].to_vec(alloc)?;
    Ok(MemorySource::new(b"abcdef".to_vec(alloc)?, failing).at_most(2))
}

#[test]
fn a_source_goes_on_behind_a_fault(rt: HostRuntime) -> Result<(), Fail> {
    let mut source = failing_third(rt.alloc())?;
    let fails = gives(rt.alloc(), &mut source, 6, Want::Fault);
    assert!(rt; fails && has_left(&source, b"ef", 3, 1));
    let goes_on = gives(rt.alloc(), &mut source, 2, Want::Bytes(b"ef"));
    assert!(rt; goes_on && has_left(&source, b"", 5, 1));
    Ok(())
}

/// Gives one byte a read, and then fails.
#[derive(Drop)]
struct Broken {
    good: usize,
}

impl Read for Broken {
    fn read(&mut self, buf: &mut [u8]) -> io::Result<usize> {
        if self.good == 0 || buf.is_empty() {
            return Err(io::Error::from(io::ErrorKind::Other));
        }
        self.good -= 1;
        buf[0] = b'x';
        Ok(1)
    }
}

/// Whether a reader of std gives its bytes, without a fault, and none is left.
fn gives_all(alloc: Global, bytes: &[u8]) -> bool {
    let mut source = StdSource::new(bytes);
    let gives_them = gives(alloc, &mut source, 100, Want::Bytes(bytes));
    gives_them && source.faults() == 0 && source.into_inner().is_empty()
}

#[test]
fn a_reader_gives_its_bytes(rt: HostRuntime) {
    assert!(rt; gives_all(rt.alloc(), b"1. 9-13 *"));
}

#[test]
fn the_errors_of_a_reader_are_counted(rt: HostRuntime) {
    let mut source = StdSource::new(Broken { good: 3 });
    let fails = gives(rt.alloc(), &mut source, 100, Want::Fault);
    assert_eq!(rt; (fails, source.faults()), (true, 1));
    let again = source.read(&mut [0]);
    assert_eq!(rt; (again, source.faults()), (Err(SourceFault), 2));
}
