//! Sinks of bytes in memory and over writers of std, written to up to a fault and behind it.
ghost use Rattle.std.specs.Prelude.{◌<◌};

use bench_edges::{MemorySink, Sink, SinkFault, StdSink, write_all};
use std::alloc::{AllocError, Global};
use std::io::{self, Write};
use std::process::Abort;
use std::test::Fail;

/// Whether each text, in turn, is written.
fn written<S: Sink>(sink: &mut S, text: &[u8]) -> bool {
    write_all(sink, text).is_ok()
}

/// Two texts and an empty one are written, at most `most` bytes in one write.
fn expect_whole(rt: &impl Abort, alloc: Global, most: usize)
    requires { 0 < most }
{
    let mut sink = MemorySink::new(alloc, Vec::new(alloc)).at_most(most);
    let all = written(&mut sink, b"roots ") && written(&mut sink, b"") && written(&mut sink, b"1");
    assert_eq!(rt; (all, sink.faults()), (true, 0), "{most} a write");
    assert_eq!(rt; sink.bytes(), b"roots 1".as_slice(), "{most} a write");
}

#[test]
fn texts_are_written_whole(rt: HostRuntime) {
    expect_whole(&rt, rt.alloc(), 1);
    expect_whole(&rt, rt.alloc(), 2);
    expect_whole(&rt, rt.alloc(), 100);
}

/// Whether the sink has taken these bytes, in `calls` calls of which `faults` failed.
fn has_taken(sink: &MemorySink, bytes: &[u8], calls: u64, faults: u64) -> bool {
    sink.bytes() == bytes && sink.calls() == calls && sink.faults() == faults
}

#[test]
fn a_fault_in_mid_stream_is_answered(rt: HostRuntime) -> Result<(), Fail> {
    let failing = [3].to_vec(rt.alloc())?;
    let mut sink = MemorySink::new(rt.alloc(), failing).at_most(2);
    assert_eq!(rt; write_all(&mut sink, b"abcdefghi"), Err(SinkFault));
    assert!(rt; has_taken(&sink, b"abcdef", 4, 1));
    Ok(())
}

/// A sink whose second write fails.
fn failing_second(alloc: Global) -> Result<MemorySink, AllocError> {
    Ok(MemorySink::new(alloc, [1].to_vec(alloc)?))
}

#[test]
fn only_the_listed_writes_fail(rt: HostRuntime) -> Result<(), Fail> {
    let mut sink = failing_second(rt.alloc())?;
    let first = (written(&mut sink, b"ab"), written(&mut sink, b"cd"));
    let second = (written(&mut sink, b"ef"), written(&mut sink, b"gh"));
    assert_eq!(rt; (first, second), ((true, false), (true, true)));
    assert!(rt; has_taken(&sink, b"abefgh", 4, 1));
    Ok(())
}

/// Takes one byte a write, and then nothing or an error.
#[derive(Drop)]
struct Full {
    room: usize,
    errs: bool,
}

impl Write for Full {
    fn write(&mut self, buf: &[u8]) -> io::Result<usize> {
        if self.room > 0 && !buf.is_empty() {
            self.room -= 1;
            return Ok(1);
        }
        if self.errs {
            return Err(io::Error::from(io::ErrorKind::Other));
        }
        Ok(0)
    }

    fn flush(&mut self) -> io::Result<()> {
        Ok(())
    }
}

/// What a writer of std takes of two texts, if both are written without a fault.
fn taken(alloc: Global) -> Option<Vec<u8>> {
    let mut sink = StdSink::new(Vec::new(alloc));
    let both = written(&mut sink, b"roots 1 ") && written(&mut sink, b"settled 1");
    if both && sink.faults() == 0 {
        Some(sink.into_inner())
    } else {
        None
    }
}

#[test]
fn a_writer_takes_what_is_written(rt: HostRuntime) -> Result<(), Fail> {
    let bytes = taken(rt.alloc()).ok_or("a fault")?;
    assert_eq!(rt; bytes.as_slice(), b"roots 1 settled 1".as_slice());
    Ok(())
}

/// Whether the byte is written to a sink, and how often it has failed.
fn put<W: Write>(sink: &mut StdSink<W>, text: &[u8]) -> (bool, u64) {
    (written(sink, text), sink.faults())
}

/// A writer with room for three bytes takes those, and fails at each byte more.
fn expect_full(rt: &impl Abort, errs: bool) {
    let mut sink = StdSink::new(Full { room: 3, errs });
    let taken = put(&mut sink, b"abc");
    let refused = (put(&mut sink, b"d"), put(&mut sink, b"d"));
    assert_eq!(rt;
        (taken, refused),
        ((true, 0), ((false, 1), (false, 2))),
        "{errs}"
    );
}

#[test]
fn the_errors_and_empty_writes_of_a_writer_are_counted(rt: HostRuntime) {
    expect_full(&rt, true);
    expect_full(&rt, false);
}
