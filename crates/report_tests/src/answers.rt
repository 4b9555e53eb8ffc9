//! The words of a command line, a source that is read by a limit, and answers that are written.
use bench_edges::{MemorySink, MemorySource, Status};
use opening_report::{Refusal, Written};
use program_edges::{KeepingSource, hand_back, read_source, refuse, told, write_answer};
use std::alloc::{AllocError, Global};
use std::test::Fail;

/// Words, and what a program tells of itself by them.
const TOLD: [(&[&str], Option<&str>); 6] = [
    (&["--help"], Some("usage")),
    (&["--version"], Some("version")),
    (&[], None),
    (&["--help", "--version"], None),
    (&["-", "--help"], None),
    (&["help"], None),
];

/// The first words by which something else is told.
fn first_other() -> Option<&'static [&'static str]> {
    for (words, due) in &TOLD {
        if told(words, "usage", "version") != *due {
            return Some(*words);
        }
    }
    None
}

#[test]
fn one_word_asks_what_a_program_is(rt: HostRuntime) {
    assert!(rt; first_other().is_none());
}

/// What is read of six bytes by a limit, and how many are left and kept then.
fn read(
    alloc: Global,
    limit: Option<usize>,
    failing: &[u64],
) -> Result<(Option<Refusal>, usize, usize), AllocError> {
    let inner = MemorySource::new(b"abcdef".to_vec(alloc)?, failing.to_vec(alloc)?);
    let mut source = KeepingSource::new(inner);
    match read_source(alloc, limit, &mut source) {
        Ok(bytes) => {
            let count = bytes.len();
            hand_back(limit, bytes, &mut source);
            Ok((None, count, source.kept().len()))
        }
        Err(refusal) => Ok((Some(refusal), 0, source.kept().len())),
    }
}

#[test]
fn a_source_is_read_by_its_limit(rt: HostRuntime) -> Result<(), Fail> {
    let alloc = rt.alloc();
    assert!(rt; read(alloc, Some(6), &[])? == (None, 6, 6));
    assert!(rt; read(alloc, Some(5), &[])? == (Some(Refusal::TooLong), 0, 0));
    assert!(rt; read(alloc, Some(6), &[1])? == (Some(Refusal::Read), 0, 0));
    assert!(rt; read(alloc, None, &[0])? == (None, 0, 0));
    Ok(())
}

/// An output of this text.
fn output(alloc: Global, is_settled: bool) -> Result<Written, AllocError> {
    Ok(Written {
        text: b"roots 0".to_vec(alloc)?,
        is_settled,
    })
}

/// What an answer comes to over a sink of which these writes fail, one byte a write: the status, the refusal, and whether this
/// text was taken.
fn written_as(
    alloc: Global,
    answer: Result<Written, Refusal>,
    failing: Vec<u64>,
    text: &str,
) -> (Status, Option<Refusal>, bool) {
    let mut sink = MemorySink::new(alloc, failing).at_most(1);
    let (status, refusal) = write_answer(answer, &mut sink);
    let is_text = sink.bytes() == text.as_bytes();
    (status, refusal, is_text)
}

#[test]
fn answers_are_written(rt: HostRuntime) -> Result<(), Fail> {
    let alloc = rt.alloc();
    let settled = written_as(alloc, Ok(output(alloc, true)?), Vec::new(alloc), "roots 0");
    assert!(rt; settled == (Status::Done, None, true));
    let unsettled = written_as(alloc, Ok(output(alloc, false)?), Vec::new(alloc), "roots 0");
    assert!(rt; unsettled == (Status::Unsolved, None, true));
    let failing = [4].to_vec(alloc)?;
    let unwritten = written_as(alloc, Ok(output(alloc, true)?), failing, "root");
    assert!(rt; unwritten == (Status::Write, None, true));
    Ok(())
}

/// Refusals, with the status and the line of each.
const REFUSED: [(Refusal, Status, &str); 6] = [
    (Refusal::Words(1), Status::Words, "refused words at 1\n"),
    (Refusal::TooLong, Status::Input, "refused input too-long\n"),
    (Refusal::Disk, Status::Disk, "refused disk\n"),
    (
        Refusal::Damaged(40),
        Status::Journal,
        "refused journal damaged byte 40\n",
    ),
    (Refusal::Memory, Status::Memory, "refused memory\n"),
    (Refusal::Read, Status::Read, "refused read\n"),
];

/// The line of the first refusal that is written otherwise.
fn first_miswritten(alloc: Global) -> Option<&'static str> {
    for (refusal, status, line) in &REFUSED {
        let due = (*status, Some(*refusal), true);
        if written_as(alloc, Err(*refusal), Vec::new(alloc), *line) != due {
            return Some(*line);
        }
    }
    None
}

#[test]
fn refusals_are_written(rt: HostRuntime) -> Result<(), Fail> {
    let alloc = rt.alloc();
    assert!(rt; first_miswritten(alloc).is_none());
    // The status stays where the sink fails at the line.
    let mut sink = MemorySink::new(alloc, [0].to_vec(alloc)?);
    let status = refuse(&Refusal::Disk, &mut sink);
    assert!(rt; status == Status::Disk && sink.bytes().is_empty());
    Ok(())
}
