//! What the error types say, and the exit statuses.
use bench_edges::{ReadRefusal, SinkFault, SourceFault, Status, WordsRefusal};
use std::alloc::{AllocError, Global};
use std::fmt::Display;
use std::process::Abort;
use std::test::Fail;

/// The value prints so.
fn expect_printed<T: Display>(
    rt: &impl Abort,
    alloc: Global,
    value: &T,
    want: &str,
) -> Result<(), AllocError> {
    assert_eq!(rt; format!(in alloc; "{value}")?.as_str(), want);
    Ok(())
}

/// The refusals of a source, each as it prints.
const REFUSALS: &[(ReadRefusal, &str)] = &[
    (ReadRefusal::TooLong, "the source is longer than its limit"),
    (ReadRefusal::Fault(SourceFault), "the source failed"),
    (ReadRefusal::Memory(AllocError), "out of memory"),
];

/// Each refusal prints so.
fn expect_all_printed(
    rt: &impl Abort,
    alloc: Global,
    rows: &[(ReadRefusal, &str)],
) -> Result<(), AllocError> {
    for (refusal, want) in rows {
        expect_printed(rt, alloc, refusal, want)?;
    }
    Ok(())
}

#[test]
fn errors_name_what_failed(rt: HostRuntime) -> Result<(), Fail> {
    let words = WordsRefusal { at: 3 };
    expect_all_printed(&rt, rt.alloc(), REFUSALS)?;
    expect_printed(&rt, rt.alloc(), &SourceFault, "the source failed")?;
    expect_printed(&rt, rt.alloc(), &SinkFault, "the sink failed")?;
    expect_printed(&rt, rt.alloc(), &words, "the words are refused at word 3")?;
    Ok(())
}

/// How a run ends, and its exit status.
const STATUSES: &[(Status, u8)] = &[
    (Status::Done, 0),
    (Status::Unsolved, 1),
    (Status::Words, 2),
    (Status::Input, 3),
    (Status::Disk, 4),
    (Status::Journal, 5),
    (Status::Memory, 6),
    (Status::Read, 7),
    (Status::Write, 8),
];

/// Each status has its number.
fn expect_numbers(rt: &impl Abort, rows: &[(Status, u8)]) {
    for (status, number) in rows {
        assert_eq!(rt; status.number(), *number, "{status:?}");
    }
}

#[test]
fn numbers_are_the_exit_statuses(rt: HostRuntime) {
    expect_numbers(&rt, STATUSES);
}
