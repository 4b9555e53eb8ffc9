//! Runs of `table` and `table-check`. What is due comes from the format of tables: 8 bytes of head
//! and 4 for each of 16,130 or 651,010 indices.
use crate::runs_of_tests::{NO_FAULTS, run_bench};
use bench_edges::Status;
use std::alloc::Global;
use std::process::Abort;
use std::sync::Wait;
use std::test::Fail;
use std::thread::Threads;
use worker_gate::OpenGate;

/// The place of the entry of `B:WK32:BK1`, whose index is 1232.
const ENTRY: usize = 8 + 4 * 1232;

/// The bytes that `table` writes. Nothing is read.
fn table<R: Abort + Threads + Wait + Sync>(
    rt: &R,
    alloc: Global,
    pieces: &str,
) -> Result<Vec<u8>, Fail> {
    let words = ["-", "table", pieces];
    let seen = run_bench(rt, alloc, &words, b"left", &[], NO_FAULTS, &OpenGate)?;
    assert_eq!(rt; (seen.status, seen.left), (Status::Done, 4));
    Ok(seen.written)
}

/// Checks the bytes by `table-check`, and compares the status and the line.
fn expect_checked<R: Abort + Threads + Wait + Sync>(
    rt: &R,
    alloc: Global,
    bytes: &[u8],
    status: Status,
    line: &str,
) -> Result<(), Fail> {
    let seen = run_bench(
        rt,
        alloc,
        &["-", "table-check"],
        bytes,
        &[],
        NO_FAULTS,
        &OpenGate,
    )?;
    assert_eq!(rt;
        (seen.status, seen.written.as_slice()),
        (status, line.as_bytes())
    );
    Ok(())
}

/// Whether these are `length` bytes, which begin with this head.
fn is_table(bytes: &[u8], length: usize, head: &[u8]) -> bool {
    bytes.len() == length && bytes.starts_with(head)
}

#[test]
fn tables_are_sound(rt: HostRuntime) -> Result<(), Fail> {
    for (pieces, length, head, line) in [
        ("2", 64_528, b"DRTABLE\x02", "sound table 2 entries 16130\n"),
        (
            "3",
            2_604_048,
            b"DRTABLE\x03",
            "sound table 3 entries 651010\n",
        ),
    ] {
        let bytes = table(&rt, rt.alloc(), pieces)?;
        assert!(rt; is_table(&bytes, length, head));
        expect_checked(&rt, rt.alloc(), &bytes, Status::Done, line)?;
    }
    Ok(())
}

/// The table of two pieces, which has this byte at this place in place of a 0.
fn altered<R: Abort + Threads + Wait + Sync>(
    rt: &R,
    alloc: Global,
    at: usize,
    byte: u8,
) -> Result<Vec<u8>, Fail> {
    let mut bytes = table(rt, alloc, "2")?;
    match bytes.get_mut(at) {
        Some(found) if *found == 0 => *found = byte,
        _ => return Err(Fail::from("no 0 stands there")),
    }
    Ok(bytes)
}

#[test]
fn a_wrong_entry_shows_where_it_is_used(rt: HostRuntime) -> Result<(), Fail> {
    let bytes = altered(&rt, rt.alloc(), ENTRY + 3, 1)?;
    let line = "refused input table bad-entry 1073 kept 0\n";
    expect_checked(&rt, rt.alloc(), &bytes, Status::Input, line)
}

#[test]
fn bytes_that_are_no_table(rt: HostRuntime) -> Result<(), Fail> {
    let alloc = rt.alloc();
    let table = table(&rt, alloc, "2")?;
    let long: Vec<u8> = vec![in alloc; 0; 4_194_305]?;
    let short = table.get(..64_527).unwrap_or(&[]);
    let shorter = "refused input table wrong-length found 64527 due 64528\n";
    let rows: [(&[u8], &str); 3] = [
        (b"", "refused input table bad-head\n"),
        (short, shorter),
        (&long, "refused input too-long\n"),
    ];
    for (bytes, line) in rows {
        expect_checked(&rt, alloc, bytes, Status::Input, line)?;
    }
    Ok(())
}
