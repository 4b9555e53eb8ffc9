//! Journals whose bytes are worked out from the format by hand: what is shown of them, and why they are refused.
//!
//! Each function here is proved too, and dearly while it holds a disk: so a look answers plain values, and the tests
//! compare those.
use bench_disk::MemoryDisk;
use disk_journal::JournalRefusal;
use draughts_board::Side;
use journal_looks::{LookRefusal, certify, report};
use opening_report::Written;
use std::alloc::{AllocError, Global};
use std::test::Fail;
use strategy_certificate::Claim;

/// Begin of B:W16,19:B12, in which Black is blocked: a frame of 22 bytes, and a record of 18.
const BLOCKED: [u8; 40] = [
    0x44, 0x52, 0x42, 0x45, 0x4e, 0x43, 0x48, 2, 1, 0, 0, 0, 0, 0, 0, 0, 22, 0, 0, 0, 18, 1, 0, 0,
    0, 8, 0, 0, 0, 0, 0, 0, 4, 0x80, 0, 0, 0, 0, 0, 0,
];

/// Begin of W:W16,23:B12, and Solve of it: 23-19 wins for White, and Black is blocked. The frames
/// are of 22 and of 90 bytes, the records of 18 and of 86. The gates stand at 8, 39 and 138.
const SOLVED: [u8; 139] = [
    0x44, 0x52, 0x42, 0x45, 0x4e, 0x43, 0x48, 2, 1, 0, 0, 0, 0, 0, 0, 0, 22, 0, 0, 0, 18, 1, 1, 0,
    0, 8, 0, 0, 0, 0, 0, 0, 0x40, 0x80, 0, 0, 0, 0, 0, 1, 0, 0, 0, 0, 0, 0, 0, 90, 0, 0, 0, 86, 2,
    0, 0, 0, 0, 0, 0, 0, 0, 1, 0, 0, 8, 0, 0, 0, 0, 0, 0, 0x40, 0x80, 0, 0, 0, 0, 0, 1, 2, 0, 0, 0,
    2, 1, 0, 0, 8, 0, 0, 0, 0, 0, 0, 0x40, 0x80, 0, 0, 0, 0, 0, 0, 0, 0, 0, 0, 0, 0, 1, 2, 23, 19,
    0, 0, 0, 8, 0, 0, 0, 0, 0, 0, 4, 0x80, 0, 0, 0, 0, 0, 0, 0, 0, 0, 0, 0, 0, 0, 0, 0,
];

/// The front of it up to the second gate, which is closed: the root alone.
const UNSOLVED: [u8; 40] = [
    0x44, 0x52, 0x42, 0x45, 0x4e, 0x43, 0x48, 2, 1, 0, 0, 0, 0, 0, 0, 0, 22, 0, 0, 0, 18, 1, 1, 0,
    0, 8, 0, 0, 0, 0, 0, 0, 0x40, 0x80, 0, 0, 0, 0, 0, 0,
];

/// Begin of B:W16,19:B12 twice. The second gate stands at 39, and the length field of the second record at 48.
const TWICE: [u8; 71] = [
    0x44, 0x52, 0x42, 0x45, 0x4e, 0x43, 0x48, 2, 1, 0, 0, 0, 0, 0, 0, 0, 22, 0, 0, 0, 18, 1, 0, 0,
    0, 8, 0, 0, 0, 0, 0, 0, 4, 0x80, 0, 0, 0, 0, 0, 1, 0, 0, 0, 0, 0, 0, 0, 22, 0, 0, 0, 18, 1, 0,
    0, 0, 8, 0, 0, 0, 0, 0, 0, 4, 0x80, 0, 0, 0, 0, 0, 0,
];

/// Whether what is written is this text, and whether all is settled; or why nothing is written.
type Told = Result<(bool, bool), LookRefusal>;

/// What a report tells.
fn told(answer: Result<Written, LookRefusal>, text: &str) -> Told {
    let looked = answer?;
    Ok((looked.text.as_slice() == text.as_bytes(), looked.is_settled))
}

/// What the report on a disk of these bytes tells, and whether the bytes stay.
fn reported(alloc: Global, bytes: &[u8], text: &str) -> Result<(Told, bool), AllocError> {
    let mut disk = MemoryDisk::of(alloc, bytes.to_vec(alloc)?)?;
    let told = told(report(alloc, &mut disk), text);
    Ok((told, disk.bytes() == bytes))
}

/// Journals, what is written of each, and whether all is settled.
const REPORTED: [(&[u8], &str, bool); 5] = [
    (&[], "roots 0 settled 0 unsolved 0\n", true),
    (b"DRBENCH\x02\x07\0", "roots 0 settled 0 unsolved 0\n", true),
    (
        &BLOCKED,
        "root 1 B:W16,19:B12 white-wins\nroots 1 settled 1 unsolved 0\n",
        true,
    ),
    (
        &UNSOLVED,
        "root 1 W:W16,23:B12 unsolved\nroots 1 settled 0 unsolved 1\n",
        false,
    ),
    (
        &SOLVED,
        "root 1 W:W16,23:B12 white-wins\nroots 1 settled 1 unsolved 0\n",
        true,
    ),
];

#[test]
fn reports_roots_with_the_values_that_they_have(rt: HostRuntime) -> Result<(), Fail> {
    for (bytes, text, is_settled) in REPORTED {
        let due = (Ok((true, is_settled)), true);
        assert_eq!(rt; reported(rt.alloc(), bytes, text)?, due, "{text}");
    }
    Ok(())
}

/// Bytes that are no journal, and why.
const REFUSED: [(&[u8], JournalRefusal); 3] = [
    (b"DRBENCH\x02\x01\0", JournalRefusal::Damaged(8)),
    (b"hello worl", JournalRefusal::NotAJournal),
    (&TWICE, JournalRefusal::Damaged(48)),
];

#[test]
fn refuses_what_is_no_journal(rt: HostRuntime) -> Result<(), Fail> {
    for (bytes, refusal) in REFUSED {
        let due = (Err(LookRefusal::Journal(refusal)), true);
        assert_eq!(rt; reported(rt.alloc(), bytes, "")?, due, "{refusal}");
    }
    Ok(())
}

/// What the certificate of a root claims, and who is to move in it; or why there is none.
fn certified(
    alloc: Global,
    bytes: &[u8],
    root: u32,
) -> Result<Result<(Claim, Side), LookRefusal>, AllocError> {
    let mut disk = MemoryDisk::of(alloc, bytes.to_vec(alloc)?)?;
    match certify(alloc, &mut disk, root) {
        Ok(c) => Ok(Ok((c.claim, c.position.to_move()))),
        Err(refusal) => Ok(Err(refusal)),
    }
}

/// Journals, the number of a root, and what its certificate claims, and who is to move; or why there is none.
const CERTIFIED: [(&[u8], u32, Result<(Claim, Side), LookRefusal>); 4] = [
    (&SOLVED, 1, Ok((Claim::Win(Side::White), Side::White))),
    (&SOLVED, 0, Err(LookRefusal::NoRoot(0))),
    (&SOLVED, 2, Err(LookRefusal::NoRoot(2))),
    (&UNSOLVED, 1, Err(LookRefusal::UnsettledRoot(1))),
];

#[test]
fn certifies_a_root_that_has_a_value(rt: HostRuntime) -> Result<(), Fail> {
    for (bytes, root, due) in CERTIFIED {
        assert_eq!(rt; certified(rt.alloc(), bytes, root)?, due, "root {root}");
    }
    Ok(())
}
