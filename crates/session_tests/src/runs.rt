//! Runs whose texts and disks are worked out from the rules and the format by hand.
//!
//! Each function here is proved too, and dearly while it holds a disk: so a run answers plain values beside its disk, and the
//! tests compare those.
ghost use Rattle.std.specs.Prelude.{◌≤◌};
ghost use Rattle.bench_core.specs.declared.settings.TheConstants.{MOST_WORK};

use bench_core::Settings;
use bench_disk::MemoryDisk;
use disk_journal::JournalRefusal;
use draughts_board::Position;
use fen_text::read_fen;
use journal_runs::{Account, Plan, RunRefusal, solve};
use opening_report::Written;
use std::alloc::Global;
use std::sync::Wait;
use std::test::Fail;
use std::thread::Threads;
use worker_gate::OpenGate;

/// Whether what is written is this text, and whether all is settled; or why nothing is written.
type Told = Result<(bool, bool), RunRefusal>;

/// What a run tells.
fn told(answer: Result<Written, RunRefusal>, text: &str) -> Told {
    let ran = answer?;
    Ok((ran.text.as_slice() == text.as_bytes(), ran.is_settled))
}

/// A run of depth 1 by three workers on this disk, and what it tells.
fn run_on<R: Threads + Wait + Sync>(
    rt: &R,
    alloc: Global,
    disk: MemoryDisk,
    budget: u32,
    positions: &[Position],
    text: &str,
) -> (MemoryDisk, Told)
    requires { budget ≤ MOST_WORK }
{
    let plan = Plan {
        settings: Settings {
            pieces: 2,
            depth: 1,
            budget,
            lease: 1,
        },
        workers: 3,
        account: Account::Report,
    };
    let (disk, answer) = solve(rt, alloc, disk, &plan, positions, &OpenGate);
    (disk, told(answer, text))
}

/// What one run on a disk of these bytes tells, and whether the disk then has the others.
fn run_once<R: Threads + Wait + Sync>(
    rt: &R,
    alloc: Global,
    bytes: &[u8],
    positions: &[Position],
    text: &str,
    left: &[u8],
) -> Result<(Told, bool), Fail> {
    let disk = MemoryDisk::of(alloc, bytes.to_vec(alloc)?)?;
    let (disk, told) = run_on(rt, alloc, disk, 1, positions, text);
    Ok((told, disk.bytes() == left))
}

/// Begin of B:W16,19:B12, in which Black is blocked: a frame of 26 bytes, and a record of 22, with the position behind its
/// number.
const BLOCKED: [u8; 44] = [
    0x44, 0x52, 0x42, 0x45, 0x4e, 0x43, 0x48, 2, 1, 0, 0, 0, 0, 0, 0, 0, 26, 0, 0, 0, 22, 4, 0, 0,
    0, 0, 0, 0, 0, 8, 0, 0, 0, 0, 0, 0, 4, 0x80, 0, 0, 0, 0, 0, 0,
];

#[test]
fn reports_a_blocked_root(rt: HostRuntime) -> Result<(), Fail> {
    let blocked = read_fen(b"B:W16,19:B12")?;
    let text = "root 1 B:W16,19:B12 white-wins\nroots 1 settled 1 unsolved 0\n";
    let run = run_once(&rt, rt.alloc(), &[], &[blocked], text, &BLOCKED)?;
    assert_eq!(rt; run, (Ok((true, true)), true));
    Ok(())
}

/// What is written of a White win, of that and a leaf for which no budget is left, and of that leaf's value too.
const TEXTS: [&str; 3] = [
    "root 1 W:W16,23:B12 white-wins\nroots 1 settled 1 unsolved 0\n",
    "root 1 W:W16,23:B12 white-wins\nroot 2 B:W21:B10,17 unsolved\nroots 2 settled 1 unsolved 1\n",
    "root 1 W:W16,23:B12 white-wins\nroot 2 B:W21:B10,17 black-wins\nroots 2 settled 2 unsolved 0\n",
];

/// What three runs on one disk tell: of the first position with the budget 1, of both with none, and of no further one with
/// the budget 5.
fn run_on_and_on<R: Threads + Wait + Sync>(
    rt: &R,
    alloc: Global,
    both: &[Position; 2],
) -> [Told; 3] {
    let disk = MemoryDisk::new(alloc);
    let (disk, first) = run_on(rt, alloc, disk, 1, &both[..1], TEXTS[0]);
    let (disk, second) = run_on(rt, alloc, disk, 0, both, TEXTS[1]);
    let (_, third) = run_on(rt, alloc, disk, 5, &[], TEXTS[2]);
    [first, second, third]
}

#[test]
fn goes_on_where_the_budget_was_spent(rt: HostRuntime) -> Result<(), Fail> {
    let both = [read_fen(b"W:W16,23:B12")?, read_fen(b"B:W21:B10,17")?];
    let due = [Ok((true, true)), Ok((true, false)), Ok((true, true))];
    assert_eq!(rt; run_on_and_on(&rt, rt.alloc(), &both), due);
    Ok(())
}

#[test]
fn refuses_what_is_no_journal(rt: HostRuntime) -> Result<(), Fail> {
    let bytes = b"hello worl";
    let run = run_once(&rt, rt.alloc(), bytes, &[], "", bytes)?;
    let refusal = RunRefusal::Journal(JournalRefusal::NotAJournal);
    assert_eq!(rt; run, (Err(refusal), true));
    Ok(())
}
