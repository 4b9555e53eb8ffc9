//! Journals of small endgames that are drawn by a seed.
use anyhow::{Result, ensure};
use bench_core::{MOST_WORK, Settings};
use bench_disk::MemoryDisk;
use certificate_checker::MOST_DEPTH;
use draughts_board::{Position, Side};
use journal_runs::{Account, Plan, solve};
use rand_core::utils::NextWord;
use rand_pcg::Pcg32;
use std::alloc::{AllocError, Global};
use std::sync::Wait;
use std::thread::Threads;
use worker_gate::OpenGate;

/// How many positions are drawn for each run.
const DRAWN: u32 = 24;

/// How deep a run searches, and how many records of work it may add.
#[derive(Clone, Copy)]
pub(crate) struct Work {
    depth: u8,
    budget: u32,
}

/// A record of work.
pub(crate) const NEXT_RECORD: Work = Work {
    depth: 1,
    budget: 1,
};

/// How many pairs of runs there are.
pub(crate) const PAIRS: u64 = 3;

/// Two runs on a journal each: expansions alone, searches too, and many records behind few.
pub(crate) const RUNS: [[Work; 2]; PAIRS as usize] = [
    [
        Work {
            depth: 0,
            budget: 150,
        },
        Work {
            depth: 0,
            budget: 150,
        },
    ],
    [
        Work {
            depth: 2,
            budget: 60,
        },
        Work {
            depth: 8,
            budget: 20,
        },
    ],
    [
        Work {
            depth: 8,
            budget: 4,
        },
        Work {
            depth: 8,
            budget: 30,
        },
    ],
];

/// How many pieces a position has at most, for each pair. Searches of more take long.
pub(crate) const MOST_PIECES: [u32; PAIRS as usize] = [4, 3, 3];

/// A position of these pieces, which are drawn; none where it breaks the rule on pieces.
fn drawn(dice: &mut Pcg32, pieces: u32) -> Option<Position> {
    let mut masks = [0_u32; 4];
    for place in 0..pieces {
        let kind = dice.next_word() % 2 + 2 * (place % 2);
        masks[kind as usize] |= 1_u32 << (dice.next_word() % 32);
    }
    let to_move = if dice.next_word() % 2 == 0 {
        Side::Black
    } else {
        Side::White
    };
    Position::of_masks(masks, to_move)
}

/// Positions of two to so many pieces that are drawn.
pub(crate) fn positions(
    alloc: Global,
    dice: &mut Pcg32,
    most: u32,
) -> Result<Vec<Position>, AllocError> {
    let mut all = Vec::new(alloc);
    for _ in 0..DRAWN {
        let pieces = (2 + dice.next_word() % 3).min(most);
        if let Some(p) = drawn(dice, pieces) {
            all.push(p)?;
        }
    }
    Ok(all)
}

/// The bytes of a journal behind a run of `solve` on it, with these roots, and one worker.
pub(crate) fn worked_on<R: Threads + Wait + Sync>(
    rt: &R,
    alloc: Global,
    journal: &[u8],
    work: Work,
    roots: &[Position],
) -> Result<Vec<u8>> {
    let plan = Plan {
        settings: Settings {
            pieces: 2,
            depth: work.depth.min(MOST_DEPTH),
            budget: work.budget.min(MOST_WORK),
            lease: 1,
        },
        workers: 1,
        account: Account::Summary,
    };
    let disk = MemoryDisk::of(alloc, journal.to_vec(alloc)?)?;
    let (disk, written) = solve(rt, alloc, disk, &plan, roots, &OpenGate);
    ensure!(written.is_ok(), "the roots are not searched");
    Ok(disk.bytes().to_vec(alloc)?)
}
