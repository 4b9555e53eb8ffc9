//! A journal of small endgames, and their values.
use anyhow::{Result, ensure};
use bench_core::Settings;
use bench_disk::MemoryDisk;
use draughts_board::{Position, Side};
use journal_runs::{Account, Plan, solve};
use rand_core::utils::NextWord;
use rand_pcg::Pcg32;
use std::alloc::Global;
use std::sync::Wait;
use std::thread::Threads;
use worker_gate::OpenGate;

/// How many positions are drawn at most.
const DRAWN: u32 = 60;

/// A journal in memory, and how many roots it has.
#[derive(Drop)]
pub(crate) struct SettledJournal {
    pub(crate) disk: MemoryDisk,
    pub(crate) roots: u32,
}

/// The mask of a square that is drawn.
fn square(dice: &mut Pcg32) -> u32 {
    1_u32 << (dice.next_word() % 32)
}

/// A position of a man each and one king that is drawn; none where it breaks the rule on pieces.
fn drawn(dice: &mut Pcg32) -> Option<Position> {
    let (black_men, white_men) = (square(dice), square(dice));
    let king = square(dice);
    let (black_kings, white_kings) = if dice.next_word() % 2 == 0 {
        (king, 0)
    } else {
        (0, king)
    };
    let to_move = if dice.next_word() % 2 == 0 {
        Side::Black
    } else {
        Side::White
    };
    Position::of_masks([black_men, black_kings, white_men, white_kings], to_move)
}

/// The positions of the roots that this seed draws.
fn positions(alloc: Global, seed: u64) -> Result<Vec<Position>> {
    let mut dice = Pcg32::new(seed, 1);
    let mut all = Vec::new(alloc);
    for _ in 0..DRAWN {
        if let Some(p) = drawn(&mut dice) {
            if !all.contains(&p) {
                all.push(p)?;
            }
        }
    }
    Ok(all)
}

/// The journal of the roots that this seed draws, each searched until it has a value, or the budget is
/// spent.
pub(crate) fn settled_journal<R: Threads + Wait + Sync>(
    rt: &R,
    alloc: Global,
    seed: u64,
) -> Result<SettledJournal> {
    let positions = positions(alloc, seed)?;
    let plan = Plan {
        settings: Settings {
            pieces: 2,
            depth: 8,
            budget: 600,
            lease: 1,
        },
        workers: 1,
        account: Account::Summary,
    };
    let (disk, written) = solve(
        rt,
        alloc,
        MemoryDisk::new(alloc),
        &plan,
        &positions,
        &OpenGate,
    );
    ensure!(written.is_ok(), "the roots are not searched");
    let roots = u32::try_from(positions.len()).unwrap_or(0);
    Ok(SettledJournal { disk, roots })
}
