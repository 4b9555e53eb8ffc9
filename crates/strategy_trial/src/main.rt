//! Plays a thousand games by certificates from the settled roots of a journal, wins and draws, either
//! side that holds, against replies that are drawn by lot and against the most stubborn ones.
//!
//! The roots are small endgames, drawn by a seed, and settled in a journal in memory by one worker. A
//! stubborn reply is one behind which the certificate has the greatest rank. Every root that is won
//! has to be won within its first rank in plies. A root that is held is played for a hundred plies,
//! and none of its positions may be lost: the side always has a move, and the table of three pieces
//! shows no win of the other side.
//!
//! Then it writes the lines of 500 roots as games of PDN, with variations, and reads them again: each
//! has to be one game of as many moves, which lead to where the line ends. Anything else ends the program
//! with an error. It prints how many games there were of each kind, and how many lines at least.
#![tactic(auto)]

mod games;
mod lines;
mod replies;
mod roots;

use crate::games::{Tally, play_root};
use crate::lines::is_read_again;
use crate::roots::{SettledJournal, settled_journal};
use anyhow::{Result, ensure};
use endgame_table::{Table, fill};
use rand_pcg::Pcg32;
use std::alloc::Global;
use std::sync::Wait;
use std::thread::Threads;

/// How many games are played at least.
const GAMES: u64 = 1_000;

/// The seed of the replies that are drawn.
const SEED: u64 = 1989;

/// The seed of the roots from which games are played.
const ROOTS_SEED: u64 = 7;

/// How many lines are read at least.
const LINES: u32 = 500;

/// The seeds of the roots whose lines are read.
const LINE_SEEDS: u64 = 20;

/// How many lines of a journal are read again.
fn lines_of(alloc: Global, journal: &mut SettledJournal, table: &Table) -> Result<u32> {
    let mut lines = 0_u32;
    for root in 1..=journal.roots {
        if is_read_again(alloc, &mut journal.disk, root, table)? {
            lines = lines.saturating_add(1);
        }
    }
    Ok(lines)
}

/// How many lines of seeded roots are read again: as many as are due, and those behind them in the same
/// journal.
fn all_lines<R: Threads + Wait + Sync>(rt: &R, alloc: Global, table: &Table) -> Result<u32> {
    let mut lines = 0_u32;
    for seed in 0..LINE_SEEDS {
        if lines >= LINES {
            break;
        }
        let mut journal = settled_journal(rt, alloc, seed)?;
        lines = lines.saturating_add(lines_of(alloc, &mut journal, table)?);
    }
    Ok(lines)
}

fn main(rt: HostRuntime) -> Result<()> {
    let mut journal = settled_journal(&rt, rt.alloc(), ROOTS_SEED)?;
    let (table, wide_table) = (fill(rt.alloc(), 2)?, fill(rt.alloc(), 3)?);
    let mut dice = Pcg32::new(SEED, 1);
    let mut tally = Tally::default();
    for root in 1..=journal.roots {
        let tables = (&table, &wide_table);
        play_root(
            rt.alloc(),
            &mut journal.disk,
            root,
            tables,
            &mut dice,
            &mut tally,
        )?;
    }
    let Tally { won, held } = tally;
    println!(&rt; "{won} games won within their ranks, {held} held positions not lost")?;
    ensure!(
        won.saturating_add(held) >= GAMES,
        "fewer games than are due"
    );
    ensure!(won > 0 && held > 0, "no game of a kind");
    let lines = all_lines(&rt, rt.alloc(), &table)?;
    ensure!(lines >= LINES, "fewer lines than are due");
    println!(&rt; "at least {LINES} lines read again")?;
    Ok(())
}
