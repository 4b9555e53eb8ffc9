//! Eight workers at one session, a thousand times, each time with other pauses before their
//! searches.
//!
//! One worker alone settles the roots first. Then, for each number from 0 to 999, eight workers
//! share a session of the same roots, in which a lease lasts for one, two or three leases given, so
//! that many results come too late. Before each search a worker yields, and turns in place, as
//! often as a sequence says that the number begins: that changes the order of the turns, and does
//! not fix it. A root whose value differs from that of the one worker ends the program with an
//! error, also where the session's journal is read again. It prints the same at each run.
//!
//! With the word `counts` it also prints how many searches there were and how many of them left no
//! record; these numbers differ from run to run.
#![tactic(auto)]

mod pauses;
mod roots;
mod runs;
mod stress;
mod tally;

use crate::roots::begun_disk;
use crate::runs::run_alone;
use crate::stress::{RUNS, WORKERS, stress};
use anyhow::{Result, ensure};
use endgame_table::fill;
use std::env;

/// Whether the words ask for the counts.
fn wants_counts(words: &[String]) -> Result<bool> {
    let Some(word) = words.first() else {
        return Ok(false);
    };
    ensure!(
        words.len() == 1 && word.as_str() == "counts",
        "the one word is counts"
    );
    Ok(true)
}

fn main(rt: HostRuntime) -> Result<()> {
    let words = env::args(&rt)?.skip(1).collect::<Vec<_>>(rt.alloc())?;
    let wants_counts = wants_counts(words.as_slice())?;
    let table = fill(rt.alloc(), 2)?;
    let disk = begun_disk(rt.alloc(), &table)?;
    let alone = run_alone(&rt, rt.alloc(), &disk, &table)?;
    alone.print(&rt)?;
    let tallies = stress(&rt, rt.alloc(), &disk, &table, &alone)?;
    if wants_counts {
        for tally in &tallies {
            tally.print(&rt)?;
        }
    }
    ensure!(
        tallies.iter().any(|tally| tally.late() > 0),
        "no result came too late"
    );
    println!(&rt; "{RUNS} runs of {WORKERS} workers: the values are those of one worker")?;
    Ok(())
}
