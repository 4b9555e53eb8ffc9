//! Shortens seeded journals of every shape, and compares what is found in the old one and in the new.
//!
//! The roots are small endgames, drawn by a seed; two runs of `solve` work on them, the second with
//! more roots, and each record is then written again in one of both versions. Of the old journal and
//! the new one the same report is due, the same position, value and numbers of each root, and of a
//! root without a value the same tree, node by node. Then `solve` goes on with both, a record at a
//! time, and behind each the same is due. To shorten the new one again has to leave each record. A
//! difference ends the program with an error. It prints how many there were of each kind.
#![tactic(auto)]

mod journals;
mod kinds;
mod shorter;
mod tally;
mod trees;
mod versions;

use crate::journals::{MOST_PIECES, NEXT_RECORD, PAIRS, RUNS, positions, worked_on};
use crate::kinds::count_kinds;
use crate::shorter::{compare_reports, shortened};
use crate::tally::Tally;
use crate::trees::compare;
use crate::versions::in_both_versions;
use anyhow::Result;
use rand_pcg::Pcg32;
use std::alloc::Global;
use std::sync::Wait;
use std::thread::Threads;

/// How many journals there are.
const JOURNALS: u64 = 3;

/// How many records are added to both journals, if so many are needed.
const MORE_RECORDS: u32 = 4;

/// Goes on with a journal and its shorter one, and compares them before and behind each record.
fn go_on<R: Threads + Wait + Sync>(
    rt: &R,
    alloc: Global,
    old: Vec<u8>,
    new: Vec<u8>,
    tally: &mut Tally,
) -> Result<()> {
    let (mut old, mut new) = (old, new);
    compare(alloc, &old, &new, tally)?;
    for _ in 0..MORE_RECORDS {
        old = worked_on(rt, alloc, &old, NEXT_RECORD, &[])?;
        new = worked_on(rt, alloc, &new, NEXT_RECORD, &[])?;
        compare(alloc, &old, &new, tally)?;
    }
    Ok(())
}

/// Compares the journal of this seed with its shorter one, and what becomes of both.
fn compare_seed<R: Threads + Wait + Sync>(
    rt: &R,
    alloc: Global,
    seed: u64,
    tally: &mut Tally,
) -> Result<()> {
    let mut dice = Pcg32::new(seed, 47);
    let pair = (seed % PAIRS) as usize;
    let [first, second] = RUNS[pair];
    let most = MOST_PIECES[pair];
    let half = worked_on(rt, alloc, &[], first, &positions(alloc, &mut dice, most)?)?;
    let whole = worked_on(
        rt,
        alloc,
        &half,
        second,
        &positions(alloc, &mut dice, most)?,
    )?;
    let old = in_both_versions(alloc, &whole, &mut dice, tally)?;
    count_kinds(alloc, &half, &old, tally)?;
    let new = shortened(alloc, &old, tally)?;
    compare_reports(alloc, &old, &new)?;
    go_on(rt, alloc, old, new, tally)
}

fn main(rt: HostRuntime) -> Result<()> {
    let mut tally = Tally::default();
    for seed in 0..JOURNALS {
        compare_seed(&rt, rt.alloc(), seed, &mut tally)?;
    }
    tally.print(&rt)
}
