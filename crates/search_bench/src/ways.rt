//! How fast each way of searching beyond the depth is.
use crate::counted::Counted;
use crate::endgames::SETS;
use anyhow::Result;
use draughts_board::{Position, Side};
use endgame_slices::{Slices, solve_below};
use endgame_table::Table;
use leaf_search::prove_fortress;
use std::alloc::Global;
use std::time::{CpuClock, Duration};
use strategy_certificate::Oracle;
use win_lines::find_win_part;

/// No more positions are worked out below an endgame.
const MOST_SLICE_POSITIONS: u64 = 3_000_000;

/// How many lists of moves are made for each win by proof numbers.
const MOST_MOVE_LISTS: usize = 100_000;

/// No strategy that is found by proof numbers has more entries.
const MOST_ENTRIES: usize = 100_000;

/// How many positions are looked through for each closed set.
const MOST_SET_POSITIONS: usize = 8_000;

/// How many endgames are timed.
const TIMED: usize = 5;

/// How many positions are worked out below these endgames.
fn worked_out(alloc: Global, set: &[Position], table: &Table) -> Result<u64> {
    let mut positions = 0_u64;
    for p in set.iter().take(TIMED) {
        let mut slices = Slices::new(alloc);
        solve_below(alloc, p, MOST_SLICE_POSITIONS, table, &mut slices)?;
        positions = positions.saturating_add(slices.position_count());
    }
    Ok(positions)
}

/// How many of these endgames some side wins, by proof numbers.
fn won<O: Oracle>(alloc: Global, set: &[Position], oracle: &O) -> Result<u32> {
    let mut count = 0_u32;
    for p in set.iter().take(TIMED) {
        for side in [Side::Black, Side::White] {
            if find_win_part(alloc, p, side, MOST_MOVE_LISTS, MOST_ENTRIES, oracle)?.is_some() {
                count = count.saturating_add(1);
            }
        }
    }
    Ok(count)
}

/// How many of these endgames Black holds by a closed set.
fn held<O: Oracle>(alloc: Global, set: &[Position], oracle: &O) -> Result<u32> {
    let mut count = 0_u32;
    for p in set.iter().take(TIMED) {
        if prove_fortress(alloc, p, Side::Black, MOST_SET_POSITIONS, oracle)?.is_some() {
            count = count.saturating_add(1);
        }
    }
    Ok(count)
}

/// How many there are a second, if `count` take this time.
fn rate(count: u64, spent: Duration) -> u128 {
    u128::from(count).saturating_mul(1_000_000_000) / spent.as_nanos().max(1)
}

/// Prints how many positions a second are worked out slice by slice.
fn time_slices(
    rt: &(impl Print + CpuClock + Alloc<A = Global>),
    set: &[Position],
    table: &Table,
) -> Result<()> {
    let start = rt.thread_cpu_time()?;
    let positions = worked_out(rt.alloc(), set, table)?;
    let rate = rate(positions, rt.thread_cpu_time()?.saturating_sub(start));
    println!(rt; "slices: {positions} positions, {rate} positions/s")?;
    Ok(())
}

/// Prints how many nodes a second are looked at where wins are looked for by proof numbers.
fn time_numbers(
    rt: &(impl Print + CpuClock + Alloc<A = Global>),
    set: &[Position],
    table: &Table,
) -> Result<()> {
    let counted = Counted::new(table);
    let start = rt.thread_cpu_time()?;
    let won = won(rt.alloc(), set, &counted)?;
    let spent = rt.thread_cpu_time()?.saturating_sub(start);
    let nodes = counted.asked();
    let rate = rate(nodes, spent);
    println!(rt; "proof numbers: {won} of {TIMED} won, {nodes} nodes, {rate} nodes/s")?;
    Ok(())
}

/// Prints how many nodes a second are looked at where closed sets are grown.
fn time_sets(
    rt: &(impl Print + CpuClock + Alloc<A = Global>),
    set: &[Position],
    table: &Table,
) -> Result<()> {
    let counted = Counted::new(table);
    let start = rt.thread_cpu_time()?;
    let held = held(rt.alloc(), set, &counted)?;
    let spent = rt.thread_cpu_time()?.saturating_sub(start);
    let nodes = counted.asked();
    let rate = rate(nodes, spent);
    println!(rt; "closed sets: {held} of {TIMED} held, {nodes} nodes, {rate} nodes/s")?;
    Ok(())
}

/// Prints how fast each way is, with the first endgames of the first set.
pub(crate) fn time_ways(
    rt: &(impl Print + CpuClock + Alloc<A = Global>),
    table: &Table,
) -> Result<()> {
    let set = SETS[0].draw(rt.alloc())?;
    time_slices(rt, set.as_slice(), table)?;
    time_numbers(rt, set.as_slice(), table)?;
    time_sets(rt, set.as_slice(), table)
}
