//! What searches settle of random endgames.
use crate::endgames::SETS;
use crate::settling::settle;
use anyhow::Result;
use draughts_board::{Position, Value};
use endgame_table::Table;
use fen_text::print_fen;
use leaf_search::Memo;
use std::alloc::Global;
use std::time::{CpuClock, Duration};

/// How many positions a memory keeps.
const CAPACITY: usize = 65_536;

/// The value that a search with an empty memory gives, and the processor time that it takes.
fn timed(
    rt: &(impl CpuClock + Alloc<A = Global>),
    p: &Position,
    depth: u8,
    table: &Table,
) -> Result<(Option<Value>, Duration)> {
    let mut memo = Memo::new(rt.alloc(), table.pieces(), CAPACITY)?;
    let start = rt.thread_cpu_time()?;
    let found = settle(rt.alloc(), p, depth, table, &mut memo)?;
    let end = rt.thread_cpu_time()?;
    Ok((found, end.saturating_sub(start)))
}

/// The name of a value.
fn name(found: Option<Value>) -> &'static str {
    match found {
        Some(Value::BlackWins) => "black-wins",
        Some(Value::WhiteWins) => "white-wins",
        Some(Value::Draw) => "draw",
        None => "unsettled",
    }
}

/// Prints each of these endgames with the value that a search gives, and the processor time that it takes.
fn tell_each(
    rt: &(impl Print + CpuClock + Alloc<A = Global>),
    set: &[Position],
    depth: u8,
    table: &Table,
) -> Result<()> {
    for p in set {
        let (found, spent) = timed(rt, p, depth, table)?;
        let fen = print_fen(p);
        println!(rt;
            "{} {} depth {depth} {} ms",
            fen.as_str(),
            name(found),
            spent.as_millis()
        )?;
    }
    Ok(())
}

/// Prints what searches at depths 8 and 12 settle of each set, or of the one with this seed alone.
pub(crate) fn tell_sets(
    rt: &(impl Print + CpuClock + Alloc<A = Global>),
    table: &Table,
    seed: Option<u64>,
) -> Result<()> {
    for endgames in &SETS {
        if seed.is_some_and(|seed| seed != endgames.seed) {
            continue;
        }
        let set = endgames.draw(rt.alloc())?;
        for depth in [8, 12] {
            tell_each(rt, set.as_slice(), depth, table)?;
        }
    }
    Ok(())
}

/// Prints the endgames of each set.
pub(crate) fn tell_drawn(rt: &(impl Print + Alloc<A = Global>)) -> Result<()> {
    for endgames in &SETS {
        for p in &endgames.draw(rt.alloc())? {
            let fen = print_fen(p);
            println!(rt; "{}", fen.as_str())?;
        }
    }
    Ok(())
}
