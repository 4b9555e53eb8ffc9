//! Searches lists of positions, and prints what is settled.
//!
//! Without words it prints for each list, table and depth how many positions are settled by value,
//! and how many nodes that takes (a node is a position of which the table is asked); for the first
//! list also the nodes with a memory of one position, which has to settle the same. The values in
//! these lists were worked out backwards from the end by programs of another kind. A value that is
//! found and is not the list's ends the program with an error.
//!
//! `fixed.txt` has positions 30 to 119 plies into random games, and `values.txt` 96 positions of
//! three to six pieces. How many positions are draws depends on how a list was made, so there are
//! two of random games, with one position of each of 168: `random.txt` draws it evenly among those
//! with at most three pieces a side and more than three pieces, and `first.txt` takes the first
//! with at most three pieces a side.
//!
//! With the word `time` it prints nodes a second, the time that a position of the first list takes,
//! and what share of the nodes a memory of one position takes; and for each way of going beyond the
//! depth how many positions or nodes a second it looks at. With the word `deep` it prints what is
//! settled of the lists of random games at depths 8 and 12. With the word `endgames` it searches
//! the random endgames of four sets at these depths, or of the set with the seed that stands behind
//! it, and prints the value that is found of each and the processor time that it takes. With the
//! word `drawn` it prints the endgames of all sets.
#![tactic(auto)]

ghost use Rattle.std.specs.Prelude.{◌≤◌};

mod counted;
mod drawn_sets;
mod endgames;
mod lists;
mod measure;
mod settling;
mod ways;

use crate::counted::Counted;
use crate::drawn_sets::{tell_drawn, tell_sets};
use crate::lists::{ListedPosition, read_rows};
use crate::measure::best_time;
use crate::settling::{Tally, settle_all};
use crate::ways::time_ways;
use anyhow::{Result, ensure};
use endgame_table::{Table, fill};
use leaf_search::Memo;
use std::alloc::Global;
use std::env;
use std::rt::{Clock, Files};
use std::time::CpuClock;

/// How many positions a memory keeps.
const WIDE: usize = 65_536;

/// The least number of positions that a memory keeps.
const NARROW: usize = 1;

/// Searches a list `depth` plies ahead, with an empty memory of `capacity` positions. What is settled, and the nodes.
fn searched(
    alloc: Global,
    rows: &[ListedPosition],
    depth: u8,
    capacity: usize,
    table: &Table,
) -> Result<(Tally, u64)>
    requires { 1 ≤ capacity }
{
    let mut memo = Memo::new(alloc, table.pieces(), capacity)?;
    let counted = Counted::new(table);
    let tally = settle_all(alloc, rows, depth, &counted, &mut memo)?;
    Ok((tally, counted.asked()))
}

/// Searches a list with a wide and a narrow memory, and prints what is settled and the nodes of both.
fn tell_memories(
    rt: &(impl Print + Alloc<A = Global>),
    rows: &[ListedPosition],
    depth: u8,
    table: &Table,
) -> Result<()> {
    let (tally, nodes) = searched(rt.alloc(), rows, depth, WIDE, table)?;
    let (same, nodes_narrow) = searched(rt.alloc(), rows, depth, NARROW, table)?;
    ensure!(tally == same, "the memory changes a value");
    tell(rt, depth, &tally)?;
    println!(rt; "{nodes} nodes, with a memory of one position {nodes_narrow}")?;
    Ok(())
}

/// Prints what is settled at this depth.
fn tell(rt: &impl Print, depth: u8, tally: &Tally) -> Result<()> {
    let Tally {
        black_wins,
        white_wins,
        draws,
        unsettled,
    } = *tally;
    print!(rt; "depth {depth}: Black wins {black_wins}, White wins {white_wins}, ")?;
    print!(rt; "draws {draws}, unsettled {unsettled}; ")?;
    Ok(())
}

/// Searches a list and prints what is settled and the nodes.
fn tell_list(
    rt: &(impl Print + Alloc<A = Global>),
    rows: &[ListedPosition],
    depth: u8,
    table: &Table,
) -> Result<()> {
    let (tally, nodes) = searched(rt.alloc(), rows, depth, WIDE, table)?;
    tell(rt, depth, &tally)?;
    println!(rt; "{nodes} nodes")?;
    Ok(())
}

/// Prints how fast the positions of a list are searched, and the share of the nodes that a narrow memory takes.
fn time(
    rt: &(impl Print + Clock + Alloc<A = Global>),
    rows: &[ListedPosition],
    depth: u8,
    table: &Table,
) -> Result<()> {
    let nanoseconds = best_time(rt, rows, depth, WIDE, table)?.max(1);
    let (_, nodes) = searched(rt.alloc(), rows, depth, WIDE, table)?;
    let (_, nodes_narrow) = searched(rt.alloc(), rows, depth, NARROW, table)?;
    let rate = u128::from(nodes).saturating_mul(1_000_000_000) / nanoseconds;
    let each = nanoseconds / (rows.len() as u128).max(1);
    let percent = nodes_narrow.saturating_mul(100) / nodes.max(1);
    let pieces = table.pieces();
    print!(rt; "table of {pieces}, depth {depth}: {rate} nodes/s, {each} ns a position, ")?;
    println!(rt; "{percent} % of the nodes with a memory of one position")?;
    Ok(())
}

/// Prints what is settled of each list.
fn tell_all(
    rt: &(impl Print + Files + Alloc<A = Global>),
    fixed: &[ListedPosition],
    tables: &[Table; 2],
) -> Result<()> {
    for table in tables {
        println!(rt; "fixed positions, table of {}", table.pieces())?;
        for depth in 4..=6 {
            tell_memories(rt, fixed, depth, table)?;
        }
    }
    let valued = read_rows(rt, "values.txt")?;
    for table in tables {
        println!(rt; "positions of known values, table of {}", table.pieces())?;
        for depth in [4, 6] {
            tell_list(rt, valued.as_slice(), depth, table)?;
        }
    }
    let random = read_rows(rt, "random.txt")?;
    println!(rt; "positions from random games, table of 3")?;
    for depth in [4, 6] {
        tell_list(rt, random.as_slice(), depth, &tables[1])?;
    }
    Ok(())
}

/// Prints what is settled of the lists of random games where searches go beyond their depth.
fn tell_deep(rt: &(impl Print + Files + Alloc<A = Global>), table: &Table) -> Result<()> {
    for name in ["random.txt", "first.txt"] {
        let rows = read_rows(rt, name)?;
        println!(rt; "{name}, table of 3")?;
        for depth in [8, 12] {
            tell_list(rt, rows.as_slice(), depth, table)?;
        }
    }
    Ok(())
}

/// Prints how fast the fixed positions are searched, and how fast each other way is.
fn time_all(
    rt: &(impl Print + Clock + CpuClock + Alloc<A = Global>),
    fixed: &[ListedPosition],
    tables: &[Table; 2],
) -> Result<()> {
    for table in tables {
        for depth in [4, 6] {
            time(rt, fixed, depth, table)?;
        }
    }
    time_ways(rt, &tables[1])
}

fn main(rt: HostRuntime) -> Result<()> {
    let tables = [fill(rt.alloc(), 2)?, fill(rt.alloc(), 3)?];
    let fixed = read_rows(&rt, "fixed.txt")?;
    let mut words = env::args(&rt)?;
    let word = words.nth(1);
    let seed = match words.next() {
        Some(word) => Some(word.as_str().parse::<u64>()?),
        None => None,
    };
    let word = match &word {
        Some(word) => word.as_str(),
        None => "",
    };
    match word {
        "time" => time_all(&rt, fixed.as_slice(), &tables),
        "deep" => tell_deep(&rt, &tables[1]),
        "endgames" => tell_sets(&rt, &tables[1], seed),
        "drawn" => tell_drawn(&rt),
        _ => tell_all(&rt, fixed.as_slice(), &tables),
    }
}
