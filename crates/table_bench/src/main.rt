//! Fills the endgame tables of two and three pieces and checks their bytes.
//!
//! Without words it prints how many entries each table has, how many positions are won, lost and
//! drawn for the side to move, and the greatest rank. A separate solver in another language, which
//! is not kept here, worked these numbers out. With the word `time` it prints how long filling and
//! checking take, in milliseconds of the clock.
#![tactic(auto)]

ghost use Rattle.strategy_certificate.specs.Tables.{IsTableSize};

mod measure;

use anyhow::Result;
use endgame_table::{Table, answer_of, fill, table_bytes};
use std::alloc::Global;
use std::env;
use strategy_certificate::Answer;
use table_checker::check_table;

/// How many positions are won, lost and drawn for the side to move, and the greatest rank.
struct Tally {
    won: usize,
    lost: usize,
    drawn: usize,
    rank: u32,
}

/// What the table answers, counted.
fn count_answers(table: &Table) -> Tally {
    let mut tally = Tally {
        won: 0,
        lost: 0,
        drawn: 0,
        rank: 0,
    };
    for number in table.numbers() {
        match answer_of(*number) {
            Some(Answer::Win(rank)) => {
                tally.won = tally.won.saturating_add(1);
                tally.rank = tally.rank.max(rank);
            }
            Some(Answer::Loss(rank)) => {
                tally.lost = tally.lost.saturating_add(1);
                tally.rank = tally.rank.max(rank);
            }
            Some(Answer::Draw) => tally.drawn = tally.drawn.saturating_add(1),
            None => {}
        }
    }
    tally
}

/// Fills a table, checks its bytes, and prints what it answers, counted.
fn tell(rt: &(impl Print + Alloc<A = Global>), pieces: u8) -> Result<()>
    requires { IsTableSize pieces }
{
    let table = fill(rt.alloc(), pieces)?;
    let bytes = table_bytes(rt.alloc(), &table)?;
    let checked = check_table(rt.alloc(), &bytes)?;
    let entries = checked.len();
    let Tally {
        won,
        lost,
        drawn,
        rank,
    } = count_answers(&checked);
    println!(rt;
        "table {pieces}: {entries} entries, {won} won, {lost} lost, {drawn} drawn, \
        greatest rank {rank}"
    )?;
    Ok(())
}

fn main(rt: HostRuntime) -> Result<()> {
    let is_timed = env::args(&rt)?
        .nth(1)
        .is_some_and(|word| word.as_str() == "time");
    if is_timed {
        measure::time(&rt, 2)?;
        return measure::time(&rt, 3);
    }
    tell(&rt, 2)?;
    tell(&rt, 3)
}
