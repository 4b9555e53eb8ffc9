//! Counts the lists of n legal moves from the start position by either move generator, for n from 1
//! to 7: a measure of the moves a second, and a test, since these numbers are published for English
//! draughts.
//!
//! Then both generators are compared on 23,899 positions with kings that a seeded program makes,
//! also in what a written move means; a difference ends the program with an error. An independent
//! program in another language, which is not kept here, counted the same positions and the same
//! 105,209 moves. With a generator's name, `plain` or `swift`, and a number as words, only that
//! generator counts, to that number.
#![tactic(auto)]

mod compare;
mod count;
mod generator;

use anyhow::{Context, Result, bail};
use compare::compare;
use count::count;
use draughts_board::Position;
use generator::Generator;
use std::env;

/// The longest lists that are counted where no number is given.
const LONGEST: u32 = 7;

/// Where the positions that are compared begin.
const SEED: u64 = 20261127;

/// How many states are tried for a position.
const STATES: u32 = 40000;

/// Prints the number of lists of each length up to this one.
fn print_counts<R: Print + AllocGlobal>(rt: &R, generator: Generator, longest: u32) -> Result<()> {
    let start = Position::start();
    let name = generator.name();
    for n in 1..=longest {
        let lists = count(generator, rt.alloc(), &start, n)?;
        println!(rt; "{name} {n} {lists}")?;
    }
    Ok(())
}

/// Compares the generators, and prints on how much they agree.
fn print_comparison<R: Print + AllocGlobal>(rt: &R) -> Result<()> {
    let done = compare(rt.alloc(), SEED, STATES)?;
    if !done.agree {
        bail!("the generators differ after {} positions", done.positions);
    }
    let positions = done.positions;
    let moves = done.moves;
    let longest = done.longest;
    println!(rt; "same {positions} positions {moves} moves {longest} squares at most")?;
    Ok(())
}

fn main(rt: HostRuntime) -> Result<()> {
    let longest = match env::args(&rt)?.nth(2) {
        Some(text) => text.parse::<u32>().context("reading the number of moves")?,
        None => LONGEST,
    };
    match env::args(&rt)?.nth(1) {
        None => {
            print_counts(&rt, Generator::Plain, longest)?;
            print_counts(&rt, Generator::Swift, longest)?;
            print_comparison(&rt)
        }
        Some(name) => match name.as_str() {
            "plain" => print_counts(&rt, Generator::Plain, longest),
            "swift" => print_counts(&rt, Generator::Swift, longest),
            _ => bail!("no generator has this name"),
        },
    }
}
