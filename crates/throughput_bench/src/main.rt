//! Workers at a shared bench: how many work records they make a second, and how long they have the turn.
//!
//! The roots are openings that are made from a seed, as `generate` makes them, with the endgame table of two pieces; one
//! search settles each. Without words it lets one worker work on 40 roots, then four workers, and then one by hand, in
//! memory and on a file in the folder that it runs in, and prints how many roots are settled and how many work records
//! there are.
//!
//! With the words `time PATH` there are 2,000 roots in memory and 400 on a file at that path. It prints the work records a
//! second of one worker and of four, without the beginning of the roots, for how much of its time one worker has the turn,
//! and how long one thread and four take with no turns: for the searches, and for as many steps in registers alone. With the
//! word `names` it prints what the position of a record takes to fill in and to read, with 20,000 positions named before and
//! with a million; with `list COUNT` it makes a list of COUNT positions, and nothing else.
#![tactic(auto)]

ghost use Rattle.std.specs.Prelude.{◌≡◌};

mod alone;
mod by_hand;
mod measure;
mod names;
mod places;
mod roots;
mod together;

use crate::measure::{time, time_alone, time_machine};
use crate::names::{hold_list, time_names};
use crate::places::{Place, run_by_hand, run_together};
use crate::roots::{End, PIECES};
use anyhow::{Result, bail};
use capture_positions::capture_positions;
use draughts_board::Position;
use endgame_table::{Table, fill};
use std::sync::Wait;
use std::thread::Threads;
use std::{env, fs};

/// From this seed openings are made.
const SEED: u32 = 1;

/// How many roots there are without words.
const FEW: u32 = 40;

/// How many roots there are where time is taken, in memory and on a file.
const IN_MEMORY: u32 = 2_000;

const ON_FILE: u32 = 400;

/// The file for the run without words.
const FILE: &str = "throughput_bench.journal";

/// Prints what a session came to.
fn print_end(rt: &impl Print, place: Place, how: &str, end: End) -> Result<()> {
    let name = place.name();
    let End {
        roots,
        settled,
        work,
    } = end;
    println!(rt; "{name}, {how}: {settled} of {roots} roots settled by {work} work records")?;
    Ok(())
}

/// Lets workers work at a place, one, four and one by hand, and prints what they came to.
fn tell<R: Threads + Wait + Sync>(
    threads: &R,
    rt: &HostRuntime,
    place: Place,
    positions: &[Position],
    table: &Table,
) -> Result<()>
    requires { table.now.pieces ≡ PIECES }
{
    let one = run_together(threads, rt, place, 1, positions, table)?;
    print_end(rt, place, "1 worker", one.end)?;
    let four = run_together(threads, rt, place, 4, positions, table)?;
    print_end(rt, place, "4 workers", four.end)?;
    let hand = run_by_hand(threads, rt, place, positions, table)?;
    print_end(rt, place, "by hand", hand.end)
}

/// Takes the time of workers in memory, and on a file at this path.
fn time_at<R: Threads + Wait + Sync>(
    threads: &R,
    rt: &HostRuntime,
    path: &str,
    table: &Table,
) -> Result<()>
    requires { table.now.pieces ≡ PIECES }
{
    let many = capture_positions(rt.alloc(), SEED, IN_MEMORY)?;
    time(threads, rt, Place::Memory, many.as_slice(), table)?;
    time_alone(threads, rt, many.as_slice(), table)?;
    time_machine(threads, rt, many.len())?;
    let some = capture_positions(rt.alloc(), SEED, ON_FILE)?;
    time(threads, rt, Place::File(path), some.as_slice(), table)?;
    let _ = fs::remove_file(rt, path);
    Ok(())
}

/// What is timed without words: in memory, and on a file of this folder.
fn tell_all<R: Threads + Wait + Sync>(threads: &R, rt: &HostRuntime, table: &Table) -> Result<()>
    requires { table.now.pieces ≡ PIECES }
{
    let positions = capture_positions(rt.alloc(), SEED, FEW)?;
    tell(threads, rt, Place::Memory, positions.as_slice(), table)?;
    tell(threads, rt, Place::File(FILE), positions.as_slice(), table)?;
    fs::remove_file(rt, FILE)?;
    Ok(())
}

/// What the words ask for.
fn run_words<R: Threads + Wait + Sync>(threads: &R, rt: &HostRuntime) -> Result<()> {
    let mut words = env::args(rt)?;
    let table = fill(rt.alloc(), PIECES)?;
    let Some(word) = words.nth(1) else {
        return tell_all(threads, rt, &table);
    };
    if word.as_str() == "names" {
        return time_names(rt);
    }
    let Some(other) = words.next() else {
        bail!("a word is missing");
    };
    if word.as_str() == "list" {
        return hold_list(rt, other.as_str());
    }
    time_at(threads, rt, other.as_str(), &table)
}

fn main(rt: HostRuntime) -> Result<()> {
    run_words(&rt, &rt)
}
