//! How many work records a second, and for how much of its time a worker has the turn.
ghost use Rattle.std.specs.Prelude.{◌≡◌};

use crate::alone::{calculate_alone, search_alone};
use crate::by_hand::Spent;
use crate::places::{Place, run_by_hand, run_together};
use crate::roots::PIECES;
use crate::together::Together;
use anyhow::{Result, bail};
use draughts_board::Position;
use endgame_table::Table;
use std::sync::Wait;
use std::thread::Threads;

/// How many runs there are of each kind, of which the fastest counts.
const RUNS: u32 = 3;

/// The faster of two runs.
fn faster(best: Together, other: Together) -> Together {
    if best.spent <= other.spent {
        best
    } else {
        other
    }
}

/// How many work records there were a second.
fn per_second(run: &Together) -> u128 {
    u128::from(run.end.work).saturating_mul(1_000_000_000) / run.spent.max(1)
}

/// How many times the one is the other: whole times, and hundredths.
fn times(one: u128, other: u128) -> (u128, u128) {
    let hundredths = one.saturating_mul(100) / other.max(1);
    (hundredths / 100, hundredths % 100)
}

/// Prints the work records a second of one worker and of four, how many times as many those are, and the time that the
/// processors took for one.
fn print_rates(rt: &impl Print, place: Place, one: &Together, four: &Together) -> Result<()> {
    let (name, roots) = (place.name(), one.end.roots);
    let (slow, fast) = (per_second(one), per_second(four));
    let (whole, rest) = times(fast, slow);
    let work = u128::from(one.end.work.max(1));
    let (alone, each) = (one.processors / work, four.processors / work);
    print!(rt; "{name}, {roots} roots: 1 worker {slow} records/s, 4 workers {fast} records/s, ")?;
    println!(rt; "ratio {whole}.{rest:02}; of the processors {alone} and {each} ns a record")?;
    Ok(())
}

/// Prints for how much of its time a worker has the turn, and where the rest goes.
fn print_turns(rt: &impl Print, place: Place, work: u64, spent: &Spent) -> Result<()> {
    let name = place.name();
    let percent = spent.turns.saturating_mul(100) / spent.in_all().max(1);
    let work = u128::from(work.max(1));
    let (search, sheets, turns) = (spent.search / work, spent.sheets / work, spent.turns / work);
    print!(rt;
        "{name}: in turns {percent} % of a worker's time, for a record search {search} ns, "
    )?;
    println!(rt; "sheet {sheets} ns, turn {turns} ns")?;
    Ok(())
}

/// Times workers at a place, one and four in turn, and prints the best of their runs.
fn time_workers<R: Threads + Wait + Sync>(
    threads: &R,
    rt: &HostRuntime,
    place: Place,
    positions: &[Position],
    table: &Table,
) -> Result<()>
    requires { table.now.pieces ≡ PIECES }
{
    let mut best = None;
    for _ in 0..RUNS {
        let one = run_together(threads, rt, place, 1, positions, table)?;
        let four = run_together(threads, rt, place, 4, positions, table)?;
        if one.end != four.end {
            bail!("one worker and four came to different ends");
        }
        best = Some(match best {
            Some((slow, fast)) => (faster(slow, one), faster(fast, four)),
            None => (one, four),
        });
    }
    match best {
        Some((one, four)) => print_rates(rt, place, &one, &four),
        None => bail!("no runs"),
    }
}

/// Times the steps of one worker at a place, and prints the best of its runs.
fn time_turns<R: Wait>(
    waiting: &R,
    rt: &HostRuntime,
    place: Place,
    positions: &[Position],
    table: &Table,
) -> Result<()>
    requires { table.now.pieces ≡ PIECES }
{
    let mut best = run_by_hand(waiting, rt, place, positions, table)?;
    for _ in 1..RUNS {
        let other = run_by_hand(waiting, rt, place, positions, table)?;
        if other.spent.in_all() < best.spent.in_all() {
            best = other;
        }
    }
    print_turns(rt, place, best.end.work, &best.spent)
}

/// Prints how long one thread and four took for a position, and how many times as fast four are.
fn print_alone(
    rt: &impl Print,
    what: &str,
    positions: usize,
    slow: u128,
    fast: u128,
) -> Result<()> {
    let (whole, rest) = times(slow, fast);
    let positions = (positions as u128).max(1);
    let (one, four) = (slow / positions, fast / positions);
    print!(rt; "no turns, {what}: 1 thread {one} ns, 4 threads {four} ns a position, ")?;
    println!(rt; "ratio {whole}.{rest:02}")?;
    Ok(())
}

/// Times what workers do between their turns, in one thread and in four, and prints the best of the runs.
pub(crate) fn time_alone<R: Threads + Sync>(
    threads: &R,
    rt: &HostRuntime,
    positions: &[Position],
    table: &Table,
) -> Result<()> {
    let (mut slow, mut fast) = (u128::MAX, u128::MAX);
    for _ in 0..RUNS {
        slow = slow.min(search_alone(threads, rt, positions, table, 1)?);
        fast = fast.min(search_alone(threads, rt, positions, table, 4)?);
    }
    let what = "searches and sheets alone";
    print_alone(rt, what, positions.len(), slow, fast)
}

/// Times threads that only calculate, one and four, and prints the best of the runs.
pub(crate) fn time_machine<R: Threads + Sync>(
    threads: &R,
    rt: &HostRuntime,
    positions: usize,
) -> Result<()> {
    let (mut slow, mut fast) = (u128::MAX, u128::MAX);
    for _ in 0..RUNS {
        slow = slow.min(calculate_alone(threads, rt, positions, 1)?);
        fast = fast.min(calculate_alone(threads, rt, positions, 4)?);
    }
    print_alone(rt, "calculating in registers", positions, slow, fast)
}

/// Takes the time of workers at a place: of one and of four, and of one by hand.
pub(crate) fn time<R: Threads + Wait + Sync>(
    threads: &R,
    rt: &HostRuntime,
    place: Place,
    positions: &[Position],
    table: &Table,
) -> Result<()>
    requires { table.now.pieces ≡ PIECES }
{
    time_workers(threads, rt, place, positions, table)?;
    time_turns(threads, rt, place, positions, table)
}
