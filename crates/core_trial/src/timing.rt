//! How long a lease takes, and a pick among the same leaves.
ghost use Rattle.std.specs.Prelude.{◌≤◌};
ghost use Rattle.bench_core.specs.declared.settings.TheConstants.{MOST_LEASE};

use crate::followed::Followed;
use crate::leasing::{BUDGET, WORKERS, give, grow, release_earlier};
use crate::tabled::TabledBench;
use anyhow::{Result, bail};
use draughts_board::{Position, Side};
use endgame_table::Table;
use proof_tree::{Taken, Tree};
use std::alloc::Global;
use std::rt::Clock;
use std::time::Instant;

/// A lease that is to be released lasts for this many leases given.
const LONG: u32 = 1_000_000_000;

/// How many leases are given between the first that are timed and the last.
const LEASES: u32 = 1_000_000;

/// Of how many leases the time is taken.
const TIMED: u32 = 10_000;

/// How many picks are timed behind each of as many leases as there are workers.
const PICKS: u32 = 200;

/// Roots begin below this number.
const MOST_KINGS: u32 = 1 << 20;

/// How workers take leases and leave them, and at how many roots.
#[derive(Clone, Copy)]
struct Habit {
    name: &'static str,
    /// How many roots are settled, and stand before the one at which leaves are leased.
    settled: u32,
    /// How many leases are alive once one is given.
    alive: u32,
    /// For how many leases given a lease lasts.
    lease: u32,
    /// After how many further leases each is released; none: they are abandoned, and run out.
    released: Option<u32>,
}

/// Times in nanoseconds, each a mean.
#[derive(Clone, Copy)]
struct Times {
    /// Of a lease, and of its release where it is released.
    lease: u128,
    /// Of a pick of the tree, where the taken leaves are looked up as leases.
    looked_up: u128,
    /// Of one where they are marked.
    marked: u128,
}

/// A root begins at which Black is to move and has no piece, where White's kings on these squares are no more than may
/// be: whether it begins. It is settled at sight.
fn begin_kings(bench: &mut TabledBench<'_>, kings: u32) -> Result<bool> {
    match Position::of_masks([0, 0, 0, kings], Side::Black) {
        Some(position) => Ok(bench.begin(position)?.is_some()),
        None => Ok(false),
    }
}

/// `count` roots begin that are settled at sight, and are applied.
fn begin_settled(bench: &mut TabledBench<'_>, count: u32) -> Result<()> {
    let mut begun = 0u32;
    for kings in 1..MOST_KINGS {
        if begun == count {
            break;
        }
        if begin_kings(bench, kings)? {
            begun = begun.saturating_add(1);
        }
    }
    bench.apply();
    Ok(())
}

/// How many roots stand before the first that is unsettled.
fn settled_front(tree: &Tree) -> u32 {
    for place in 0..tree.roots() {
        if tree.settled(place + 1).is_none() {
            return place;
        }
    }
    tree.roots()
}

/// The mean time of a lease.
fn time_of_lease(rt: &impl Clock, bench: &mut TabledBench<'_>, habit: &Habit) -> Result<u128> {
    let start = Instant::now(rt)?;
    let highest = give(bench, TIMED, habit.released)?;
    let spent = start.elapsed(rt)?.as_nanos();
    if highest == 0 {
        bail!("only the first root was leased");
    }
    Ok(spent / u128::from(TIMED))
}

/// The time of some picks of the tree among leaves that are taken, and the number of the leaf that they pick.
fn time_of_picks<T: Taken>(rt: &impl Clock, tree: &Tree, taken: &T) -> Result<(u128, u64)> {
    let mut picked = u64::MAX;
    let start = Instant::now(rt)?;
    for _ in 0..PICKS {
        if let Some((leaf, _)) = tree.pick(taken) {
            picked = picked.min(leaf.number());
        }
    }
    let spent = start.elapsed(rt)?.as_nanos();
    Ok((spent, picked))
}

/// The times of some picks, where the taken leaves are looked up and where they are marked, and the number of the leaf
/// that they pick.
fn time_both(rt: &impl Clock, tree: &Tree, followed: &Followed) -> Result<(u128, u128, u64)> {
    let (looked_up, leaf) = time_of_picks(rt, tree, &followed.leased())?;
    let (marked, other) = time_of_picks(rt, tree, followed.marked())?;
    if leaf != other {
        bail!("the marks are not those of the leases");
    }
    Ok((looked_up, marked, leaf))
}

/// The next lease is given, and followed: the number of its leaf.
fn give_next(bench: &mut TabledBench<'_>, followed: &mut Followed, habit: &Habit) -> Result<u64> {
    let lease = bench.ask(0)?;
    followed.give(&lease)?;
    if let Some(behind) = habit.released {
        release_earlier(bench, lease.id, behind);
    }
    Ok(lease.node)
}

/// As many leases are given as there are workers, and followed.
fn follow(alloc: Global, bench: &mut TabledBench<'_>, habit: &Habit) -> Result<Followed> {
    let mut followed = Followed::new(alloc, habit.alive, bench.bench().tree().len())?;
    for _ in 0..WORKERS {
        give_next(bench, &mut followed, habit)?;
    }
    Ok(followed)
}

/// The times of some picks before each of as many leases as there are workers. The lease is of the leaf that they pick.
fn time_between(
    rt: &impl Clock,
    bench: &mut TabledBench<'_>,
    followed: &mut Followed,
    habit: &Habit,
) -> Result<(u128, u128)> {
    let mut spent = (0u128, 0u128);
    for _ in 0..WORKERS {
        let (looked_up, marked, leaf) = time_both(rt, bench.bench().tree(), followed)?;
        spent = (
            spent.0.saturating_add(looked_up),
            spent.1.saturating_add(marked),
        );
        if give_next(bench, followed, habit)? != leaf {
            bail!("the picks are of another leaf than the lease");
        }
    }
    Ok(spent)
}

/// The times at the bench as it is.
fn time_now(
    rt: &(impl Clock + Alloc<A = Global>),
    bench: &mut TabledBench<'_>,
    habit: &Habit,
) -> Result<Times> {
    let lease = time_of_lease(rt, bench, habit)?;
    let mut followed = follow(rt.alloc(), bench, habit)?;
    let (looked_up, marked) = time_between(rt, bench, &mut followed, habit)?;
    let picks = u128::from(WORKERS * PICKS);
    Ok(Times {
        lease,
        looked_up: looked_up / picks,
        marked: marked / picks,
    })
}

/// Prints times.
fn print_times(rt: &impl Print, when: &str, times: Times) -> Result<()> {
    let Times {
        lease,
        looked_up,
        marked,
    } = times;
    print!(rt; "{when}: a lease {lease} ns, a pick among the same taken leaves ")?;
    println!(rt; "{looked_up} ns where it looks leases up, {marked} ns where they are marked")?;
    Ok(())
}

/// Prints what is timed.
fn print_habit(rt: &impl Print, tree: &Tree, habit: &Habit) -> Result<()> {
    let (roots, nodes, settled) = (tree.roots(), tree.len(), settled_front(tree));
    println!(rt;
        "{roots} roots, the first {settled} settled, {nodes} nodes; {}",
        habit.name
    )?;
    Ok(())
}

/// Prints the times at the first of a million leases and behind the last.
fn time_leases(
    rt: &(impl Print + Clock + Alloc<A = Global>),
    bench: &mut TabledBench<'_>,
    habit: &Habit,
) -> Result<()> {
    let first = time_now(rt, bench, habit)?;
    print_times(rt, "at first", first)?;
    give(bench, LEASES, habit.released)?;
    let last = time_now(rt, bench, habit)?;
    print_times(rt, "behind 1000000 leases more", last)
}

/// Roots begin, and the tree grows below the last; then the times are printed.
fn time_bench(
    rt: &(impl Print + Clock + Alloc<A = Global>),
    bench: &mut TabledBench<'_>,
    habit: &Habit,
) -> Result<()> {
    begin_settled(bench, habit.settled)?;
    grow(rt.alloc(), bench)?;
    print_habit(rt, bench.bench().tree(), habit)?;
    time_leases(rt, bench, habit)
}

/// Prints how long a lease takes, where workers have this habit.
fn time_habit(
    rt: &(impl Print + Clock + Alloc<A = Global>),
    table: &Table,
    habit: &Habit,
) -> Result<()>
    requires first { 1 ≤ habit.now.lease }
    requires last { habit.now.lease ≤ MOST_LEASE }
{
    let mut bench = TabledBench::new(rt.alloc(), table, 0, BUDGET, habit.lease)?;
    time_bench(rt, &mut bench, habit)
}

/// One lease is alive at a time.
fn time_single(rt: &(impl Print + Clock + Alloc<A = Global>), table: &Table) -> Result<()> {
    let habit = Habit {
        name: "1 lease alive, released",
        settled: 0,
        alive: 1,
        lease: LONG,
        released: Some(0),
    };
    time_habit(rt, table, &habit)
}

/// As many are alive as there are workers, each of which releases its own.
fn time_released(rt: &(impl Print + Clock + Alloc<A = Global>), table: &Table) -> Result<()> {
    let habit = Habit {
        name: "64 leases alive, each released",
        settled: 0,
        alive: WORKERS,
        lease: LONG,
        released: Some(WORKERS - 1),
    };
    time_habit(rt, table, &habit)
}

/// As many are alive as there are workers, all abandoned, where `settled` settled roots stand before the one that is not.
fn time_abandoned(
    rt: &(impl Print + Clock + Alloc<A = Global>),
    table: &Table,
    settled: u32,
) -> Result<()> {
    let habit = Habit {
        name: "64 leases alive, all abandoned",
        settled,
        alive: WORKERS,
        lease: WORKERS,
        released: None,
    };
    time_habit(rt, table, &habit)
}

/// Prints how long a lease takes, with one and with 64 alive, and with many roots.
pub(crate) fn time(rt: &(impl Print + Clock + Alloc<A = Global>), table: &Table) -> Result<()> {
    time_single(rt, table)?;
    time_released(rt, table)?;
    time_abandoned(rt, table, 0)?;
    time_abandoned(rt, table, 4_095)?;
    time_abandoned(rt, table, 65_535)
}
