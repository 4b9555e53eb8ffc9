//! Plays lists of events on benches, seeded and in an order that looks random: workers ask for
//! leases and hand in results, in time or too late, results are taken back, leases are released,
//! roots begin, and what is staged is applied.
//!
//! Each answer is compared with that of a plain list of leases. At the end of a list the records
//! that came of it are read back into another bench, whose tree is compared, and the certificate of
//! each settled root is checked. A difference ends the program with an error. For each setting it
//! prints how many events there were of each kind.
//!
//! Before that it prints the answers in worked rows of events, and of how many of 100,000 leases,
//! 64 of them alive at a time, the leaf was leased already.
//!
//! With the word `time` it prints how long a lease takes, at the first of a million leases and
//! behind the last, and how long a pick of the same tree among the same taken leaves; with one
//! root, and with 4,096 and 65,536 of which only the last is unsettled.
#![tactic(auto)]

ghost use Rattle.std.specs.Prelude.{◌≤◌};
ghost use Rattle.bench_core.specs.declared.settings.TheConstants.{MOST_WORK, MOST_LEASE};
ghost use Rattle.certificate_checker.specs.declared.outcomes.TheConstants.{MOST_DEPTH};

mod followed;
mod leasing;
mod plain;
mod playing;
mod rows;
mod searching;
mod tabled;
mod tally;
mod timing;

use crate::leasing::tell_leases;
use crate::playing::{Plan, play};
use crate::rows::tell_rows;
use crate::tally::Tally;
use anyhow::Result;
use endgame_table::{Table, fill};
use std::alloc::Global;
use std::env;

/// The settings that lists are played with: leases that last for 1, 2 and 7, and small and large budgets.
const PLANS: [Plan; 4] = [
    Plan {
        seed: 1,
        events: 60,
        lease: 1,
        depth: 1,
        budget: 40,
    },
    Plan {
        seed: 2,
        events: 60,
        lease: 2,
        depth: 0,
        budget: 40,
    },
    Plan {
        seed: 3,
        events: 60,
        lease: 7,
        depth: 1,
        budget: 4,
    },
    Plan {
        seed: 4,
        events: 100,
        lease: 7,
        depth: 2,
        budget: 100,
    },
];

/// How many lists are played by each setting.
const LISTS: u64 = 500;

/// Plays the lists of a plan, and prints what came of them.
fn tell(rt: &(impl Print + Alloc<A = Global>), plan: &Plan, table: &Table) -> Result<()>
    requires depth { plan.now.depth ≤ MOST_DEPTH }
    requires budget { plan.now.budget ≤ MOST_WORK }
    requires first { 1 ≤ plan.now.lease }
    requires last { plan.now.lease ≤ MOST_LEASE }
{
    let mut total = Tally::default();
    for list in 0..LISTS {
        let seed = plan.seed.wrapping_mul(1_000_000).wrapping_add(list);
        let tally = play(rt.alloc(), &Plan { seed, ..*plan }, table)?;
        total.add(&tally);
    }
    let Plan {
        lease,
        depth,
        budget,
        ..
    } = *plan;
    println!(rt; "lease {lease}, depth {depth}, budget {budget}: {LISTS} lists")?;
    total.print(rt)
}

fn main(rt: HostRuntime) -> Result<()> {
    let is_timed = env::args(&rt)?
        .nth(1)
        .is_some_and(|word| word.as_str() == "time");
    let table = fill(rt.alloc(), 2)?;
    if is_timed {
        return timing::time(&rt, &table);
    }
    tell_rows(&rt, &table)?;
    tell_leases(&rt, &table)?;
    let [first, second, third, last] = PLANS;
    tell(&rt, &first, &table)?;
    tell(&rt, &second, &table)?;
    tell(&rt, &third, &table)?;
    tell(&rt, &last, &table)
}
