//! How long growing takes.
ghost use Rattle.std.specs.Prelude.{◌<◌};

use crate::grow::planted;
use anyhow::Result;
use proof_tree::{Free, unknown_children};
use std::alloc::Global;
use std::rt::Clock;
use std::time::Instant;

/// How often each tree is grown; the best time counts.
const RUNS: u32 = 3;

/// Spent in nanoseconds: of all, and of the calls of the tree among it.
#[derive(Clone, Copy)]
struct Spent {
    all: u128,
    tree: u128,
}

/// The times of growing a tree by `expansions` expansions.
fn times(rt: &(impl Print + Clock + Alloc<A = Global>), expansions: u32) -> Result<Spent> {
    let begin = Instant::now(rt)?;
    let mut tree = planted(rt.alloc())?;
    let mut spent = 0u128;
    for _ in 0..expansions {
        let start = Instant::now(rt)?;
        let Some((n, _)) = tree.pick(&Free) else {
            break;
        };
        spent = spent.saturating_add(start.elapsed(rt)?.as_nanos());
        let children = unknown_children(rt.alloc(), &tree.position(n))?;
        let start = Instant::now(rt)?;
        tree.reserve(children.len())?;
        tree.expand(n, &children);
        spent = spent.saturating_add(start.elapsed(rt)?.as_nanos());
    }
    Ok(Spent {
        all: begin.elapsed(rt)?.as_nanos(),
        tree: spent,
    })
}

/// How many a second, if `count` take this number of nanoseconds.
fn rate(count: u32, nanos: u128) -> u128 {
    count as u128 * 1_000_000_000 / nanos.max(1)
}

/// Prints the best rates for each size, and how they compare with those of the first.
pub(crate) fn time(rt: &(impl Print + Clock + Alloc<A = Global>), sizes: &[u32]) -> Result<()> {
    let mut first = None;
    for size in sizes {
        let mut best = Spent {
            all: u128::MAX,
            tree: u128::MAX,
        };
        for _ in 0..RUNS {
            let Spent { all, tree } = times(rt, *size)?;
            best.all = best.all.min(all);
            best.tree = best.tree.min(tree);
        }
        let all = rate(*size, best.all);
        let alone = rate(*size, best.tree);
        let (all_first, alone_first) = first.unwrap_or((all, alone));
        first = Some((all_first, alone_first));
        let percent = all.saturating_mul(100) / all_first.max(1);
        let percent_alone = alone.saturating_mul(100) / alone_first.max(1);
        println!(rt;
            "{size} expansions: {all}/s ({percent} % of the first rate); \
        of the tree alone {alone}/s ({percent_alone} %)"
        )?;
    }
    Ok(())
}
