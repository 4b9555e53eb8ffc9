//! The search that a lease asks for.
ghost use Rattle.std.specs.Prelude.{◌≡◌, ◌↔◌, IfOk, IsTrue};
ghost use Rattle.bench_core.specs.Cores.{IsOutcomeOf};
ghost use Rattle.worker_gate.specs.Work.{CanSearchLeaf};

use crate::gates::Gate;
use crate::watched::Watched;
use certificate_checker::{MOST_DEPTH, Outcome};
use leaf_search::{Memo, is_undecided, search};
use lease_table::Lease;
use std::alloc::{AllocError, Global};
use strategy_certificate::Oracle;

/// Whether the lease asks for a search that this oracle serves: the oracle has its number of pieces, it looks no further ahead
/// than may be, and its position is not decided at sight.
pub fn can_search<O: Oracle>(lease: &Lease, oracle: &O) -> bool
    ensures { IsTrue result ↔ CanSearchLeaf (O.piece_limit oracle.now) lease.now }
{
    lease.pieces == oracle.pieces()
        && lease.depth <= MOST_DEPTH
        && is_undecided(&lease.position, oracle)
}

/// A search of at most this number of plies takes less than two seconds: its gate hears nothing of it.
const MOST_SHORT: u8 = 8;

/// Searches the leaf of a lease for its goal, as many plies ahead as it says, by this oracle.
#[tactic(auto, using(crate::proofs::SearchingLemmas::outcome_is))]
fn search_by<O: Oracle>(
    alloc: Global,
    lease: &Lease,
    oracle: &O,
    memo: &mut Memo,
) -> Result<Outcome, AllocError>
    requires settings { CanSearchLeaf (O.piece_limit oracle.now) lease.now }
    requires memo { memo.old ≡ O.piece_limit oracle.now }
    ensures outcome { IfOk result (IsOutcomeOf lease.now) }
    ensures memo { memo.new ≡ memo.old }
{
    search(
        alloc,
        &lease.position,
        lease.goal,
        lease.depth,
        oracle,
        memo,
    )
}

/// Searches the leaf of a lease for its goal, as many plies ahead as it says. The gate hears of the positions that a search of more
/// than 8 plies looks at.
///
/// Answers `AllocError` where memory ran out; what the memo holds is then still exact.
pub fn search_lease<O: Oracle, G: Gate>(
    alloc: Global,
    lease: &Lease,
    oracle: &O,
    gate: &G,
    memo: &mut Memo,
) -> Result<Outcome, AllocError>
    requires settings { CanSearchLeaf (O.piece_limit oracle.now) lease.now }
    requires memo { memo.old ≡ O.piece_limit oracle.now }
    ensures outcome { IfOk result (IsOutcomeOf lease.now) }
    ensures memo { memo.new ≡ memo.old }
{
    if lease.depth <= MOST_SHORT {
        return search_by(alloc, lease, oracle, memo);
    }
    let watched = Watched::new(oracle, gate);
    let outcome = search_by(alloc, lease, &watched, memo)?;
    watched.ends();
    Ok(outcome)
}
