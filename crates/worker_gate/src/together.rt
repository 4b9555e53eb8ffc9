//! Leaves that threads search at the same time, without a session.
ghost use Rattle.std.specs.Prelude.{◌≡◌, ◌≤◌, All, IfOk};
ghost use Rattle.bench_core.specs.Cores.{IsOutcomeOf};
ghost use Rattle.worker_gate.specs.Found.{AreFoundOf};
ghost use Rattle.worker_gate.specs.Work.{CanSearchLeaf, is_value_told};

use crate::found::LeafFound;
use crate::gates::Gate;
use crate::searching::search_lease;
use bench_core::LeaseResult;
use certificate_checker::{Outcome, told_by_all};
use leaf_search::Memo;
use lease_table::Lease;
use std::alloc::{AllocError, Global};
use std::collections::VecDeque;
use std::thread;
use std::thread::Threads;
use strategy_certificate::Oracle;

/// How many positions a thread remembers in which looking ahead shows no win, where it looks no deeper than `SHALLOW`.
const REMEMBERED_SHALLOW: usize = 128;

/// .. where it looks no deeper than `MIDDLE`.
const REMEMBERED_MIDDLE: usize = 512;

/// .. and where it looks deeper.
const REMEMBERED_DEEP: usize = 65_536;

/// Searches of at most this many plies take less than making a larger memory.
const SHALLOW: u8 = 4;

/// Those of at most this many plies take less than making the largest.
const MIDDLE: u8 = 6;

/// Searches these leaves in as many threads, and gives what it found: one result for each lease, in their order.
///
/// Each thread passes the gate before each of its searches, and lets it tell of what it saw last, where it wants to look. Where
/// no thread can be made, the leaves are searched one after another.
pub fn search_together<R: Threads + Sync, O: Oracle + Sync, G: Gate + Sync>(
    rt: &R,
    alloc: Global,
    leases: &[Lease],
    workers: u8,
    oracle: &O,
    gate: &G,
) -> Result<VecDeque<LeafFound>, AllocError>
    requires { All (CanSearchLeaf (O.piece_limit oracle.now)) leases.now }
    ensures { IfOk result (λ found. AreFoundOf leases.now found.items) }
{
    let each = leases.len().div_ceil(usize::from(workers).max(1)).max(1);
    let parts = thread::map_chunks(
        rt,
        alloc,
        leases,
        each,
        &|_: usize, part: &[Lease]| -> Result<VecDeque<LeafFound>, AllocError>
            requires { All (CanSearchLeaf (O.piece_limit oracle.now)) part.now }
            ensures { IfOk result (λ found. AreFoundOf part.now found.items) }
        { search_part(alloc, part, oracle, gate) },
    )?;
    let mut found = VecDeque::new(alloc);
    for part in parts {
        found.append(&mut part?)?;
    }
    Ok(found)
}

/// Searches these leaves one after another.
fn search_part<O: Oracle, G: Gate>(
    alloc: Global,
    leases: &[Lease],
    oracle: &O,
    gate: &G,
) -> Result<VecDeque<LeafFound>, AllocError>
    requires { All (CanSearchLeaf (O.piece_limit oracle.now)) leases.now }
    ensures { IfOk result (λ found. AreFoundOf leases.now found.items) }
{
    let mut memo = Memo::new(alloc, oracle.pieces(), remembered(leases))?;
    let mut found = VecDeque::new(alloc);
    for lease in leases {
        gate.before_search(lease);
        if gate.wants_look() {
            gate.tell();
        }
        found.reserve(1)?;
        found.push_back_reserved(find(alloc, lease, oracle, gate, &mut memo)?);
    }
    Ok(found)
}

/// How many positions are remembered in the search of these leaves, which is of one depth for all.
fn remembered(leases: &[Lease]) -> usize
    ensures { 1 ≤ result }
{
    match leases.first() {
        Some(lease) if lease.depth > MIDDLE => REMEMBERED_DEEP,
        Some(lease) if lease.depth > SHALLOW => REMEMBERED_MIDDLE,
        _ => REMEMBERED_SHALLOW,
    }
}

/// Searches a leaf, and sees whether what it found tells the value of its position.
fn find<O: Oracle, G: Gate>(
    alloc: Global,
    lease: &Lease,
    oracle: &O,
    gate: &G,
    memo: &mut Memo,
) -> Result<LeafFound, AllocError>
    requires settings { CanSearchLeaf (O.piece_limit oracle.now) lease.now }
    requires memo { memo.old ≡ O.piece_limit oracle.now }
    ensures lease { IfOk result (λ found. found.result.lease ≡ lease.now) }
    ensures own { IfOk result (λ found. IsOutcomeOf lease.now found.result.outcome) }
    ensures memo { memo.new ≡ memo.old }
{
    let outcome = search_lease(alloc, lease, oracle, gate, memo)?;
    let tells_value = tells_value(lease, &outcome);
    Ok(LeafFound {
        result: LeaseResult::new(alloc, lease, outcome)?,
        tells_value,
    })
}

/// The certificates of the outcome of a lease's search tell the value of its position.
fn tells_value(lease: &Lease, outcome: &Outcome) -> bool
    requires { IsOutcomeOf lease.now outcome.now }
    ensures { result ≡ is_value_told outcome.now }
{
    match outcome {
        Outcome::Solved(proofs) => told_by_all(proofs.as_slice()).value().is_some(),
        Outcome::Exhausted(_) => false,
    }
}
