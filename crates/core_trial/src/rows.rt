//! Worked rows: the one root W:W16,23:B12, which White wins by one ply's search.
ghost use Rattle.core_trial.specs.Fresh.{IsFresh};

use crate::tabled::TabledBench;
use anyhow::{Result, bail};
use bench_records::{BenchRecord, Named, encode};
use draughts_board::{Position, Side};
use endgame_table::Table;
use fen_text::read_fen;
use lease_table::{Lease, LeaseId};
use std::alloc::Global;
use strategy_certificate::Claim;

/// The root.
const ROOT: &[u8] = b"W:W16,23:B12";

/// The root begins, and is applied. The text of its record.
fn begin_root(bench: &mut TabledBench<'_>) -> Result<Vec<u8>> {
    let Some(text) = bench.begin(read_fen(ROOT)?)? else {
        bail!("no root began");
    };
    bench.apply();
    Ok(text)
}

/// A worker asks for a lease. The answer is printed.
fn tell_asked(rt: &impl Print, bench: &mut TabledBench<'_>, worker: u32) -> Result<Option<Lease>> {
    match bench.ask(worker) {
        Ok(lease) => {
            let (id, node) = (lease.id.number(), lease.node);
            println!(rt; "worker {worker}: lease {id} of node {node}")?;
            Ok(Some(lease))
        }
        Err(refusal) => {
            println!(rt; "worker {worker}: {refusal}")?;
            Ok(None)
        }
    }
}

/// A worker asks for a lease and gets one. The answer is printed.
fn tell_leased(rt: &impl Print, bench: &mut TabledBench<'_>, worker: u32) -> Result<Lease> {
    let Some(lease) = tell_asked(rt, bench, worker)? else {
        bail!("no lease");
    };
    Ok(lease)
}

/// The result of a lease comes. The answer is printed; the text of its record is given, empty where it is refused.
fn tell_result(
    rt: &(impl Print + Alloc<A = Global>),
    bench: &mut TabledBench<'_>,
    lease: &Lease,
) -> Result<Vec<u8>> {
    let id = lease.id.number();
    match bench.hand_in(rt.alloc(), lease)? {
        Ok(text) => {
            println!(rt; "result under lease {id}: staged")?;
            Ok(text)
        }
        Err(refusal) => {
            println!(rt; "result under lease {id}: {refusal}")?;
            Ok(Vec::new(rt.alloc()))
        }
    }
}

/// The result of a lease comes and is applied, and worker 3 asks. The answers are printed; the text of the result's
/// record is given.
fn tell_applied(
    rt: &(impl Print + Alloc<A = Global>),
    bench: &mut TabledBench<'_>,
    lease: &Lease,
) -> Result<Vec<u8>> {
    let text = tell_result(rt, bench, lease)?;
    bench.apply();
    tell_asked(rt, bench, 3)?;
    Ok(text)
}

/// What is claimed, in words.
fn words_of(claim: Claim) -> &'static str {
    match claim {
        Claim::Win(Side::White) => "White wins",
        Claim::Win(Side::Black) => "Black wins",
        Claim::Hold(_) => "a hold",
        Claim::Draw => "a draw",
    }
}

/// Prints what the certificate of the first root claims.
fn tell_claim(rt: &(impl Print + Alloc<A = Global>), bench: &TabledBench<'_>) -> Result<()> {
    let Some(proved) = bench.prove(rt.alloc(), 1)? else {
        bail!("the root is not settled");
    };
    println!(rt; "certificate: {}", words_of(proved.certificate().claim))?;
    Ok(())
}

/// Reads records back, and prints what a session begins with and what the certificate of the first root claims.
fn tell_session(
    rt: &(impl Print + Alloc<A = Global>),
    bench: &mut TabledBench<'_>,
    texts: &[Vec<u8>],
) -> Result<()>
    requires { IsFresh bench.old }
{
    bench.replay_all(texts)?;
    let (work, budget) = (bench.bench().work(), bench.bench().budget());
    println!(rt; "read back: {work} records of the session, budget {budget}")?;
    tell_asked(rt, bench, 4)?;
    tell_claim(rt, bench)
}

/// Reads records back into another bench, and prints what a session begins with.
fn tell_read_back(
    rt: &(impl Print + Alloc<A = Global>),
    table: &Table,
    texts: &[Vec<u8>],
) -> Result<()> {
    let mut again = TabledBench::new(rt.alloc(), table, 1, 5, 1)?;
    tell_session(rt, &mut again, texts)
}

/// The result of the first lease comes too late; that of the second settles the root. The texts of the records.
fn tell_two(
    rt: &(impl Print + Alloc<A = Global>),
    bench: &mut TabledBench<'_>,
) -> Result<[Vec<u8>; 2]> {
    let begun = begin_root(bench)?;
    let first = tell_leased(rt, bench, 1)?;
    let second = tell_leased(rt, bench, 2)?;
    tell_result(rt, bench, &first)?;
    let solved = tell_applied(rt, bench, &second)?;
    Ok([begun, solved])
}

/// What came of two leases is read back.
fn tell_two_and_read(
    rt: &(impl Print + Alloc<A = Global>),
    table: &Table,
    bench: &mut TabledBench<'_>,
) -> Result<()> {
    let texts = tell_two(rt, bench)?;
    tell_read_back(rt, table, &texts)
}

/// A lease that lasts for one runs out at the next.
fn tell_late(rt: &(impl Print + Alloc<A = Global>), table: &Table) -> Result<()> {
    println!(rt; "one root, leases that last for one")?;
    let mut bench = TabledBench::new(rt.alloc(), table, 1, 5, 1)?;
    tell_two_and_read(rt, table, &mut bench)
}

/// A result is taken back and handed in again. Until then the lease lives on.
fn tell_again(rt: &(impl Print + Alloc<A = Global>), bench: &mut TabledBench<'_>) -> Result<()> {
    begin_root(bench)?;
    let lease = tell_leased(rt, bench, 1)?;
    if bench.hand_in_and_forget(rt.alloc(), &lease)?.is_some() {
        bail!("the result was refused");
    }
    tell_asked(rt, bench, 2)?;
    tell_applied(rt, bench, &lease)?;
    Ok(())
}

/// A result is taken back and handed in again.
fn tell_taken_back(rt: &(impl Print + Alloc<A = Global>), table: &Table) -> Result<()> {
    println!(rt; "one root, leases that last for two, a result taken back")?;
    let mut bench = TabledBench::new(rt.alloc(), table, 1, 5, 2)?;
    tell_again(rt, &mut bench)
}

/// A lease is released. The answer is printed.
fn tell_release(rt: &impl Print, bench: &mut TabledBench<'_>, id: LeaseId) -> Result<()> {
    let number = id.number();
    match bench.release(id) {
        Ok(()) => println!(rt; "lease {number} released")?,
        Err(refusal) => println!(rt; "lease {number} not released: {refusal}")?,
    }
    Ok(())
}

/// A worker asks three times for a lease while the one leaf is leased.
fn tell_asked_often(rt: &impl Print, bench: &mut TabledBench<'_>) -> Result<()> {
    for _ in 0..3 {
        tell_asked(rt, bench, 2)?;
    }
    Ok(())
}

/// A leaf that is leased is not given again until the lease is released, which it is once.
fn tell_freed(rt: &impl Print, bench: &mut TabledBench<'_>) -> Result<()> {
    begin_root(bench)?;
    let lease = tell_leased(rt, bench, 1)?;
    tell_asked_often(rt, bench)?;
    tell_release(rt, bench, lease.id)?;
    tell_release(rt, bench, lease.id)?;
    tell_asked(rt, bench, 2)?;
    Ok(())
}

/// A lease is released.
fn tell_released(rt: &(impl Print + Alloc<A = Global>), table: &Table) -> Result<()> {
    println!(rt; "one root, leases that last for two, one released")?;
    let mut bench = TabledBench::new(rt.alloc(), table, 1, 5, 2)?;
    tell_freed(rt, &mut bench)
}

/// A budget of nothing is spent. A root that is taken back is none.
fn tell_unbegun(rt: &impl Print, bench: &mut TabledBench<'_>) -> Result<()> {
    begin_root(bench)?;
    tell_asked(rt, bench, 1)?;
    let is_staged = bench.begin_and_forget(Position::start())?;
    bench.apply();
    let roots = bench.bench().tree().roots();
    println!(rt; "another root staged: {is_staged}, and taken back: {roots} root")?;
    Ok(())
}

/// A budget of nothing.
fn tell_spent(rt: &(impl Print + Alloc<A = Global>), table: &Table) -> Result<()> {
    println!(rt; "one root, a budget of nothing")?;
    let mut bench = TabledBench::new(rt.alloc(), table, 1, 0, 2)?;
    tell_unbegun(rt, &mut bench)
}

/// The texts of the root's record and of two that expand it.
fn expanded_twice(alloc: Global) -> Result<[Vec<u8>; 3]> {
    let none = Named::new(alloc);
    let begun = encode(alloc, &BenchRecord::Begin(read_fen(ROOT)?), &none)?;
    let first = encode(alloc, &BenchRecord::Expand { node: 0 }, &none)?;
    let second = encode(alloc, &BenchRecord::Expand { node: 0 }, &none)?;
    Ok([begun, first, second])
}

/// A node is expanded once: a record that says so again is refused, and the tree stays. The moves are 16-11, 23-18 and
/// 23-19.
fn tell_expanded_once(
    rt: &(impl Print + Alloc<A = Global>),
    bench: &mut TabledBench<'_>,
    texts: &[Vec<u8>],
) -> Result<()>
    requires { IsFresh bench.old }
{
    if let Err(refusal) = bench.replay_all(texts) {
        println!(rt; "{refusal}")?;
    }
    let nodes = bench.bench().tree().len();
    println!(rt; "{nodes} nodes")?;
    Ok(())
}

/// Reads records back of which the last is not lawful.
fn tell_refused(
    rt: &(impl Print + Alloc<A = Global>),
    table: &Table,
    texts: &[Vec<u8>],
) -> Result<()> {
    let mut bench = TabledBench::new(rt.alloc(), table, 1, 5, 1)?;
    tell_expanded_once(rt, &mut bench, texts)
}

/// A node is to be expanded twice.
fn tell_expanded(rt: &(impl Print + Alloc<A = Global>), table: &Table) -> Result<()> {
    println!(rt; "one root, read back as expanded twice")?;
    let texts = expanded_twice(rt.alloc())?;
    tell_refused(rt, table, &texts)
}

/// Prints what is answered in the worked rows.
pub(crate) fn tell_rows(rt: &(impl Print + Alloc<A = Global>), table: &Table) -> Result<()> {
    tell_late(rt, table)?;
    tell_taken_back(rt, table)?;
    tell_released(rt, table)?;
    tell_spent(rt, table)?;
    tell_expanded(rt, table)
}
