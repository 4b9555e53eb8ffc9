//! Many workers, each in a thread with a pass of its own.
ghost use Rattle.std.specs.Prelude.{◌≡◌, All};
ghost use Rattle.turn_lock.specs.Seen.{IsOutside};
ghost use Rattle.tree_manager.specs.Turns.{GrowsByTurns};
ghost use Rattle.worker_gate.specs.Work.{CanSearch, ShowsEnd};

use crate::gates::Gate;
use crate::worker::{Ended, work};
use bench_disk::Disk;
use std::alloc::Global;
use std::sync::Wait;
use std::thread;
use std::thread::Threads;
use strategy_certificate::Oracle;
use tree_manager::{BenchPass, SharedBench};

/// The number of the worker that the caller is. Those in threads have the numbers from 1.
const CALLER: u32 = 0;

/// A worker that has a thread.
#[derive(Drop)]
struct Worker<D: Disk> {
    number: u32,
    pass: BenchPass<D>,
}

/// Runs `workers` workers in threads until each has ended, and then works on alone in the caller, whose end is the answer.
///
/// A worker for whose pass there is no room is not started. Where no thread can be made, the workers work one after another.
#[tactic(auto, using(tree_manager::proofs::TurnLemmas::grows_then, crate::proofs::SearchingLemmas::can_search_on))]
pub fn run_workers<R: Threads + Wait + Sync, D: Disk + Send, O: Oracle + Sync, G: Gate + Sync>(
    rt: &R,
    alloc: Global,
    shared: &SharedBench<D>,
    pass: &mut BenchPass<D>,
    workers: u8,
    oracle: &O,
    gate: &G,
) -> Ended
    requires outside { IsOutside shared.now pass.old }
    requires settings { CanSearch (O.piece_limit oracle.now) pass.old.front }
    ensures outside { IsOutside shared.now pass.new }
    ensures grows { GrowsByTurns pass.old.front pass.new.front }
    ensures ended { ShowsEnd result pass.new.front }
{
    let ready = split_passes(alloc, shared, pass, workers);
    let ended = work_in_threads(rt, alloc, shared, ready, oracle, gate);
    join_passes(shared, pass, ended);
    work(rt, alloc, shared, pass, CALLER, oracle, gate)
}

/// This number of workers, each with a pass that has seen what this one has, as far as there is room.
fn split_passes<D: Disk>(
    alloc: Global,
    shared: &SharedBench<D>,
    pass: &mut BenchPass<D>,
    workers: u8,
) -> Vec<Worker<D>>
    requires { IsOutside shared.now pass.old }
    ensures same { pass.new ≡ pass.old }
    ensures copies { All (λ worker. worker.pass ≡ pass.old) result.items }
{
    let mut ready = Vec::new(alloc);
    for number in 1..=u32::from(workers) {
        if ready.reserve(1).is_err() {
            break;
        }
        let pass = shared.split(pass);
        ready.push_reserved(Worker { number, pass });
    }
    ready
}

/// Lets each worker work in a thread, and waits until all have ended.
fn work_in_threads<R: Threads + Wait + Sync, D: Disk + Send, O: Oracle + Sync, G: Gate + Sync>(
    rt: &R,
    alloc: Global,
    shared: &SharedBench<D>,
    mut workers: Vec<Worker<D>>,
    oracle: &O,
    gate: &G,
) -> Vec<Worker<D>>
    requires outside { All (λ worker. IsOutside shared.now worker.pass) workers.items }
    requires settings { All (λ worker. CanSearch (O.piece_limit oracle.now) worker.pass.front)
        workers.items }
    ensures { All (λ worker. IsOutside shared.now worker.pass) result.items }
{
    let threads = workers.len().max(1);
    thread::for_each_mut(
        rt,
        workers.as_mut_slice(),
        threads,
        &|_: usize, worker: &mut Worker<D>|
            requires outside { IsOutside shared.now worker.old.pass }
            requires settings { CanSearch (O.piece_limit oracle.now) worker.old.pass.front }
            ensures { IsOutside shared.entry.now worker.new.pass }
        {
            let number = worker.number;
            work(rt, alloc, shared, &mut worker.pass, number, oracle, gate);
        },
    );
    workers
}

/// Ends the workers' passes, and takes what they have seen into this one.
fn join_passes<D: Disk>(
    shared: &SharedBench<D>,
    pass: &mut BenchPass<D>,
    mut workers: Vec<Worker<D>>,
)
    requires outside { IsOutside shared.now pass.old }
    requires each { All (λ worker. IsOutside shared.now worker.pass) workers.items }
    ensures outside { IsOutside shared.now pass.new }
    ensures grows { GrowsByTurns pass.old.front pass.new.front }
{
    while let Some(
        Worker {
            number: _,
            pass: other,
        },
    ) = workers.pop()
    {
        shared.join_pass(pass, other);
    }
}
