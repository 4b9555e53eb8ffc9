//! Work on a session by many workers, and what follows it.
ghost use Rattle.std.specs.Prelude.{◌≡◌, ◌≤◌, ◌⊎◌};
ghost use Rattle.tree_manager.specs.Lines.{session_pieces, session_depth};
ghost use Rattle.tree_manager.specs.Turns.{GrowsByTurns};
ghost use Rattle.worker_gate.specs.Work.{CanSearch};
ghost use Rattle.journal_runs.specs.Ends.{IsEndedBy};
ghost use Rattle.journal_runs.specs.FirstPass.{HasSearched};

use crate::alone::work_alone;
use crate::first_pass::first_pass;
use bench_disk::Disk;
use certificate_checker::MOST_DEPTH;
use std::alloc::{AllocError, Global};
use std::sync::Wait;
use std::thread::Threads;
use strategy_certificate::Oracle;
use tree_manager::{Session, SharedBench};
use worker_gate::{Ended, Gate, run_workers};

/// Commits what is staged, ends the leases that are left, and works on with the session alone.
///
/// With `Done` and `Spent` the session is idle.
fn go_on_alone<D: Disk, O: Oracle, G: Gate>(
    alloc: Global,
    session: &mut Session<D>,
    oracle: &O,
    gate: &G,
) -> Ended
    requires { CanSearch (O.piece_limit oracle.now) session.old.line }
    ensures grows { GrowsByTurns session.old.line session.new.line }
    ensures ended { IsEndedBy result session.new }
{
    match session.commit() {
        Ok(_) => {
            session.end_leases();
            work_alone(alloc, session, oracle, gate)
        }
        Err(_) => Ended::Failed,
    }
}

/// Workers share the session until none of them finds more to do; then it goes on with the session alone.
///
/// How it ended rests on no answer of a worker: it is said of the session that comes back, and of that alone.
fn share_work<R: Threads + Wait + Sync, D: Disk + Send, O: Oracle + Sync, G: Gate + Sync>(
    rt: &R,
    alloc: Global,
    session: Session<D>,
    workers: u8,
    oracle: &O,
    gate: &G,
) -> (Session<D>, Ended)
    requires tables { O.piece_limit oracle.now ≡ session_pieces session.line }
    requires depth { session_depth session.line ≤ MOST_DEPTH }
    ensures grows { GrowsByTurns session.line result.0.line }
    ensures ended { IsEndedBy result.1 result.0 }
{
    let (shared, mut pass) = match SharedBench::new(alloc, session) {
        Ok(made) => made,
        Err((session, AllocError)) => return (session, Ended::Memory),
    };
    run_workers(rt, alloc, &shared, &mut pass, workers, oracle, gate);
    let (mut session, _) = shared.finish(rt, pass);
    let ended = go_on_alone(alloc, &mut session, oracle, gate);
    (session, ended)
}

/// Searches each fresh root once, as many as there may be leases at one time. Then workers share the session, and it goes on
/// with the session alone.
pub fn work_together<R: Threads + Wait + Sync, D: Disk + Send, O: Oracle + Sync, G: Gate + Sync>(
    rt: &R,
    alloc: Global,
    session: Session<D>,
    workers: u8,
    lease: u32,
    oracle: &O,
    gate: &G,
) -> (Session<D>, Ended)
    requires tables { O.piece_limit oracle.now ≡ session_pieces session.line }
    requires depth { session_depth session.line ≤ MOST_DEPTH }
    ensures grows { GrowsByTurns session.line result.0.line }
    ensures searched { (result.1 ≡ Ended.Done) ⊎ (result.1 ≡ Ended.Spent)
        → HasSearched lease session.core result.0.line }
    ensures ended { IsEndedBy result.1 result.0 }
{
    let mut session = session;
    match first_pass(rt, alloc, &mut session, workers, lease, oracle, gate) {
        Ok(()) => share_work(rt, alloc, session, workers, oracle, gate),
        Err(ended) => (session, ended),
    }
}
