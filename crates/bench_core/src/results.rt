//! Results of searches, made ready for staging.
ghost use Rattle.std.specs.Prelude.{◌≡◌, IfOk};
ghost use Rattle.certificate_checker.specs.Answers.{IsAnswer};
ghost use Rattle.certificate_checker.specs.declared.outcomes.Outcome.TheVariants as outcomes;
ghost use Rattle.bench_core.specs.Cores.{IsOutcomeOf};
ghost use Rattle.bench_core.specs.Results.{staged_of};

use crate::shown::{certificates_of, solve_sheet};
use crate::staged::Staged;
use bench_records::{BenchRecord, CertificateList, Sheet, kind_of, sheet_of};
use certificate_checker::{Exhausted, Outcome, ProofList, told_by_all};
use lease_table::Lease;
use proof_numbers::Facts;
use proof_tree::NodeId;
use std::alloc::{AllocError, Global};
use std::marker::Model;

/// What a search found.
#[derive(Drop)]
pub(crate) enum Found {
    /// Certificates that settle the goal, with what they tell.
    Solved {
        facts: Facts,
        shown: CertificateList,
    },
    /// Neither the goal's win nor the other side's hold.
    Exhausted(Exhausted),
}

impl Found {
    /// The record to stage, for this node.
    pub(crate) fn into_staged(self, lease: &Lease, node: NodeId) -> Staged
        ensures { result ≡ staged_of lease.now node self }
    {
        match self {
            Found::Solved { facts, shown } => Staged::Solve {
                lease: lease.id,
                node,
                position: lease.position,
                facts,
                shown,
            },
            Found::Exhausted(exhausted) => Staged::Expand {
                lease: lease.id,
                node,
                children: exhausted.children,
            },
        }
    }
}

/// The result of a lease's search, with all that staging it needs: what it tells, and the sheet of its record, which
/// staging fills in with the numbers of positions. No bench is needed to make it.
///
/// A contract sees the lease, and the outcome of its search.
#[derive(Drop)]
pub struct LeaseResult {
    pub(crate) lease: Lease,
    pub(crate) found: Found,
    /// The kind of the record that is staged of it, and its sheet.
    pub(crate) kind: u8,
    pub(crate) sheet: Sheet,
}

impl Model for LeaseResult {
    ghost use Rattle.bench_core.specs.Results.{ResultState, IsResultOf, outcome_of};

    ghost Value = { ResultState };

    ghost view = { λ r. record { lease = r.lease; outcome = outcome_of r.found } };

    ghost invariant = { λ r. IsResultOf r.lease r.found r.kind r.sheet };
}

impl LeaseResult {
    /// The outcome of the lease's search, with what it tells and the sheet of its record.
    pub fn new(alloc: Global, lease: &Lease, outcome: Outcome) -> Result<LeaseResult, AllocError>
        requires { IsOutcomeOf lease.now outcome }
        ensures { IfOk result (λ made. made ≡ record { lease = lease.now; outcome = outcome }) }
    {
        match outcome {
            Outcome::Solved(proofs) => solved(alloc, lease, proofs),
            Outcome::Exhausted(e) => exhausted(alloc, lease, e),
        }
    }
}

/// The result of certificates that settle the goal.
fn solved(alloc: Global, lease: &Lease, proofs: ProofList) -> Result<LeaseResult, AllocError>
    requires { IsAnswer lease.now.pieces lease.now.goal lease.now.depth lease.now.position proofs }
    ensures { IfOk result (λ made.
        made ≡ record { lease = lease.now; outcome = outcomes.Solved proofs }) }
{
    let facts = told_by_all(proofs.as_slice());
    let shown = certificates_of(alloc, proofs)?;
    let (shown, kind, sheet) = solve_sheet(alloc, lease.node, lease.position, shown)?;
    Ok(LeaseResult {
        lease: *lease,
        found: Found::Solved { facts, shown },
        kind,
        sheet,
    })
}

/// The result of a search that found too little.
fn exhausted(alloc: Global, lease: &Lease, e: Exhausted) -> Result<LeaseResult, AllocError>
    requires { IsOutcomeOf lease.now (outcomes.Exhausted e) }
    ensures { IfOk result (λ made.
        made ≡ record { lease = lease.now; outcome = outcomes.Exhausted e }) }
{
    let record = BenchRecord::Expand { node: lease.node };
    let sheet = sheet_of(alloc, &record)?;
    Ok(LeaseResult {
        lease: *lease,
        found: Found::Exhausted(e),
        kind: kind_of(&record),
        sheet,
    })
}
