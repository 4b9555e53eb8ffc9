//! The record that a node is solved, of certificates that a search gave.
ghost use Rattle.std.specs.Prelude.{◌≡◌, IfOk, OnOk, ◌↔◌, IsTrue, ℕ};
ghost use Rattle.bench_records.specs.declared.records.BenchRecord.TheVariants as records;
ghost use Rattle.bench_records.specs.Texts.{ShowsEnough, IsSoundRecord, short_kind, record_sheet};

use bench_records::{BenchRecord, CertificateList, Sheet, kind_of, sheet_of};
use certificate_checker::ProofList;
use draughts_board::Position;
use lease_table::Lease;
use std::alloc::{AllocError, Global};

/// The certificates.
pub(crate) fn certificates_of(
    alloc: Global,
    proofs: ProofList,
) -> Result<CertificateList, AllocError>
    ensures { IfOk result (λ list. list ≡ proofs) }
{
    let mut list = Vec::with_capacity(alloc, proofs.as_slice().len())?;
    for proved in proofs.into_vec() {
        list.push(proved.into_certificate())?;
    }
    Ok(CertificateList::from_vec(list))
}

/// The certificates back, and the kind and the sheet of the record that a node is solved.
pub(crate) fn solve_sheet(
    alloc: Global,
    node: u64,
    position: Position,
    shown: CertificateList,
) -> Result<(CertificateList, u8, Sheet), AllocError>
    requires { (pieces : ℕ) × ShowsEnough pieces (records.Solve node position shown) }
    ensures same { IfOk result (λ made. made.0 ≡ shown) }
    ensures kind { IfOk result (λ made. made.1 ≡ short_kind (records.Solve node position shown)) }
    ensures sheet { IfOk result
        (λ made. made.2 ≡ record_sheet (records.Solve node position shown)) }
    ensures sound { OnOk result (IsSoundRecord (records.Solve node position shown)) }
{
    let record = BenchRecord::Solve {
        node,
        position,
        shown,
    };
    let sheet = sheet_of(alloc, &record)?;
    let kind = kind_of(&record);
    match record {
        BenchRecord::Solve { shown, .. } => Ok((shown, kind, sheet)),
        BenchRecord::Begin(_) => unreachable!(),
        BenchRecord::Expand { .. } => unreachable!(),
    }
}

/// The two are one lease.
pub(crate) fn is_same_lease(a: &Lease, b: &Lease) -> bool
    ensures { IsTrue result ↔ (a.now ≡ b.now) }
{
    a == b
}
