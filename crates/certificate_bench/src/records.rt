//! A certificate as what a record of a journal shows.
ghost use Rattle.bench_records.specs.Texts.{IsShown};

use anyhow::{Context, Result, bail};
use bench_records::{BenchRecord, CertificateList, Named, decode, encode};
use std::alloc::Global;
use strategy_certificate::Certificate;

/// The bytes of a record that a node is solved by this certificate.
pub fn record_of(alloc: Global, c: Certificate) -> Result<Vec<u8>>
    requires { IsShown 2 c.position c }
{
    let record = BenchRecord::Solve {
        node: 0,
        position: c.position,
        shown: CertificateList::from_vec(vec![in alloc; c]?),
    };
    Ok(encode(alloc, &record, &Named::new(alloc))?)
}

/// The certificate that a record of these bytes shows.
pub fn shown_by(alloc: Global, bytes: &[u8]) -> Result<Certificate> {
    let none = Named::new(alloc);
    let BenchRecord::Solve { shown, .. } = decode(alloc, bytes, 2, &none)? else {
        bail!("a record of another kind");
    };
    shown
        .into_vec()
        .pop()
        .context("a record without a certificate")
}
