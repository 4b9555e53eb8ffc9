//! Checking a certificate.
ghost use Rattle.std.specs.Prelude.{◌≡◌, OnOk, IfErr};
ghost use Rattle.shared_words.specs.Answers.{IsExact};
ghost use Rattle.strategy_certificate.specs.Certificates.{IsGoodBy, IsTrueOf};
ghost use Rattle.certificate_checker.specs.Refusals.{IsRefusal, check_wants_memory};

use crate::parts::{are_due, find_faulty_part};
use crate::refusals::{CheckRefusal, refusal_at};
use std::alloc::Global;
use std::marker::Model;
use strategy_certificate::{Certificate, Oracle};

/// A certificate whose claim is true. Only [`check`] makes one.
///
/// It is good by the one sound table of as many pieces as it names.
#[derive(Drop)]
pub struct Proved {
    certificate: Certificate,
}

impl Model for Proved {
    ghost use Rattle.strategy_certificate.specs.Certificates.{IsGood, IsTrueOf};
    ghost use Rattle.strategy_certificate.specs.declared.certificates.Certificate.{Certificate};

    ghost Value = { Certificate };

    ghost view = { λ proved. proved.certificate };

    ghost invariant = { λ proved. IsGood proved.certificate
        × IsTrueOf proved.certificate.claim proved.certificate.position };
}

impl Proved {
    ghost use Rattle.std.specs.Prelude.{◌≡◌};
    ghost use Rattle.strategy_certificate.specs.Certificates.{IsGood, IsTrueOf};

    /// The certificate.
    pub fn certificate(&self) -> &Certificate
        ensures value { result.now ≡ self.now }
        ensures good { IsGood self.now }
        ensures claim { IsTrueOf self.now.claim self.now.position }
    {
        &self.certificate
    }

    /// The certificate, taken out. It is still good, and its claim true.
    pub fn into_certificate(self) -> Certificate
        ensures value { result ≡ self }
        ensures good { IsGood self }
        ensures claim { IsTrueOf self.claim self.position }
    {
        self.certificate
    }
}

/// Checks a certificate by the rules and the answers of an endgame table of as many pieces as it
/// names.
///
/// It is accepted exactly where it is good, but for want of memory, and is handed back with each
/// refusal. A refusal comes exactly where it is due, in the order that [`CheckRefusal`] tells.
pub fn check<O: Oracle>(
    alloc: Global,
    c: Certificate,
    oracle: &O,
) -> Result<Proved, (Certificate, CheckRefusal)>
    requires { c.pieces ≡ O.piece_limit oracle.now }
    // The certificate, which is good, or what goes wrong first: exactly that, unless memory ran
    // out.
    ensures exact { IsExact (λ refused. check_wants_memory refused.1)
        (λ proved. (proved ≡ c) × IsGoodBy (O.answer_at oracle.now) c)
        (λ refused. (refused.0 ≡ c) × IsRefusal (O.answer_at oracle.now) c refused.1) result }
    ensures claim { OnOk result (IsTrueOf c.claim c.position) }
    ensures handed_back { IfErr result (λ refused. refused.0 ≡ c) }
{
    let pieces = oracle.pieces();
    prove!(c.pieces == pieces);
    if !are_due(c.claim, c.parts.as_slice()) {
        return Err((c, CheckRefusal::ClaimNotMet));
    }
    match find_faulty_part(alloc, c.parts.as_slice(), oracle, &c.position) {
        Ok(None) => Ok(Proved { certificate: c }),
        Ok(Some((part, fault))) => Err((c, refusal_at(part, fault))),
        Err(error) => Err((c, CheckRefusal::Memory(error))),
    }
}
