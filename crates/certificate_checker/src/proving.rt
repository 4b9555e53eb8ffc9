//! Certificates that are known to be good, checked.
ghost use Rattle.std.specs.Prelude.{◌≡◌, IfOk, OnOk, true};
ghost use Rattle.strategy_certificate.specs.Certificates.{IsGoodBy, IsGoodPart, IsTrueOf, claim_of};
ghost use Rattle.certificate_checker.specs.OneParts.{with_part};
ghost use Rattle.certificate_checker.specs.Refusals.{check_wants_memory};

use crate::checking::{Proved, check};
use crate::refusals::CheckRefusal;
use draughts_board::Position;
use std::alloc::{AllocError, Global};
use strategy_certificate::{Certificate, Oracle, Part, PartList};

/// The want of memory that a refusal is.
fn memory_of(refusal: &CheckRefusal) -> AllocError
    requires { check_wants_memory refusal.now ≡ true }
{
    match refusal {
        CheckRefusal::Memory(error) => *error,
        _ => unreachable!(),
    }
}

/// A certificate that is good by the oracle's answers, checked. It fails only for want of memory.
pub fn prove<O: Oracle>(
    alloc: Global,
    certificate: Certificate,
    oracle: &O,
) -> Result<Proved, AllocError>
    requires good { IsGoodBy (O.answer_at oracle.now) certificate }
    requires pieces { certificate.pieces ≡ O.piece_limit oracle.now }
    ensures same { IfOk result (λ proved. proved ≡ certificate) }
    ensures claim { OnOk result (IsTrueOf certificate.claim certificate.position) }
{
    match check(alloc, certificate, oracle) {
        Ok(proved) => Ok(proved),
        Err(refused) => Err(memory_of(&refused.1)),
    }
}

/// The certificate about the position with this one part, which is good by the oracle's answers,
/// checked. It fails only for want of memory.
pub fn prove_part<O: Oracle>(
    alloc: Global,
    p: &Position,
    part: Part,
    oracle: &O,
) -> Result<Proved, AllocError>
    requires good { IsGoodPart (O.answer_at oracle.now) p.now part }
    ensures whole { IfOk result
        (λ proved. proved ≡ with_part (O.piece_limit oracle.now) p.now part) }
    ensures claim { IfOk result (λ proved. IsTrueOf (claim_of part) p.now) }
{
    let claim = part.claim();
    let mut parts = Vec::new(alloc);
    parts.push(part)?;
    let certificate = Certificate {
        position: *p,
        claim,
        pieces: oracle.pieces(),
        parts: PartList::from_vec(parts),
    };
    prove(alloc, certificate, oracle)
}
