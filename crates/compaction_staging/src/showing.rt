//! Certificates of a settled root, as a record shows them.
ghost use Rattle.std.specs.Prelude.{◌≡◌, ◌≤◌, ◌∷◌, [], ℕ, All, Option, IfOk};
ghost use Rattle.draughts_board.specs.Board.{Board};
ghost use Rattle.draughts_board.specs.Draughts.{draughts};
ghost use Rattle.draughts_board.specs.declared.pieces.Value.{Value};
ghost use Rattle.strategy_certificate.specs.declared.oracle.Answer.{Answer};
ghost use Rattle.strategy_certificate.specs.Tables.{IsSoundTable};
ghost use Rattle.strategy_certificate.specs.Certificates.{claim_of};
ghost use Rattle.proof_numbers.specs.Known.{value_known};
ghost use Rattle.certificate_checker.specs.Told.{facts_shown};
ghost use Rattle.certificate_joiner.specs.Certified.{IsJoined, IsShelved, claim_for};
ghost use Rattle.bench_records.specs.declared.records.BenchRecord.TheVariants as records;
ghost use Rattle.bench_records.specs.Texts.{ShowsEnough};
ghost use Rattle.strategy_certificate.specs.declared.certificates.Part.{Part as Model};
ghost use Rattle.compaction_staging.specs.Shown.{IsShortPart, ShowsValue, of_part};

use bench_records::CertificateList;
use draughts_board::Position;
use std::alloc::{AllocError, Global};
use strategy_certificate::{Certificate, Part, PartList, short_ranks};

/// The same part, with short ranks.
fn short_part(alloc: Global, part: Part) -> Result<Part, AllocError>
    ensures { IfOk result (IsShortPart part) }
{
    match part {
        Part::Win(win) => {
            let short = short_ranks(alloc, &win)?;
            Ok(Part::Win(short))
        }
        Part::Hold(hold) => Ok(Part::Hold(hold)),
    }
}

/// A certificate of this one part.
fn certificate_of(
    alloc: Global,
    position: Position,
    pieces: u8,
    part: Part,
) -> Result<Certificate, AllocError>
    ensures { IfOk result (λ c. c ≡ record {
      position = position;
      claim = claim_of part;
      pieces = pieces;
      parts = part ∷ [];
    }) }
{
    let claim = part.claim();
    let mut parts = Vec::with_capacity(alloc, 1)?;
    parts.push(part)?;
    Ok(Certificate {
        position,
        claim,
        pieces,
        parts: PartList::from_vec(parts),
    })
}

/// One certificate, of this part with short ranks.
fn one_shown(
    alloc: Global,
    position: Position,
    pieces: u8,
    part: Part,
) -> Result<CertificateList, AllocError>
    ensures { IfOk result (λ shown. (short : Model) × (IsShortPart part short
        × (shown ≡ of_part position pieces short ∷ []))) }
{
    let short = short_part(alloc, part)?;
    let one = certificate_of(alloc, position, pieces, short)?;
    let mut shown = Vec::with_capacity(alloc, 1)?;
    shown.push(one)?;
    Ok(CertificateList::from_vec(shown))
}

/// Two certificates, of these parts with short ranks.
fn two_shown(
    alloc: Global,
    position: Position,
    pieces: u8,
    first: Part,
    second: Part,
) -> Result<CertificateList, AllocError>
    ensures { IfOk result (λ shown. (a : Model) × ((b : Model) × (IsShortPart first a
        × (IsShortPart second b
        × (shown ≡ of_part position pieces a ∷ of_part position pieces b ∷ []))))) }
{
    let first = short_part(alloc, first)?;
    let second = short_part(alloc, second)?;
    let one = certificate_of(alloc, position, pieces, first)?;
    let other = certificate_of(alloc, position, pieces, second)?;
    let mut shown = Vec::with_capacity(alloc, 2)?;
    shown.push(one)?;
    shown.push(other)?;
    Ok(CertificateList::from_vec(shown))
}

/// Certificates of the parts of a joined one, with short ranks.
pub(crate) fn shown_by(alloc: Global, c: Certificate) -> Result<CertificateList, AllocError>
    requires { (k : ℕ) × ((k ≤ 3) × ((p : Board) × ((v : Value) × (IsJoined k p (claim_for v) c
        × ((answer : Board → Option Answer) × IsSoundTable draughts k answer))))) }
    ensures { IfOk result (λ shown. (k : ℕ) (p : Board) (v : Value) → k ≤ 3 →
        (answer : Board → Option Answer) → IsSoundTable draughts k answer →
        IsJoined k p (claim_for v) c → ShowsValue k p v shown) }
{
    let position = c.position;
    let pieces = c.pieces;
    let mut parts = c.parts.into_vec();
    let Some(last) = parts.pop() else {
        unreachable!()
    };
    match parts.pop() {
        None => one_shown(alloc, position, pieces, last),
        Some(first) => two_shown(alloc, position, pieces, first, last),
    }
}
