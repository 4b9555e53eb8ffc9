//! How a certificate is recorded: one for each part, with ranks that a journal keeps.
ghost use Rattle.std.specs.Prelude.{◌≡◌, IfOk};
ghost use Rattle.certificate_checker.specs.OneParts.{with_part};
ghost use Rattle.journal_lessons.specs.Lessons.{IsRecordedAs, IsRecordedPart};

use bench_records::CertificateList;
use draughts_board::Position;
use std::alloc::{AllocError, Global};
use strategy_certificate::{Certificate, Part, PartList, has_short_ranks, short_ranks};

/// The part as it is recorded.
fn recorded_part(alloc: Global, part: Part) -> Result<Part, AllocError>
    ensures { IfOk result (IsRecordedPart part) }
{
    if has_short_ranks(&part) {
        return Ok(part);
    }
    match part {
        Part::Win(wins) => Ok(Part::Win(short_ranks(alloc, &wins)?)),
        Part::Hold(holds) => Ok(Part::Hold(holds)),
    }
}

/// The certificate of one part.
fn alone(
    alloc: Global,
    position: Position,
    pieces: u8,
    part: Part,
) -> Result<Certificate, AllocError>
    ensures { IfOk result (λ c. c ≡ with_part pieces position part) }
{
    let claim = part.claim();
    let parts = PartList::from_vec(vec![in alloc; part]?);
    Ok(Certificate {
        position,
        claim,
        pieces,
        parts,
    })
}

/// The certificates that are recorded, one for each part, in order: of a draw one for each hold.
pub(crate) fn recorded_as(alloc: Global, c: Certificate) -> Result<CertificateList, AllocError>
    ensures { IfOk result (IsRecordedAs c) }
{
    let Certificate {
        position,
        pieces,
        parts,
        ..
    } = c;
    let mut shown = Vec::new(alloc);
    for part in parts.into_vec() {
        let kept = recorded_part(alloc, part)?;
        let certificate = alone(alloc, position, pieces, kept)?;
        shown.push(certificate)?;
    }
    Ok(CertificateList::from_vec(shown))
}
