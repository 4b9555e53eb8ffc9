//! Parts that were found in some way, given to the checker.
ghost use Rattle.std.specs.Prelude.{◌≡◌, ◌≤◌, IfOk, IfSome, IsSome};
ghost use Rattle.strategy_certificate.specs.Claims.{HasShortRanks, IsOfOnePart};
ghost use Rattle.leaf_search.specs.Search.{Proves, entry_count};

use certificate_checker::{CheckRefusal, Proved, check};
use draughts_board::Position;
use std::alloc::{AllocError, Global};
use strategy_certificate::{Certificate, Claim, Oracle, Part, PartList};

/// How many entries the part has.
fn entry_count(part: &Part) -> usize
    ensures { result ≡ entry_count part.now }
{
    match part {
        Part::Win(part) => part.len(),
        Part::Hold(part) => part.len(),
    }
}

/// The certificate of this claim with this one part, where the part has at most `most` entries and the checker accepts it.
pub(crate) fn accept<O: Oracle>(
    alloc: Global,
    p: &Position,
    claim: Claim,
    part: Part,
    most: usize,
    oracle: &O,
) -> Result<Option<Proved>, AllocError>
    requires claim { IsOfOnePart claim }
    requires ranks { HasShortRanks part }
    ensures proves { IfOk result (λ found. IfSome found
        (Proves (O.piece_limit oracle.now) p.now claim)) }
    ensures few { IfOk result (λ found. IsSome found → entry_count part ≤ most) }
{
    if entry_count(&part) > most {
        return Ok(None);
    }
    let mut parts = Vec::new(alloc);
    parts.push(part)?;
    let certificate = Certificate {
        position: *p,
        claim,
        pieces: oracle.pieces(),
        parts: PartList::from_vec(parts),
    };
    match check(alloc, certificate, oracle) {
        Ok(proved) => Ok(Some(proved)),
        Err((_, CheckRefusal::Memory(error))) => Err(error),
        Err(_) => Ok(None),
    }
}
