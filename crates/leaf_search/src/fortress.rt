//! Closed sets that are grown beyond the depth of a search, from their front. Nothing is promised of how they are looked
//! for: the checker says whether a set is a hold part.
ghost use Rattle.std.specs.Prelude.{◌≡◌, IfOk, IfSome};
ghost use Rattle.strategy_certificate.specs.declared.claims.Claim.TheVariants as claim;
ghost use Rattle.leaf_search.specs.Search.{Proves};

mod choice;
mod growth;

use crate::checked::accept;
use crate::fortress::choice::{CORNER_WEIGHTS, KNOWING_CORNER_WEIGHT};
use crate::fortress::growth::{Growing, Growth};
use certificate_checker::Proved;
use draughts_board::{Position, Side};
use endgame_slices::Slices;
use std::alloc::{AllocError, Global};
use strategy_certificate::{Claim, Oracle, Part};

/// A set of fewer positions is not begun anew: one larger set finds more for the same work.
const WORTH_ANOTHER: usize = 4_000;

/// A certificate that the side holds the position, by a closed set that is found among at most `most` positions, in one of
/// a few attempts. None where none is found, which tells nothing of the position.
pub fn prove_fortress<O: Oracle>(
    alloc: Global,
    p: &Position,
    side: Side,
    most: usize,
    oracle: &O,
) -> Result<Option<Proved>, AllocError>
    ensures { IfOk result (λ found. IfSome found
        (Proves (O.piece_limit oracle.now) p.now (claim.Hold side))) }
{
    for corner_weight in &CORNER_WEIGHTS {
        let mut growth = Growth::new(alloc, side, *corner_weight, None);
        growth.demand(p)?;
        match growth.close(alloc, most, oracle)? {
            Growing::Closed => {
                let part = growth.part(alloc, oracle)?;
                return accept(alloc, p, Claim::Hold(side), Part::Hold(part), most, oracle);
            }
            Growing::Refuted => return Ok(None),
            Growing::GivenUp => {
                if most < WORTH_ANOTHER {
                    return Ok(None);
                }
            }
        }
    }
    Ok(None)
}

/// A certificate that the side holds the position, by a closed set of at most `most` positions that the other side was not
/// found to win. None where none is found, which tells nothing of the position.
pub(crate) fn prove_knowing<O: Oracle>(
    alloc: Global,
    p: &Position,
    side: Side,
    slices: &Slices,
    most: usize,
    oracle: &O,
) -> Result<Option<Proved>, AllocError>
    ensures { IfOk result (λ found. IfSome found
        (Proves (O.piece_limit oracle.now) p.now (claim.Hold side))) }
{
    let mut growth = Growth::new(alloc, side, KNOWING_CORNER_WEIGHT, Some(slices));
    growth.demand(p)?;
    if growth.close(alloc, most, oracle)? != Growing::Closed {
        return Ok(None);
    }
    let part = growth.part(alloc, oracle)?;
    accept(alloc, p, Claim::Hold(side), Part::Hold(part), most, oracle)
}
