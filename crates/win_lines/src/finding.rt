//! A win that is looked for by proof numbers, as a strategy.
ghost use Rattle.std.specs.Prelude.{◌≡◌, IfOk, IfSome};
ghost use Rattle.strategy_certificate.specs.Claims.{HasShortRanks};
ghost use Rattle.strategy_certificate.specs.declared.certificates.Part.TheVariants as parts;

use crate::descent::Descent;
use crate::retrograde::WonLines;
use crate::win_parts::win_part;
use draughts_board::{Position, Side};
use std::alloc::{AllocError, Global};
use strategy_certificate::{Oracle, WinPart};

/// A strategy by which the side wins the position, with what it reaches alone, looked for in at most `most_lists` lists of
/// moves. None where none is found, or it would have more than `most_entries` entries, which tells nothing of the position.
///
/// It takes some 100 bytes for each list of moves.
pub fn find_win_part<O: Oracle>(
    alloc: Global,
    p: &Position,
    side: Side,
    most_lists: usize,
    most_entries: usize,
    oracle: &O,
) -> Result<Option<WinPart>, AllocError>
    ensures side { IfOk result (λ found. IfSome found (λ part. part.side ≡ side)) }
    ensures ranks { IfOk result (λ found. IfSome found (λ part. HasShortRanks (parts.Win part))) }
{
    let mut descent = Descent::new(alloc, side, oracle);
    descent.run(alloc, p, most_lists)?;
    if !descent.is_won(p) {
        return Ok(None);
    }
    let won = WonLines::below(alloc, p, &descent, oracle)?;
    win_part(alloc, &won, p, side, most_entries, oracle)
}
