//! Parts of many entries, merged.
ghost use Rattle.std.specs.Prelude.{◌≡◌, IfOk};

use std::alloc::{AllocError, Global};
use strategy_certificate::{HoldPart, WinPart, as_hold, merge_holds, merge_wins};

/// The entries of the part at these places, counted from 0: from the first to the one before the
/// second.
fn slice_of(alloc: Global, part: &WinPart, first: usize, end: usize) -> Result<WinPart, AllocError>
    ensures { IfOk result (λ slice. slice.side ≡ part.now.side) }
{
    let mut slice = WinPart::new(alloc, part.side())?;
    for i in first..end.min(part.len()) {
        let (p, entry) = part.entry(i);
        slice.add_new(p, entry)?;
    }
    Ok(slice)
}

/// The part, put together again of its first 60 and its last 60 in a hundred entries, and its hold
/// part likewise.
pub fn merged(alloc: Global, part: &WinPart) -> Result<(WinPart, HoldPart), AllocError>
    ensures wins { IfOk result (λ both. both.0.side ≡ part.now.side) }
    ensures holds { IfOk result (λ both. both.1.side ≡ part.now.side) }
{
    let hundredth = part.len() / 100;
    let mut wins = slice_of(alloc, part, 0, hundredth * 60)?;
    let others = slice_of(alloc, part, hundredth * 40, part.len())?;
    let mut holds = as_hold(alloc, &wins)?;
    merge_wins(alloc, &mut wins, &others)?;
    merge_holds(alloc, &mut holds, &as_hold(alloc, &others)?)?;
    Ok((wins, holds))
}
