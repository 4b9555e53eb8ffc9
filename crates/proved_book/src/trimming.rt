//! A strategy trimmed to what is reached from one position.
ghost use Rattle.std.specs.Prelude.{IfOk, map};
ghost use Rattle.strategy_certificate.specs.Parts.{without_rank};
ghost use Rattle.proved_book.specs.Trimming.{IsTrimmedWin, IsTrimmedHold};
ghost use Rattle.proved_book.specs.Walking.{AreLegalChoices};

use crate::walking::places_led_to;
use draughts_board::Position;
use std::alloc::{AllocError, Global};
use strategy_certificate::{HoldPart, WinPart};

/// The entries of a win part to which entries lead from this position, in the part's order.
pub fn trim_wins(alloc: Global, part: &WinPart, p: &Position) -> Result<WinPart, AllocError>
    requires { AreLegalChoices (map without_rank part.now.entries) }
    ensures { IfOk result (IsTrimmedWin part.now p.now) }
{
    let places = places_led_to(alloc, part, p)?;
    let mut kept = WinPart::new(alloc, part.side())?;
    for place in places.as_slice() {
        let (q, e) = part.entry(*place);
        kept.add(q, e)?;
    }
    Ok(kept)
}

/// The entries of a hold part to which entries lead from this position, in the part's order.
pub fn trim_holds(alloc: Global, part: &HoldPart, p: &Position) -> Result<HoldPart, AllocError>
    requires { AreLegalChoices part.now.entries }
    ensures { IfOk result (IsTrimmedHold part.now p.now) }
{
    let places = places_led_to(alloc, part, p)?;
    let mut kept = HoldPart::new(alloc, part.side())?;
    for place in places.as_slice() {
        let (q, chosen) = part.entry(*place);
        kept.add(q, chosen)?;
    }
    Ok(kept)
}
