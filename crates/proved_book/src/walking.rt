//! A walk along a strategy, from one position on.
ghost use Rattle.std.specs.Prelude.{◌≡◌, ◌<◌, ◌∷◌, [], ℕ, List, Option, Some, IfOk, OnOk, length, slice_get};
ghost use Rattle.draughts_board.specs.Board.{Board};
ghost use Rattle.strategy_certificate.specs.Certificates.{due_positions};
ghost use Rattle.proved_book.specs.Walking.{AreLegalChoices, ArePlacesLedTo, Notes};

use crate::strategy::Strategy;
use draughts_board::Position;
use draughts_rules::{apply, successors};
use indexmap::IndexSet;
use std::alloc::{AllocError, Global};

/// Notes the place of a position, where it has one.
fn note<S: Strategy>(part: &S, q: &Position, seen: &mut IndexSet<usize>) -> Result<(), AllocError>
    ensures { OnOk result (Notes (S.rows part.now) (q.now ∷ []) seen.old.keys seen.new.keys) }
{
    let Some(place) = part.place_of(q) else {
        return Ok(());
    };
    seen.insert(place)?;
    Ok(())
}

/// Notes the place of each of these positions.
fn note_all<S: Strategy>(
    part: &S,
    due: &[Position],
    seen: &mut IndexSet<usize>,
) -> Result<(), AllocError>
    ensures { OnOk result (Notes (S.rows part.now) due.now seen.old.keys seen.new.keys) }
{
    for q in due {
        note(part, q, seen)?;
    }
    Ok(())
}

/// Notes where the strategy goes on from this place: by the chosen move, or else by each successor.
fn note_due<S: Strategy>(
    alloc: Global,
    part: &S,
    place: usize,
    seen: &mut IndexSet<usize>,
) -> Result<(), AllocError>
    requires within { place < length (S.rows part.now) }
    requires legal { AreLegalChoices (S.rows part.now) }
    ensures { OnOk result ((q : Board) (chosen : Option (List ℕ))
        → slice_get (S.rows part.now) place ≡ Some (q, chosen)
        → Notes (S.rows part.now) (due_positions q chosen) seen.old.keys seen.new.keys) }
{
    let (q, chosen) = part.choice(place);
    match chosen {
        Some(path) => {
            let next = apply(&q, &path);
            note(part, &next, seen)
        }
        None => {
            let next = successors(alloc, &q)?;
            note_all(part, &next, seen)
        }
    }
}

/// The places to which the strategy leads from this position, rising. Each is looked at once.
pub(crate) fn places_led_to<S: Strategy>(
    alloc: Global,
    part: &S,
    p: &Position,
) -> Result<IndexSet<usize>, AllocError>
    requires { AreLegalChoices (S.rows part.now) }
    ensures { IfOk result (λ places. ArePlacesLedTo (S.rows part.now) p.now places.keys) }
{
    part.note_distinct();
    let mut seen = IndexSet::new(alloc);
    note(part, p, &mut seen)?;
    let mut done = 0;
    while done < seen.len() {
        let place = seen.as_slice()[done];
        note_due(alloc, part, place, &mut seen)?;
        done += 1;
    }
    seen.sort_unstable()?;
    Ok(seen)
}
