//! The rounds in which indices are decided, backwards from lost ones. Nothing here is about draughts.
//!
//! A round goes back from the losses of its rank to the indices with a move to one of them, which are wins of the rank
//! above it, and from those wins on to the undecided indices whose last target that was not won was one of them: the
//! losses of the rank above that. So losses have even ranks and wins odd ones, and a round touches only what the round
//! before it decided.
ghost use Rattle.std.specs.Prelude.{◌≡◌, ◌<◌, ◌≤◌, ◌*◌, ◌+◌, [], ℕ, List, All, OnOk, length, flat_map, map, slice_index};
ghost use Rattle.endgame_table.specs.Numbers.{no_position, AreBelow};
ghost use Rattle.endgame_table.specs.Origins.{origins_at, AreOrigins};
ghost use Rattle.endgame_table.specs.Marking.{times, Marks, MarksLast};
ghost use Rattle.endgame_table.specs.Rounds.{win, loss, IsBegun, IsFilled};
ghost use Rattle.endgame_table.specs.Rows.{Listing};

use crate::marking::{mark_last_origins, mark_origins};
use crate::origins::Origins;
use std::alloc::{AllocError, Global};

/// Gives the number of a win of this rank to each undecided index with a move to one of the lost ones, and puts it behind
/// those won.
fn find_wins(
    origins: &Origins,
    lost: &[u32],
    rank: u32,
    numbers: &mut [u32],
    won: &mut Vec<u32>,
) -> Result<(), AllocError>
    requires origins { AreOrigins origins.now (length numbers.old) }
    requires lost { All (λ t. t < length numbers.old) lost.now }
    requires fits { win rank < no_position }
    ensures { OnOk result
        (Marks (win rank) (flat_map (origins_at origins.now) lost.now) numbers.old numbers.new
        won.old.items won.new.items) }
{
    for target in lost {
        let first = origins.heads[*target as usize];
        mark_origins(&origins.links, first, 2 * rank + 2, numbers, won)?;
    }
    Ok(())
}

/// Gives the number of a loss of this rank to each undecided index that waited for these won ones alone, and puts it
/// behind those lost.
fn find_losses(
    origins: &Origins,
    won: &[u32],
    rank: u32,
    waiting: &mut [u32],
    numbers: &mut [u32],
    lost: &mut Vec<u32>,
) -> Result<(), AllocError>
    requires origins { AreOrigins origins.now (length numbers.old) }
    requires won { All (λ t. t < length numbers.old) won.now }
    requires same { length waiting.old ≡ length numbers.old }
    requires enough { (i : ℕ)
        → times i (flat_map (origins_at origins.now) won.now) ≤ slice_index waiting.old i }
    requires fits { win rank < no_position }
    ensures { OnOk result
        (MarksLast (loss rank) (flat_map (origins_at origins.now) won.now) waiting.old waiting.new
        numbers.old numbers.new lost.old.items lost.new.items) }
{
    for target in won {
        let first = origins.heads[*target as usize];
        mark_last_origins(&origins.links, first, 2 * rank + 1, waiting, numbers, lost)?;
    }
    Ok(())
}

/// Plays rounds until one finds no loss. Begins with the losses of rank 0, which are decided already and stand in `lost`.
pub(crate) fn run_rounds(
    alloc: Global,
    origins: &Origins,
    mut lost: Vec<u32>,
    waiting: &mut [u32],
    numbers: &mut [u32],
) -> Result<(), AllocError>
    ghost moves: { Listing }
    requires begun { IsBegun moves.rows moves.first origins.now waiting.old numbers.old lost.items }
    requires few { 4 * length moves.rows + 4 < no_position }
    ensures filled { OnOk result (IsFilled moves.rows moves.first numbers.new) }
    ensures small { OnOk result (AreBelow (4 * length moves.rows + 4) numbers.new) }
{
    let mut won = Vec::new(alloc);
    let mut rank = 0;
    while !lost.is_empty() {
        won.clear();
        find_wins(origins, &lost, rank + 1, numbers, &mut won)?;
        lost.clear();
        find_losses(origins, &won, rank + 2, waiting, numbers, &mut lost)?;
        rank += 2;
    }
    Ok(())
}
