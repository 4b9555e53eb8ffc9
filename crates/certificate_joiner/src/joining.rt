//! Parts joined from the steps of a strategy, from the last to the first.
ghost use Rattle.std.specs.Prelude.{◌≡◌, ℕ, ◌+◌, ◌≤◌, ◌^◌, List, [], Option, length, IfOk, OnOk};
ghost use Rattle.strategy_certificate.specs.declared.entries.TheConstants.{MOST_FOUND_RANK, MOST_RANK};
ghost use Rattle.strategy_certificate.specs.Laws.{merged_hold_list};
ghost use Rattle.proof_tree.specs.Sound.{IsSoundForest};
ghost use Rattle.certificate_joiner.specs.declared.steps.Aim.TheVariants.{Win, Hold};
ghost use Rattle.certificate_joiner.specs.Growing.{WinsAll, HoldsAllBut};
ghost use Rattle.certificate_joiner.specs.Steps.{ByEachTable, part_side, IsDistinctPart, IsUsable, HasOneMore, with_win, as_hold_list, JoinsWin, JoinsHold};
ghost use Rattle.certificate_joiner.specs.Strategy.{named, IsNamed, places, IsStrategy};

use crate::shelf::PartShelf;
use crate::stepping::step_at;
use crate::steps::{Aim, Quest, Reason, Step};
use draughts_board::{Move, Position, Side};
use proof_tree::{NodeId, Tree};
use std::alloc::{AllocError, Global};
use strategy_certificate::{
    HoldPart, MOST_FOUND_RANK, Part, WinEntry, WinPart, as_hold, merge_holds, merge_wins,
};

/// Merges in the part that shows a win.
fn merge_shown_win(alloc: Global, part: &mut WinPart, shown: &Part) -> Result<(), AllocError>
    requires { part_side shown.now ≡ part.old.side }
    ensures { OnOk result (part.new ≡ with_win part.old shown.now) }
{
    match shown {
        Part::Win(from) => merge_wins(alloc, part, from),
        Part::Hold(_) => Ok(()),
    }
}

/// Adds an entry where the position has none. The one that is there has a rank that is no greater.
fn add_won(
    part: &mut WinPart,
    p: Position,
    rank: u64,
    chosen: Option<Move>,
) -> Result<(), AllocError>
    requires { rank ≤ MOST_RANK }
    ensures added { OnOk result (HasOneMore part.old.entries
        (p, record { rank = rank; chosen = chosen }) part.new.entries) }
    ensures side { OnOk result (part.new.side ≡ part.old.side) }
{
    match part.find(&p) {
        Some(_there) => Ok(()),
        None => part.add(p, WinEntry { rank, chosen }),
    }
}

/// Takes one more step into a part that wins the positions of the later steps.
fn add_win(alloc: Global, part: &mut WinPart, step: &Step<'_>, rank: u64) -> Result<(), AllocError>
    requires rank { rank ≤ MOST_RANK }
    requires usable { IsUsable part.old.side step.now.reason }
    ensures side { OnOk result (part.new.side ≡ part.old.side) }
    ensures wins { OnOk result (JoinsWin part.old step.now rank part.new) }
{
    match step.reason {
        Reason::Shown(shown) => merge_shown_win(alloc, part, shown),
        Reason::Play(chosen) => add_won(part, step.position, rank, chosen),
        Reason::Table | Reason::Repeats => Ok(()),
    }
}

/// The part by which the side wins the positions of these nodes. Ranks are counted from the last node to the first.
pub(crate) fn join_wins(
    alloc: Global,
    tree: &Tree,
    shelf: &PartShelf,
    strategy: &[NodeId],
    side: Side,
    pieces: u8,
) -> Result<WinPart, AllocError>
    requires pieces { pieces ≤ 3 }
    requires sound { IsSoundForest tree.now.forest }
    requires strategy { IsStrategy pieces shelf.now.puts Win side
        (named tree.now.forest) (IsNamed tree.now.forest) strategy.now }
    requires few { length strategy.now ≤ 2 ^ 60 }
    ensures side { IfOk result (λ part. part.side ≡ side) }
    ensures wins { IfOk result (λ part. ByEachTable pieces (λ answer.
        WinsAll answer (MOST_FOUND_RANK + length strategy.now)
        (places (named tree.now.forest) strategy.now) part)) }
{
    let quest = Quest {
        aim: Aim::Win,
        side,
        pieces,
    };
    let mut part = WinPart::new(alloc, side)?;
    let mut rank = MOST_FOUND_RANK;
    let mut left = strategy.len();
    while left > 0 {
        left -= 1;
        rank += 1;
        match step_at(alloc, tree, shelf, strategy[left], quest) {
            Ok(step) => add_win(alloc, &mut part, &step, rank)?,
            Err(e) => return Err(e),
        }
    }
    Ok(part)
}

/// Merges in the part that shows a hold.
fn merge_shown_hold(alloc: Global, part: &mut HoldPart, shown: &Part) -> Result<(), AllocError>
    requires { part_side shown.now ≡ part.old.side }
    ensures { OnOk result (part.new ≡ merged_hold_list part.old (as_hold_list shown.now)) }
{
    match shown {
        Part::Win(from) => {
            let hold = as_hold(alloc, from)?;
            merge_holds(alloc, part, &hold)
        }
        Part::Hold(from) => merge_holds(alloc, part, from),
    }
}

/// Adds an entry where the position has none.
fn add_held(part: &mut HoldPart, p: Position, chosen: Option<Move>) -> Result<(), AllocError>
    ensures added { OnOk result (HasOneMore part.old.entries (p, chosen) part.new.entries) }
    ensures side { OnOk result (part.new.side ≡ part.old.side) }
{
    match part.find(&p) {
        Some(_there) => Ok(()),
        None => part.add(p, chosen),
    }
}

/// Takes one more step into a part that holds the positions of the later steps.
fn add_hold(alloc: Global, part: &mut HoldPart, step: &Step<'_>) -> Result<(), AllocError>
    requires { IsUsable part.old.side step.now.reason }
    ensures side { OnOk result (part.new.side ≡ part.old.side) }
    ensures holds { OnOk result (JoinsHold part.old step.now part.new) }
{
    match step.reason {
        Reason::Shown(shown) => merge_shown_hold(alloc, part, shown),
        Reason::Play(chosen) => add_held(part, step.position, chosen),
        Reason::Table | Reason::Repeats => Ok(()),
    }
}

/// The part by which the side holds the positions of these nodes.
pub(crate) fn join_holds(
    alloc: Global,
    tree: &Tree,
    shelf: &PartShelf,
    strategy: &[NodeId],
    side: Side,
    pieces: u8,
) -> Result<HoldPart, AllocError>
    requires pieces { pieces ≤ 3 }
    requires sound { IsSoundForest tree.now.forest }
    requires strategy { IsStrategy pieces shelf.now.puts Hold side
        (named tree.now.forest) (IsNamed tree.now.forest) strategy.now }
    ensures side { IfOk result (λ part. part.side ≡ side) }
    ensures holds { IfOk result (λ part. ByEachTable pieces (λ answer.
        HoldsAllBut answer [] (places (named tree.now.forest) strategy.now) part)) }
{
    let quest = Quest {
        aim: Aim::Hold,
        side,
        pieces,
    };
    let mut part = HoldPart::new(alloc, side)?;
    let mut left = strategy.len();
    while left > 0 {
        left -= 1;
        match step_at(alloc, tree, shelf, strategy[left], quest) {
            Ok(step) => add_hold(alloc, &mut part, &step)?,
            Err(e) => return Err(e),
        }
    }
    Ok(part)
}
