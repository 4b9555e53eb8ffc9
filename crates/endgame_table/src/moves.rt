//! The moves of a table, by index: where they come from, how many there are at each index, and where there is none.
ghost use Rattle.std.specs.Prelude.{◌≡◌, ◌<◌, ◌≤◌, ℕ, ◌++◌, ◌∷◌, ◌==◌, [], All, IfOk, OnOk, length, map, if◌then◌else◌};
ghost use Rattle.draughts_board.specs.Board.{piece_count};
ghost use Rattle.table_index.specs.Order.{entry_count, index_of, position_at};
ghost use Rattle.strategy_certificate.specs.Tables.{IsTableSize};
ghost use Rattle.endgame_table.specs.Origins.{AreOrigins, AddsOrigins};
ghost use Rattle.endgame_table.specs.Rounds.{IsBegun};
ghost use Rattle.endgame_table.specs.Rows.{moves_of, indices_after, begun_number};

use crate::numbers::NO_POSITION;
use crate::origins::{MOST_LINKS, Origins};
use draughts_board::Position;
use std::alloc::{AllocError, Global};
use swift_moves::successors_into;
use table_index::{PositionWalk, entry_count, index_of};

/// The number of a loss of rank 0: there is no move.
const LOST_AT_ONCE: u32 = 1;

/// What the rounds begin with.
#[derive(Drop)]
pub(crate) struct Moves {
    /// Where the moves come from.
    pub(crate) origins: Origins,
    /// For how many targets each index waits.
    pub(crate) waiting: Vec<u32>,
    /// The number of each index: that of no position, a loss of rank 0 where there is no move, and else 0.
    pub(crate) numbers: Vec<u32>,
    /// The indices without a move.
    pub(crate) lost: Vec<u32>,
}

/// Puts the index in front of the origins of each of these positions' indices.
fn add_origins(origins: &mut Origins, index: u32, next: &[Position]) -> Result<(), AllocError>
    requires few { All (λ p. piece_count p ≤ 3) next.now }
    requires inside { All (λ p. index_of p < length origins.old.heads.items) next.now }
    requires room { length origins.old.links.items ≤ MOST_LINKS }
    requires index { index < length origins.old.heads.items }
    requires origins { AreOrigins origins.old (length origins.old.heads.items) }
    ensures adds { OnOk result (AddsOrigins index (map index_of next.now) origins.old origins.new) }
    ensures room { OnOk result (length origins.new.links.items ≤ MOST_LINKS) }
    ensures origins { OnOk result (AreOrigins origins.new (length origins.old.heads.items)) }
{
    for p in next {
        origins.add(index_of(p), index)?;
    }
    Ok(())
}

/// Puts the index in front of the origins of each index that its moves lead to. Gives how many these are, and its number
/// before the first round. The positions are put in place of what `next` held.
fn add_moves(
    alloc: Global,
    index: u32,
    walk: &mut PositionWalk,
    origins: &mut Origins,
    next: &mut Vec<Position>,
) -> Result<(u32, u32), AllocError>
    requires table { (k : ℕ) × (IsTableSize k × (length origins.old.heads.items ≡ entry_count k)) }
    requires index { index < length origins.old.heads.items }
    requires room { length origins.old.links.items ≤ MOST_LINKS }
    requires origins { AreOrigins origins.old (length origins.old.heads.items) }
    ensures adds { OnOk result
        (AddsOrigins index (indices_after (position_at index)) origins.old origins.new) }
    ensures room { OnOk result (length origins.new.links.items ≤ MOST_LINKS) }
    ensures origins { OnOk result (AreOrigins origins.new (length origins.old.heads.items)) }
    ensures count { IfOk result (λ found. found.0 ≡ length (indices_after (position_at index))) }
    ensures number { IfOk result (λ found. found.1 ≡ begun_number (position_at index)) }
{
    let Some(p) = walk.position_at(index) else {
        return Ok((0, NO_POSITION));
    };
    successors_into(alloc, &p, next)?;
    let before = origins.links.len();
    add_origins(origins, index, next.as_slice())?;
    let count = (origins.links.len() - before) as u32;
    let number = if count == 0 { LOST_AT_ONCE } else { 0 };
    Ok((count, number))
}

/// Puts the index behind those lost, if this is the number of a loss of rank 0.
fn add_lost(index: u32, number: u32, lost: &mut Vec<u32>) -> Result<(), AllocError>
    ensures { OnOk result (lost.new.items
        ≡ lost.old.items ++ (if number == LOST_AT_ONCE then index ∷ [] else [])) }
{
    if number == LOST_AT_ONCE {
        lost.push(index)?;
    }
    Ok(())
}

/// The moves of a table of `pieces` pieces.
pub(crate) fn list_moves(alloc: Global, pieces: u8) -> Result<Moves, AllocError>
    requires { IsTableSize pieces }
    ensures { IfOk result (λ m. let listing = moves_of (entry_count pieces) in
        IsBegun listing.rows listing.first m.origins m.waiting.items m.numbers.items m.lost.items) }
{
    let count = entry_count(pieces);
    let mut origins = Origins::none(alloc, count as usize)?;
    let mut waiting = Vec::new(alloc);
    let mut numbers = Vec::new(alloc);
    let mut lost = Vec::new(alloc);
    let mut next = Vec::new(alloc);
    let mut walk = PositionWalk::new();
    for index in 0..count {
        let (targets, number) = add_moves(alloc, index, &mut walk, &mut origins, &mut next)?;
        waiting.push(targets)?;
        numbers.push(number)?;
        add_lost(index, number, &mut lost)?;
    }
    Ok(Moves {
        origins,
        waiting,
        numbers,
        lost,
    })
}
