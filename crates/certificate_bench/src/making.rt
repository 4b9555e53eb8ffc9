//! A certificate made out of the endgame table of three pieces.
ghost use Rattle.std.specs.Prelude.{◌≡◌, ◌<◌, ◌≤◌, ◌↔◌, ℕ, All, IfOk, IfSome, vec_len};
ghost use Rattle.draughts_board.specs.Rules.{IsLegal};
ghost use Rattle.endgame_table.specs.Entries.{answers};
ghost use Rattle.table_index.specs.Order.{entry_count};
ghost use Rattle.certificate_bench.specs.Wins.{IsWonByTable};
ghost use Rattle.bench_records.specs.Texts.{IsShown};
ghost use Rattle.strategy_certificate.specs.Claims.{HasShortRanks};
ghost use Rattle.strategy_certificate.specs.declared.entries.TheConstants.{MOST_FOUND_RANK};
ghost use Rattle.strategy_certificate.specs.declared.certificates.Part.TheVariants as parts;
ghost use Rattle.strategy_certificate.specs.declared.claims.Claim.TheVariants as claim;

use anyhow::{Context, Result};
use draughts_board::{Move, Position, Side};
use draughts_rules::{apply, legal_moves};
use endgame_table::Table;
use std::alloc::{AllocError, Global};
use strategy_certificate::{Answer, Certificate, Claim, Part, PartList, WinEntry, WinPart};
use table_index::position_at;

/// The rank at which the table shows that White wins.
fn white_rank(table: &Table, p: &Position) -> Option<u32>
    ensures { (r : ℕ) → (result ≡ Some r)
        ↔ IsWonByTable (answers table.now.pieces table.now.numbers) (r, p.now) }
{
    match (p.to_move(), table.probe(p)) {
        (Side::White, Some(Answer::Win(rank))) => Some(rank),
        (Side::Black, Some(Answer::Loss(rank))) => Some(rank),
        _ => None,
    }
}

/// The position at this index, with its rank, where White wins it and both sides have pieces.
fn won_position(table: &Table, index: u32) -> Option<(u32, Position)>
    requires { index < entry_count 3 }
    ensures { IfSome result (IsWonByTable (answers table.now.pieces table.now.numbers)) }
{
    let p = position_at(index)?;
    if p.count(Side::Black) == 0 || p.count(Side::White) == 0 {
        return None;
    }
    let rank = white_rank(table, &p)?;
    Some((rank, p))
}

/// The positions of three pieces, of both sides, that White wins, with their ranks: the first
/// `count` in rising rank, those of one rank in the order of their indices.
fn won_positions(
    alloc: Global,
    table: &Table,
    count: usize,
) -> Result<Vec<(u32, Position)>, AllocError>
    ensures won { IfOk result (λ won.
        All (IsWonByTable (answers table.now.pieces table.now.numbers)) won.items) }
    ensures count { IfOk result (λ won. vec_len won ≤ count) }
{
    let mut won = Vec::new(alloc);
    for index in table_index::entry_count(2)..table_index::entry_count(3) {
        if let Some(row) = won_position(table, index) {
            won.push(row)?;
        }
    }
    won.sort_by_key(|row| row.0)?;
    won.truncate(count);
    Ok(won)
}

/// Where White moves, the first legal move to a position that the table shows as won for White at a
/// lower rank.
fn chosen_move(
    alloc: Global,
    table: &Table,
    rank: u32,
    p: &Position,
) -> Result<Option<Move>, AllocError>
    ensures { IfOk result (λ chosen. IfSome chosen (IsLegal p.now)) }
{
    if p.to_move() == Side::Black {
        return Ok(None);
    }
    for m in &legal_moves(alloc, p)? {
        if white_rank(table, &apply(p, m)).is_some_and(|next| next < rank) {
            return Ok(Some(*m));
        }
    }
    Ok(None)
}

/// The entry of this rank, with this move.
pub fn win_entry(rank: u32, chosen: Option<Move>) -> WinEntry
    ensures { result.rank ≤ MOST_FOUND_RANK }
{
    WinEntry {
        rank: u64::from(rank),
        chosen,
    }
}

/// The win part of White with an entry for each of these positions.
fn win_part(alloc: Global, table: &Table, won: &[(u32, Position)]) -> Result<WinPart, AllocError>
    ensures side { IfOk result (λ part. part.side ≡ Side.White) }
    ensures ranks { IfOk result (λ part. HasShortRanks (parts.Win part)) }
{
    let mut part = WinPart::new(alloc, Side::White)?;
    for (rank, p) in won {
        let chosen = chosen_move(alloc, table, *rank, p)?;
        part.add_new(*p, win_entry(*rank, chosen))?;
    }
    Ok(part)
}

/// A certificate that White wins a position of three pieces, made out of the table of three and
/// leaning on that of two.
///
/// It has `count` entries, or fewer where the table shows no more. Refused where it shows none, and
/// for want of memory.
pub fn make_certificate(alloc: Global, table: &Table, count: usize) -> Result<Certificate>
    ensures pieces { IfOk result (λ c. c.pieces ≡ 2) }
    ensures claim { IfOk result (λ c. c.claim ≡ claim.Win Side.White) }
    ensures shown { IfOk result (λ c. IsShown 2 c.position c) }
{
    let won = won_positions(alloc, table, count)?;
    let (_, position) = won.last().context("no position that White wins")?;
    let part = win_part(alloc, table, &won)?;
    Ok(Certificate {
        position: *position,
        claim: Claim::Win(Side::White),
        pieces: 2,
        parts: PartList::from_vec(vec![in alloc; Part::Win(part)]?),
    })
}

/// How many entries the parts have together.
pub fn entry_count(c: &Certificate) -> usize {
    let mut entries = 0_usize;
    for part in c.parts.as_slice() {
        let more = match part {
            Part::Win(part) => part.len(),
            Part::Hold(part) => part.len(),
        };
        entries = entries.saturating_add(more);
    }
    entries
}
