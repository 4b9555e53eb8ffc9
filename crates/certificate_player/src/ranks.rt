//! The rank that a player keeps of a position.
ghost use Rattle.std.specs.Prelude.{◌≡◌, ◌↔◌, ◌<◌, ◌⊎◌, ℕ, Some};
ghost use Rattle.draughts_board.specs.Draughts.{draughts};
ghost use Rattle.strategy_certificate.specs.Certificates.{HasRoot};
ghost use Rattle.strategy_certificate.specs.Tables.{TableWins};
ghost use Rattle.certificate_player.specs.Choices.{GoesOnAt, HasRankBelow, IsFirstRank, IsNextRank};
ghost use Rattle.certificate_player.specs.Plays.{Follows, RankFalls};

use draughts_board::Position;
use strategy_certificate::{Oracle, Part, WinPart, table_rank};

/// The rank of a position from which the part goes on: its entry's, or the table's where it has no
/// entry. A hold part gives none.
pub fn first_rank<O: Oracle>(part: &Part, oracle: &O, p: &Position) -> Option<u64>
    requires { HasRoot part.now (O.answer_at oracle.now) p.now }
    ensures first { IsFirstRank (O.answer_at oracle.now) p.now part.now result }
    ensures follows { Follows (O.answer_at oracle.now) p.now result part.now }
{
    let Part::Win(part) = part else {
        return None;
    };
    match part.find(p) {
        Some(entry) => Some(entry.rank),
        None => table_rank(oracle, part.side(), p),
    }
}

/// The rank of a position: that of its entry, where it is below the bound, and else the table's.
fn rank_below<O: Oracle>(part: &WinPart, oracle: &O, p: &Position, bound: u64) -> Option<u64>
    ensures { (m : ℕ) → (result ≡ Some m) ↔ (HasRankBelow part.now bound p.now m
        ⊎ (((n : ℕ) → ¬ HasRankBelow part.now bound p.now n)
        × TableWins draughts (O.answer_at oracle.now) part.now.side m p.now)) }
{
    if let Some(entry) = part.find(p) {
        if entry.rank < bound {
            return Some(entry.rank);
        }
    }
    table_rank(oracle, part.side(), p)
}

/// The rank of a position behind a move, where `before` was kept. A hold part gives none.
pub fn next_rank<O: Oracle>(
    part: &Part,
    oracle: &O,
    p: &Position,
    before: Option<u64>,
) -> Option<u64>
    requires { GoesOnAt (O.answer_at oracle.now) p.now before part.now }
    ensures next { IsNextRank (O.answer_at oracle.now) p.now before part.now result }
    ensures follows { Follows (O.answer_at oracle.now) p.now result part.now }
    ensures falls { RankFalls before result }
{
    match (part, before) {
        (Part::Win(part), Some(bound)) => rank_below(part, oracle, p, bound),
        _ => None,
    }
}
