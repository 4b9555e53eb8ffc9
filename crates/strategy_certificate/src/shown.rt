//! What an endgame table shows of a position, whoever is to move, alone or beside a hold part.
ghost use Rattle.std.specs.Prelude.{◌≡◌, ◌↔◌, ◌<◌, ◌^◌, ℕ, IfSome, IsTrue};
ghost use Rattle.draughts_board.specs.Draughts.{draughts};
ghost use Rattle.strategy_certificate.specs.Tables.{TableWins, TableHolds};
ghost use Rattle.strategy_certificate.specs.Certificates.{IsHeld};

use crate::hold_parts::HoldPart;
use crate::oracle::{Answer, Oracle};
use draughts_board::{Position, Side};

/// The rank at which the table shows a win of the side; none where it shows none.
pub fn table_rank<O: Oracle>(oracle: &O, side: Side, p: &Position) -> Option<u64>
    ensures rank { (r : ℕ)
        → (result ≡ Some r) ↔ TableWins draughts (O.answer_at oracle.now) side r p.now }
    ensures low { IfSome result (λ r. r < 2 ^ 32) }
{
    let mine = p.to_move() == side;
    match oracle.answer(p) {
        Some(Answer::Win(rank)) if mine => Some(u64::from(rank)),
        Some(Answer::Loss(rank)) if !mine => Some(u64::from(rank)),
        _ => None,
    }
}

/// The table shows that the side holds: its answer is no win of the other side.
pub fn table_holds<O: Oracle>(oracle: &O, side: Side, p: &Position) -> bool
    ensures { IsTrue result ↔ TableHolds draughts (O.answer_at oracle.now) side p.now }
{
    let mine = p.to_move() == side;
    match oracle.answer(p) {
        Some(Answer::Win(_)) => mine,
        Some(Answer::Loss(_)) => !mine,
        Some(Answer::Draw) => true,
        None => false,
    }
}

/// The part's side holds the position, by an entry of the part or by the table.
pub fn is_held<O: Oracle>(part: &HoldPart, oracle: &O, p: &Position) -> bool
    ensures { IsTrue result ↔ IsHeld part.now (O.answer_at oracle.now) p.now }
{
    match part.find(p) {
        Some(_) => true,
        None => table_holds(oracle, part.side(), p),
    }
}
