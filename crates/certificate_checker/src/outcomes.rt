//! What a search of a position comes to.
ghost use Rattle.std.specs.Prelude.{◌≡◌, [], All, map};
ghost use Rattle.draughts_board.specs.Board.{other};
ghost use Rattle.draughts_board.specs.Play.{successors_of};
ghost use Rattle.draughts_board.specs.Game.{ShowsWin, ShowsHold};
ghost use Rattle.draughts_board.specs.Draughts.{draughts};
ghost use Rattle.certificate_checker.specs.Sight.{IsAtSight};

use crate::checking::Proved;
use draughts_board::{Position, Side};
use proof_numbers::Child;
use shared_words::ItemList;

/// No search looks further ahead, in plies.
pub const MOST_DEPTH: u8 = 12;

/// The positions after a position, in order, each with its facts at sight and its mobility.
pub type ChildList = ItemList<Child>;

/// Certificates whose claims are true.
pub type ProofList = ItemList<Proved>;

/// A search that found too little: looking so far ahead shows neither the goal's win nor the other
/// side's hold.
#[derive(Drop)]
pub struct Exhausted {
    /// The position that was searched.
    pub position: Position,
    /// The side whose win was looked for.
    pub goal: Side,
    /// How many plies were looked ahead.
    pub depth: u8,
    /// The number of pieces of the endgame table.
    pub pieces: u8,
    /// The positions after it, in order.
    pub children: ChildList,
    pub ghost no_win: { ShowsWin draughts pieces goal depth position → ⊥ },
    pub ghost no_hold: { ShowsHold draughts pieces (other goal) depth [] position → ⊥ },
    pub ghost successors: { map (λ child. child.position) children ≡ successors_of position },
    pub ghost facts: { ∥ All (IsAtSight pieces) children ∥₁ },
}

/// What a search comes to.
#[derive(Drop)]
pub enum Outcome {
    /// Certificates, one of which settles the goal.
    Solved(ProofList),
    /// Neither the goal's win nor the other side's hold was found.
    Exhausted(Exhausted),
}
