//! What finds moves, as one that asks it sees it, and which legal move a written one means, whichever generator finds them.
ghost use Rattle.std.specs.Prelude.{◌≡◌, ℕ, List, Contains, IfOk};
ghost use Rattle.draughts_board.specs.Rules.{AreLegalPaths, IsLegal, after};
ghost use Rattle.draughts_board.specs.Play.{legal_paths};
ghost use Rattle.draughts_board.specs.Resolution.{elsewhere, first_of, matches, meaning, resolve_wants_memory};
ghost use Rattle.shared_words.specs.Answers.{Unless};

use crate::paths::Move;
use crate::positions::Position;
use crate::resolution::{ResolveRefusal, is_written};
use crate::squares::Square;
use std::alloc::{AllocError, Global};

/// What finds the legal moves of a position, and where each of them leads.
pub trait MoveGenerator {
    /// The legal moves, each once, in rising order of their paths.
    fn legal_moves(alloc: Global, p: &Position) -> Result<Vec<Move>, AllocError>
        ensures exact { IfOk result (λ moves. moves.items ≡ legal_paths p.now) }
        ensures rules { IfOk result (λ moves. AreLegalPaths p.now moves.items) };

    /// The position after a legal move.
    fn apply(p: &Position, m: &Move) -> Position
        requires { IsLegal p.now m.now }
        ensures { result ≡ after p.now m.now };
}

/// The first of the moves, which are legal, that leads elsewhere than to `next`.
fn first_elsewhere<G: MoveGenerator>(p: &Position, next: &Position, moves: &[Move]) -> Option<Move>
    requires { (path : List ℕ) → Contains moves.now path → IsLegal p.now path }
    ensures { result ≡ first_of (elsewhere p.now next.now moves.now) }
{
    for m in moves {
        if G::apply(p, m) != *next {
            return Some(*m);
        }
    }
    None
}

/// What the moves, which are legal, mean together.
fn meaning<G: MoveGenerator>(p: &Position, moves: &[Move]) -> Result<Move, ResolveRefusal>
    requires { (path : List ℕ) → Contains moves.now path → IsLegal p.now path }
    ensures { result ≡ meaning p.now moves.now }
{
    let [chosen, ..] = moves else {
        return Err(ResolveRefusal::Illegal);
    };
    match first_elsewhere::<G>(p, &G::apply(p, chosen), &moves[1..]) {
        None => Ok(*chosen),
        Some(other) => Err(ResolveRefusal::Ambiguous(*chosen, other)),
    }
}

/// The legal move that is written with these ends and, if any are named, these squares in between.
///
/// With an empty `middle` every legal move from `from` that ends on `to` matches, else only the one
/// whose path is `from`, `middle`, `to`. `Ok` gives the first match in rising order of path, where
/// all matches lead to one position. Refused as `Illegal` exactly where nothing matches, and as
/// `Ambiguous` exactly where two matches lead to different positions.
pub fn resolve<G: MoveGenerator>(
    alloc: Global,
    p: &Position,
    from: Square,
    middle: &[Square],
    to: Square,
) -> Result<Move, ResolveRefusal>
    ensures exact { Unless resolve_wants_memory result
        (result ≡ meaning p.now (matches p.now from middle.now to)) }
    ensures legal { IfOk result (IsLegal p.now) }
{
    let mut moves = G::legal_moves(alloc, p).map_err(ResolveRefusal::Memory)?;
    moves.retain(|m| is_written(m, from, middle, to));
    meaning::<G>(p, &moves)
}
