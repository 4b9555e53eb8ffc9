//! The reply that holds out longest.
ghost use Rattle.std.specs.Prelude.{◌≡◌, ◌≤◌, ◌⊎◌, [], ℕ, List, Contains, IfNone, IfSome, MatchOption};
ghost use Rattle.draughts_board.specs.Rules.{IsLegal, after};
ghost use Rattle.certificate_player.specs.Choices.{GoesOnAt, IsNextRank};
ghost use Rattle.certificate_player.specs.Plays.{RankFalls};
ghost use Rattle.certificate_lines.specs.Lines.{worth};
ghost use Rattle.certificate_lines.specs.Steps.{IsLongest};

use certificate_player::next_rank;
use draughts_board::{Move, Position};
use strategy_certificate::{Oracle, Part};
use swift_moves::apply;

/// A move, and the rank that is kept behind it.
#[derive(Clone, Copy)]
pub(crate) struct Ply {
    pub path: Move,
    pub rank: Option<u64>,
}

/// The rank as a number; 0 where none is kept.
fn worth(rank: Option<u64>) -> u64
    ensures { result ≡ worth rank }
{
    match rank {
        Some(rank) => rank,
        None => 0,
    }
}

/// A legal move, and the rank that the part keeps behind it.
fn ply_by<O: Oracle>(part: &Part, oracle: &O, p: &Position, rank: Option<u64>, path: &Move) -> Ply
    requires legal { IsLegal p.now path.now }
    requires on { GoesOnAt (O.answer_at oracle.now) (after p.now path.now) rank part.now }
    ensures path { result.path ≡ path.now }
    ensures next { IsNextRank (O.answer_at oracle.now) (after p.now path.now) rank part.now
        result.rank }
    ensures falls { RankFalls rank result.rank }
{
    Ply {
        path: *path,
        rank: next_rank(part, oracle, &apply(p, path), rank),
    }
}

/// The one of the two behind which the rank is greater; the first where it is the same, and the second
/// where there is no first.
fn longer(best: Option<Ply>, ply: Ply) -> Ply
    ensures one { MatchOption best (result ≡ ply) (λ first. (result ≡ first) ⊎ (result ≡ ply)) }
    ensures second { worth ply.rank ≤ worth result.rank }
    ensures first { IfSome best (λ first. worth first.rank ≤ worth result.rank) }
{
    match best {
        Some(first) => {
            if worth(ply.rank) <= worth(first.rank) {
                first
            } else {
                ply
            }
        }
        None => ply,
    }
}

/// The first of the moves, which are legal, behind which the rank is the greatest.
pub(crate) fn longest<O: Oracle>(
    part: &Part,
    oracle: &O,
    p: &Position,
    rank: Option<u64>,
    moves: &[Move],
) -> Option<Ply>
    requires legal { (path : List ℕ) → Contains moves.now path → IsLegal p.now path }
    requires on { (path : List ℕ) → IsLegal p.now path
        → GoesOnAt (O.answer_at oracle.now) (after p.now path) rank part.now }
    ensures some { IfSome result (λ ply.
        IsLongest (O.answer_at oracle.now) part.now p.now rank moves.now ply.path ply.rank) }
    ensures none { IfNone result (moves.now ≡ []) }
{
    let mut best = None;
    for path in moves {
        let ply = ply_by(part, oracle, p, rank, path);
        best = Some(longer(best, ply));
    }
    best
}
