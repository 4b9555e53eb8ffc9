//! The line of a certificate, by its claim.
ghost use Rattle.std.specs.Prelude.{◌≡◌, IfOk};
ghost use Rattle.certificate_lines.specs.Lines.{IsLineOf};
ghost use Rattle.certificate_lines.specs.Variations.{Varies};

use crate::drawn::drawn_line;
use crate::variations::Variation;
use crate::won::won_line;
use certificate_checker::Proved;
use draughts_board::{Move, Position};
use std::alloc::{AllocError, Global};
use strategy_certificate::{Claim, Oracle};

/// A line of play.
#[derive(Drop)]
pub struct Line {
    /// Where it begins.
    pub start: Position,
    /// Its moves, in order.
    pub moves: Vec<Move>,
    /// The position that they lead to.
    pub end: Position,
    /// Within how many plies from its beginning it is won; none of a line that nobody wins.
    pub rank: Option<u64>,
    /// Other moves than those of the line, in the order of the moves for which they stand.
    pub variations: Vec<Variation>,
}

/// How long a line is, in plies from its beginning.
#[derive(Clone, Copy, Debug, PartialEq, Eq)]
pub struct Lengths {
    /// How long the line of a draw is. A win is played to its end.
    pub drawn: usize,
    /// Before which ply variations begin, and at which they end.
    pub varied: usize,
}

/// The line of a certificate, from its position on, with a variation for each other move that is not the
/// choice of a side by its part.
pub fn line_of<O: Oracle>(
    alloc: Global,
    proved: &Proved,
    lengths: Lengths,
    oracle: &O,
) -> Result<Line, AllocError>
    requires { proved.now.pieces ≡ O.piece_limit oracle.now }
    ensures start { IfOk result (λ line. line.start ≡ proved.now.position) }
    ensures line { IfOk result (λ line.
        IsLineOf proved.now lengths.drawn line.moves.items line.end line.rank) }
    ensures varies { IfOk result (λ line.
        Varies proved.now lengths.varied line.moves.items line.variations.items) }
{
    // That tells that its answers are sound.
    let _pieces = oracle.pieces();
    let certificate = proved.certificate();
    let start = certificate.position;
    match certificate.claim {
        Claim::Win(side) => won_line(alloc, proved, side, lengths.varied, oracle),
        Claim::Draw => drawn_line(alloc, proved, lengths, oracle),
        Claim::Hold(_) => Ok(Line {
            start,
            moves: Vec::new(alloc),
            end: start,
            rank: None,
            variations: Vec::new(alloc),
        }),
    }
}
