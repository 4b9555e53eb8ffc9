//! The line of a win.
ghost use Rattle.std.specs.Prelude.{◌≡◌, ◌≤◌, ◌+◌, IfOk, IfSome, IsSomeAnd, Some, length, true};
ghost use Rattle.draughts_board.specs.Board.{other};
ghost use Rattle.draughts_board.specs.Play.{is_nil, legal_paths};
ghost use Rattle.strategy_certificate.specs.declared.claims.Claim.TheVariants as claims;
ghost use Rattle.certificate_player.specs.Sides.{side_of};
ghost use Rattle.certificate_lines.specs.Lines.{GoesBy, IsWonLine, Leads};
ghost use Rattle.certificate_lines.specs.Steps.{Stands, WinsOut};
ghost use Rattle.certificate_lines.specs.Variations.{HasVariations, Varies, is_reply};

use crate::line::Line;
use crate::plies::next_ply;
use crate::variations::{Fork, push_replies};
use certificate_checker::Proved;
use certificate_player::{first_rank, own_part};
use draughts_board::{Position, Side};
use std::alloc::{AllocError, Global};
use strategy_certificate::{Oracle, Part};
use swift_moves::{apply, has_move};

/// The line by the part of the side that wins, from a position with this rank on, to its end.
fn play_out<O: Oracle>(
    alloc: Global,
    part: &Part,
    side: Side,
    oracle: &O,
    start: Position,
    rank: u64,
    varied: usize,
) -> Result<Line, AllocError>
    requires side { side_of part.now ≡ side }
    requires stands { Stands (O.answer_at oracle.now) part.now start (Some rank) }
    ensures rank { IfOk result (λ line. line.rank ≡ Some rank) }
    ensures start { IfOk result (λ line. line.start ≡ start) }
    ensures out { IfOk result (λ line.
        WinsOut (O.answer_at oracle.now) part.now start rank line.moves.items line.end) }
    ensures varies { IfOk result (λ line. HasVariations (O.answer_at oracle.now) (λ _. Some part.now)
        (is_reply side) varied start line.moves.items line.variations.items) }
{
    let mut moves = Vec::new(alloc);
    let mut variations = Vec::new(alloc);
    let mut end = start;
    let mut left = Some(rank);
    while has_move(&end) {
        let ply = next_ply(alloc, part, side, oracle, &end, left)?;
        let fork = Fork {
            position: end,
            rank: left,
            behind: moves.len(),
        };
        push_replies(
            &mut variations,
            alloc,
            part,
            side,
            oracle,
            &fork,
            &ply.path,
            varied,
        )?;
        moves.push(ply.path)?;
        end = apply(&end, &ply.path);
        left = ply.rank;
    }
    Ok(Line {
        start,
        moves,
        end,
        rank: Some(rank),
        variations,
    })
}

/// The line of a certificate that claims the side's win.
pub(crate) fn won_line<O: Oracle>(
    alloc: Global,
    proved: &Proved,
    side: Side,
    varied: usize,
    oracle: &O,
) -> Result<Line, AllocError>
    requires pieces { proved.now.pieces ≡ O.piece_limit oracle.now }
    requires wins { proved.now.claim ≡ claims.Win side }
    ensures start { IfOk result (λ line. line.start ≡ proved.now.position) }
    ensures line { IfOk result (λ line. IsSomeAnd line.rank
        (IsWonLine proved.now side line.moves.items line.end)) }
    ensures varies { IfOk result (λ line.
        Varies proved.now varied line.moves.items line.variations.items) }
{
    // That tells that its answers are sound.
    let _pieces = oracle.pieces();
    let certificate = proved.certificate();
    let part = own_part(certificate, side);
    let start = certificate.position;
    match first_rank(part, oracle, &start) {
        Some(rank) => play_out(alloc, part, side, oracle, start, rank, varied),
        None => unreachable!(),
    }
}
