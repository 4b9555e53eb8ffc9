//! The line of a draw.
ghost use Rattle.std.specs.Prelude.{◌≡◌, IfOk, None, Some, true};
ghost use Rattle.draughts_board.specs.declared.pieces.Side.TheVariants as sides;
ghost use Rattle.draughts_board.specs.Board.{IsLawful};
ghost use Rattle.strategy_certificate.specs.declared.claims.Claim.TheVariants as claims;
ghost use Rattle.certificate_player.specs.Sides.{side_of};
ghost use Rattle.certificate_lines.specs.Lines.{IsDrawnLine, mover_part};
ghost use Rattle.certificate_lines.specs.Steps.{HoldsOn, Stands};
ghost use Rattle.certificate_lines.specs.Variations.{HasVariations, Varies};

use crate::line::{Lengths, Line};
use crate::variations::{Fork, push_forks};
use certificate_checker::Proved;
use certificate_player::{chosen_move, own_part};
use draughts_board::{Position, Side};
use std::alloc::{AllocError, Global};
use strategy_certificate::{Oracle, Part};
use swift_moves::apply;

/// The part of the side to move.
fn mover<'a>(black: &'a Part, white: &'a Part, p: &Position) -> &'a Part
    ensures part { result.now ≡ mover_part black.now white.now p.now }
    ensures valid { IsLawful p.now }
{
    match p.to_move() {
        Side::Black => black,
        Side::White => white,
    }
}

/// The line in which each side makes the move by which its part holds.
fn hold_on<O: Oracle>(
    alloc: Global,
    black: &Part,
    white: &Part,
    oracle: &O,
    start: Position,
    lengths: Lengths,
) -> Result<Line, AllocError>
    requires black { side_of black.now ≡ sides.Black }
    requires white { side_of white.now ≡ sides.White }
    requires black_stands { Stands (O.answer_at oracle.now) black.now start None }
    requires white_stands { Stands (O.answer_at oracle.now) white.now start None }
    ensures rank { IfOk result (λ line. line.rank ≡ None) }
    ensures start { IfOk result (λ line. line.start ≡ start) }
    ensures on { IfOk result (λ line. HoldsOn (O.answer_at oracle.now) black.now white.now start
        lengths.drawn line.moves.items line.end) }
    ensures varies { IfOk result (λ line. HasVariations (O.answer_at oracle.now)
        (λ p. Some (mover_part white.now black.now p)) (λ _. true) lengths.varied start
        line.moves.items line.variations.items) }
{
    let mut moves = Vec::new(alloc);
    let mut variations = Vec::new(alloc);
    let mut end = start;
    for behind in 0..lengths.drawn {
        let part = mover(black, white, &end);
        let path = chosen_move(alloc, part, oracle, &end, None)?;
        let fork = Fork {
            position: end,
            rank: None,
            behind,
        };
        let against = mover(white, black, &end);
        push_forks(
            &mut variations,
            alloc,
            against,
            oracle,
            &fork,
            &path,
            lengths.varied,
        )?;
        moves.push(path)?;
        end = apply(&end, &path);
    }
    Ok(Line {
        start,
        moves,
        end,
        rank: None,
        variations,
    })
}

/// The line of a certificate that claims a draw.
pub(crate) fn drawn_line<O: Oracle>(
    alloc: Global,
    proved: &Proved,
    lengths: Lengths,
    oracle: &O,
) -> Result<Line, AllocError>
    requires pieces { proved.now.pieces ≡ O.piece_limit oracle.now }
    requires draw { proved.now.claim ≡ claims.Draw }
    ensures rank { IfOk result (λ line. line.rank ≡ None) }
    ensures start { IfOk result (λ line. line.start ≡ proved.now.position) }
    ensures line { IfOk result (λ line.
        IsDrawnLine proved.now lengths.drawn line.moves.items line.end) }
    ensures varies { IfOk result (λ line.
        Varies proved.now lengths.varied line.moves.items line.variations.items) }
{
    // That tells that its answers are sound.
    let _pieces = oracle.pieces();
    let certificate = proved.certificate();
    let black = own_part(certificate, Side::Black);
    let white = own_part(certificate, Side::White);
    hold_on(alloc, black, white, oracle, certificate.position, lengths)
}
