//! A play by a certificate against the lines of a source.
ghost use Rattle.std.specs.Prelude.{◌≡◌, ◌↔◌, ℕ, List, IfErr, IfOk, IsTrue, OnOk};
ghost use Rattle.draughts_board.specs.Board.{other};
ghost use Rattle.certificate_player.specs.Choices.{Begins, GoesOn};
ghost use Rattle.certificate_player.specs.Plays.{here};
ghost use Rattle.certificate_plays.specs.Lines.{SaysMove};
ghost use Rattle.certificate_plays.specs.Plays.{PlaysOut};
ghost use Rattle.certificate_plays.specs.Refusals.{IsPlayFault};
ghost use Rattle.certificate_plays.specs.Steps.{Answers, IsLineRefusal, IsUnheard};

use crate::lines::{move_of, split_line};
use crate::refusals::{LineFault, LinesRefusal};
use certificate_checker::Proved;
use certificate_player::Player;
use draughts_board::{Move, Position, ResolveRefusal, Side};
use std::alloc::{AllocError, Global};
use strategy_certificate::Oracle;
use swift_moves::has_move;

/// A play that used each line of its source.
#[derive(Drop)]
pub struct FinishedPlay {
    /// The position of the certificate, from which it goes.
    pub start: Position,
    /// The moves of the side that the player plays, in order.
    pub moves: Vec<Move>,
    /// Where it stands: the other side is to move.
    pub end: Position,
}

/// It is the player's turn.
fn is_turn(player: &Player) -> bool
    ensures { IsTrue result ↔ ((here player.now).to_move ≡ player.now.side) }
{
    player.position().to_move() == player.side()
}

/// Where it is the player's turn, makes its move and appends it.
fn answer<O: Oracle>(
    moves: &mut Vec<Move>,
    player: &mut Player,
    oracle: &O,
) -> Result<(), AllocError>
    requires { player.old.certificate.pieces ≡ O.piece_limit oracle.now }
    ensures { OnOk result (Answers (O.answer_at oracle.now)
        player.old player.new moves.old.items moves.new.items) }
{
    if !is_turn(player) {
        return Ok(());
    }
    let path = player.choose(oracle)?;
    moves.push(path)?;
    Ok(())
}

/// The refusal of a move that means no legal one, on a line with this number.
fn unheard(number: usize, position: Position, cause: ResolveRefusal) -> LinesRefusal
    ensures { IsUnheard number position cause result }
{
    match cause {
        ResolveRefusal::Illegal => LinesRefusal::Line {
            number,
            position,
            fault: LineFault::Illegal,
        },
        ResolveRefusal::Ambiguous(_, _) => LinesRefusal::Line {
            number,
            position,
            fault: LineFault::Ambiguous,
        },
        ResolveRefusal::Memory(error) => LinesRefusal::Memory(error),
    }
}

/// Lets the player hear the move of a line, which has this number.
fn hear<O: Oracle>(
    alloc: Global,
    player: &mut Player,
    oracle: &O,
    number: usize,
    line: &[u8],
) -> Result<(), LinesRefusal>
    requires turn { (here player.old).to_move ≡ other player.old.side }
    requires pieces { player.old.certificate.pieces ≡ O.piece_limit oracle.now }
    ensures heard { OnOk result ((path : List ℕ) × (SaysMove (here player.old) line.now path
        × GoesOn (O.answer_at oracle.now) player.old player.new path)) }
    ensures refused { IfErr result (IsLineRefusal number (here player.old) line.now) }
{
    let position = player.position();
    if !has_move(&position) {
        let fault = LineFault::AfterEnd;
        return Err(LinesRefusal::Line {
            number,
            position,
            fault,
        });
    }
    let found = move_of(alloc, line)?;
    let Some(written) = found else {
        let fault = LineFault::BadLine;
        return Err(LinesRefusal::Line {
            number,
            position,
            fault,
        });
    };
    let squares = written.squares.path();
    let last = squares.len() - 1;
    match player.hear(squares[0], &squares[1..last], squares[last], oracle) {
        Ok(()) => Ok(()),
        Err(cause) => Err(unheard(number, position, cause)),
    }
}

/// The play of a player, from its certificate's position to the end of the lines of a source.
fn play_lines<O: Oracle>(
    alloc: Global,
    player: Player,
    oracle: &O,
    source: &[u8],
) -> Result<FinishedPlay, LinesRefusal>
    requires begins { Begins (O.answer_at oracle.now) player.certificate player.side player }
    requires pieces { player.certificate.pieces ≡ O.piece_limit oracle.now }
    ensures plays { IfOk result (λ play. PlaysOut player.certificate player.side source.now
        play.start play.moves.items play.end) }
    ensures refused { IfErr result (IsPlayFault player.certificate player.side source.now) }
{
    // That tells that its answers are sound.
    let _pieces = oracle.pieces();
    let mut player = player;
    let start = player.position();
    let mut moves = Vec::new(alloc);
    answer(&mut moves, &mut player, oracle)?;
    let mut rest = source;
    let mut number = 0;
    while let Some((line, behind)) = split_line(rest) {
        number += 1;
        hear(alloc, &mut player, oracle, number, line)?;
        answer(&mut moves, &mut player, oracle)?;
        rest = behind;
    }
    let end = player.position();
    Ok(FinishedPlay { start, moves, end })
}

/// The play of the side by a certificate against the lines of a source, each of them one move of the
/// other side. The last line may lack its line end.
///
/// It is refused where the certificate does not say that the side holds, at the first line that is
/// refused, and for want of memory.
pub fn played<O: Oracle>(
    alloc: Global,
    proved: Proved,
    side: Side,
    oracle: &O,
    source: &[u8],
) -> Result<FinishedPlay, LinesRefusal>
    requires { proved.pieces ≡ O.piece_limit oracle.now }
    ensures plays { IfOk result (λ play.
        PlaysOut proved side source.now play.start play.moves.items play.end) }
    ensures refused { IfErr result (IsPlayFault proved side source.now) }
{
    match Player::new(alloc, proved, side, oracle) {
        Ok(player) => play_lines(alloc, player, oracle, source),
        Err(_) => Err(LinesRefusal::NotHeld(side)),
    }
}
