//! A line of play as a game of PDN.
ghost use Rattle.std.specs.Prelude.{◌≡◌, ◌+◌, ◌++◌, ◌<◌, ◌^◌, IfOk, OnOk, length};
ghost use Rattle.journal_pages.specs.LineTexts.{line_text, move_number_text, moves_text, number_behind, opening_text, shown_text, space_behind, variation_text, variations_text, varied_text, verdict_text};

use certificate_lines::Variation;
use certificate_text::{claim_word, push_move};
use draughts_board::{Move, Position, Side};
use fen_text::print_fen;
use shared_words::push_number;
use std::alloc::{AllocError, Global};
use strategy_certificate::Claim;

/// Appends the number of a move, where it is Black's.
fn push_move_number(text: &mut Vec<u8>, number: u64, side: Side) -> Result<(), AllocError>
    ensures { OnOk result (text.new.items ≡ text.old.items ++ move_number_text number side) }
{
    match side {
        Side::Black => {
            push_number(text, number)?;
            text.extend_from_slice(b". ")
        }
        Side::White => Ok(()),
    }
}

/// The number of the move behind that of this side.
fn number_behind(number: u64, side: Side) -> u64
    requires { number + 1 < 2 ^ 64 }
    ensures { result ≡ number_behind number side }
{
    match side {
        Side::Black => number,
        Side::White => number + 1,
    }
}

/// Appends what stands before moves, the first of which is this side's and has this number.
fn push_opening(text: &mut Vec<u8>, number: u64, first: Side) -> Result<(), AllocError>
    ensures { OnOk result (text.new.items ≡ text.old.items ++ opening_text number first) }
{
    match first {
        Side::Black => Ok(()),
        Side::White => {
            push_number(text, number)?;
            text.extend_from_slice(b"... ")
        }
    }
}

/// Appends the moves of a variation, the first of which has this number and is this side's.
fn push_varied(
    text: &mut Vec<u8>,
    number: u64,
    first: Side,
    moves: &[Move],
) -> Result<(), AllocError>
    requires { number + length moves.now < 2 ^ 64 }
    ensures { OnOk result (text.new.items ≡ text.old.items
        ++ varied_text number first moves.now) }
{
    let mut number = number;
    let mut side = first;
    for path in moves {
        push_move_number(text, number, side)?;
        push_move(text, path)?;
        text.push(b' ')?;
        number = number_behind(number, side);
        side = side.other();
    }
    Ok(())
}

/// Appends what the play of a variation against this side shows.
fn push_shown(text: &mut Vec<u8>, side: Side, rank: Option<u64>) -> Result<(), AllocError>
    ensures { OnOk result (text.new.items ≡ text.old.items ++ shown_text side rank) }
{
    text.push(b'{')?;
    match rank {
        Some(rank) => {
            text.extend_from_slice(claim_word(Claim::Win(side.other())).as_bytes())?;
            text.extend_from_slice(b" within ")?;
            push_number(text, rank)?;
            text.extend_from_slice(b" plies}")
        }
        None => {
            text.extend_from_slice(claim_word(Claim::Hold(side.other())).as_bytes())?;
            text.extend_from_slice(b"}")
        }
    }
}

/// Appends a variation that begins with a move of this side, which has this number.
fn push_variation(
    text: &mut Vec<u8>,
    number: u64,
    side: Side,
    variation: &Variation,
) -> Result<(), AllocError>
    requires { number < 2 ^ 63 }
    ensures { OnOk result (text.new.items ≡ text.old.items
        ++ variation_text number side variation.now) }
{
    text.extend_from_slice(b"\n(")?;
    push_opening(text, number, side)?;
    push_varied(text, number, side, &variation.moves)?;
    push_shown(text, side, variation.rank)?;
    text.extend_from_slice(b")")
}

/// Appends the variations of the ply behind this many moves.
fn push_variations(
    text: &mut Vec<u8>,
    behind: usize,
    number: u64,
    side: Side,
    variations: &[Variation],
) -> Result<(), AllocError>
    requires { number < 2 ^ 63 }
    ensures { OnOk result (text.new.items ≡ text.old.items
        ++ variations_text behind number side variations.now) }
{
    for variation in variations {
        if variation.behind == behind {
            push_variation(text, number, side, variation)?;
        }
    }
    Ok(())
}

/// What stands behind a ply of this side.
fn space_behind(side: Side) -> u8
    ensures { result ≡ space_behind side }
{
    match side {
        Side::Black => b' ',
        Side::White => b'\n',
    }
}

/// Appends the moves of a line, the first of which is this side's, with its variations.
fn push_moves(
    text: &mut Vec<u8>,
    first: Side,
    moves: &[Move],
    variations: &[Variation],
) -> Result<(), AllocError>
    ensures { OnOk result (text.new.items ≡ text.old.items
        ++ moves_text 0 1 first moves.now variations.now) }
{
    let mut number = 1;
    let mut side = first;
    for (behind, path) in moves.iter().enumerate() {
        push_move_number(text, number, side)?;
        push_move(text, path)?;
        push_variations(text, behind, number, side, variations)?;
        text.push(space_behind(side))?;
        number = number_behind(number, side);
        side = side.other();
    }
    Ok(())
}

/// Appends what a play of this number of plies shows.
fn push_verdict(text: &mut Vec<u8>, claim: Claim, plies: usize) -> Result<(), AllocError>
    ensures { OnOk result (text.new.items ≡ text.old.items ++ verdict_text claim plies) }
{
    text.push(b'{')?;
    text.extend_from_slice(claim_word(claim).as_bytes())?;
    match claim {
        Claim::Win(_) => {
            text.extend_from_slice(b" after ")?;
            push_number(text, plies as u64)?;
            text.extend_from_slice(b" plies} *\n")
        }
        Claim::Hold(_) => text.extend_from_slice(b"} *\n"),
        Claim::Draw => text.extend_from_slice(b"} *\n"),
    }
}

/// The line of play of the root with this number, from its position on: a game of PDN with all squares
/// of each move, the variations behind the moves for which they stand, and a comment that says what the
/// play shows.
pub fn line_text(
    alloc: Global,
    root: u32,
    start: &Position,
    claim: Claim,
    moves: &[Move],
    variations: &[Variation],
) -> Result<Vec<u8>, AllocError>
    ensures { IfOk result (λ text.
        text.items ≡ line_text root start.now claim moves.now variations.now) }
{
    let mut text = Vec::new(alloc);
    text.extend_from_slice(b"[Event \"root ")?;
    push_number(&mut text, u64::from(root))?;
    text.extend_from_slice(b"\"]\n[FEN \"")?;
    text.extend_from_slice(print_fen(start).as_bytes())?;
    text.extend_from_slice(b"\"]\n")?;
    let first = start.to_move();
    push_opening(&mut text, 1, first)?;
    push_moves(&mut text, first, moves, variations)?;
    push_verdict(&mut text, claim, moves.len())?;
    Ok(text)
}
