//! Endgames of two pieces a side. What they are, and in how many plies, was worked out by a program of another kind, which
//! goes back from all lost positions and is not kept here.
use draughts_board::Side;
use endgame_slices::{Slices, solve_below};
use endgame_table::{Table, fill};
use fen_text::read_fen;
use std::alloc::Global;
use std::test::Fail;
use strategy_certificate::Answer;
use win_lines::find_win_part;

/// Endgames, and what they are for the side to move.
const ENDGAMES: [(&str, Answer); 6] = [
    ("W:W15,K12:B7,K10", Answer::Win(15)),
    ("B:W12,K28:B18,K4", Answer::Loss(14)),
    ("B:W24,K32:B15,K28", Answer::Win(21)),
    ("W:W8,K25:B3,K21", Answer::Loss(30)),
    ("B:W9,K15:B8,K26", Answer::Loss(78)),
    ("B:W26,K3:B15,K4", Answer::Draw),
];

/// What the slices say of an endgame; none where all positions below it are too many.
fn answer_by_slices(alloc: Global, text: &str, table: &Table) -> Result<Option<Answer>, Fail> {
    let p = read_fen(text.as_bytes())?;
    let mut slices = Slices::new(alloc);
    if !solve_below(alloc, &p, 3_000_000, table, &mut slices)? {
        return Ok(None);
    }
    Ok(Some(slices.answer(&p, table)))
}

/// The first endgame of which the slices say another thing.
fn first_wrong_answer(alloc: Global, table: &Table) -> Result<Option<&'static str>, Fail> {
    for &(text, due) in &ENDGAMES {
        if answer_by_slices(alloc, text, table)? != Some(due) {
            return Ok(Some(text));
        }
    }
    Ok(None)
}

#[test]
fn slices_give_the_plies_to_the_end(rt: HostRuntime) -> Result<(), Fail> {
    let table = fill(rt.alloc(), 3)?;
    assert_eq!(rt; first_wrong_answer(rt.alloc(), &table)?, None);
    Ok(())
}

/// Endgames that lie near their end, and who wins them.
const NEAR: [(&str, Side); 4] = [
    ("W:W15,K12:B7,K10", Side::White),
    ("B:W12,K28:B18,K4", Side::White),
    ("B:W24,K32:B15,K28", Side::Black),
    ("W:W6,K25:B1,K4", Side::White),
];

/// The first of the endgames for which proof numbers find no win of the winner, or one of the other side.
fn first_missed_win(alloc: Global, table: &Table) -> Result<Option<&'static str>, Fail> {
    for &(text, winner) in &NEAR {
        let p = read_fen(text.as_bytes())?;
        let found = find_win_part(alloc, &p, winner, 100_000, 100_000, table)?;
        let other = find_win_part(alloc, &p, winner.other(), 10_000, 100_000, table)?;
        if found.is_none() || other.is_some() {
            return Ok(Some(text));
        }
    }
    Ok(None)
}

#[test]
fn proof_numbers_find_wins_that_are_near(rt: HostRuntime) -> Result<(), Fail> {
    let table = fill(rt.alloc(), 3)?;
    assert_eq!(rt; first_missed_win(rt.alloc(), &table)?, None);
    Ok(())
}
