//! Counts from outside, the published numbers of positions with two and three pieces, and answers worked out by hand.
use draughts_board::Position;
use endgame_table::{NO_POSITION, Table, answer_of, fill, table_bytes};
use fen_text::read_fen;
use std::alloc::{AllocError, Global};
use std::test::Fail;
use strategy_certificate::{Answer, Oracle};

/// The table of two or three pieces.
pub(crate) fn filled(alloc: Global, three: bool) -> Result<Table, AllocError> {
    fill(alloc, if three { 3 } else { 2 })
}

/// How many pieces a table has at most, how many indices, and how many of them are positions.
fn counts(table: &Table) -> (u8, usize, usize) {
    let numbers = table.numbers();
    let positions = numbers.iter().filter(|n| **n != NO_POSITION).count();
    (table.pieces(), table.len(), positions)
}

/// What an oracle answers, through its bound.
fn asked<O: Oracle>(oracle: &O, p: &Position) -> (u8, Option<Answer>) {
    (oracle.pieces(), oracle.answer(p))
}

/// Positions of at most three pieces, and their answers by the table of two.
const ANSWERS: [(&str, Option<Answer>); 5] = [
    ("B:WK32:BK1", Some(Answer::Draw)),
    // Black captures the White king on 6, and White has no piece left.
    ("B:WK6:BK1", Some(Answer::Win(1))),
    // A side without pieces has lost.
    ("W:W:BK7", Some(Answer::Loss(0))),
    // More pieces than the table has.
    ("B:WK6,K32:BK1", None),
    (
        "B:W21,22,23,24,25,26,27,28,29,30,31,32:B1,2,3,4,5,6,7,8,9,10,11,12",
        None,
    ),
];

/// The first position whose answer is another one.
fn first_wrong_answer(table: &Table) -> Result<Option<&'static str>, Fail> {
    for (text, due) in &ANSWERS {
        let p = read_fen(text.as_bytes())?;
        if table.probe(&p) != *due || asked(table, &p) != (2, *due) {
            return Ok(Some(text));
        }
    }
    Ok(None)
}

/// How many bytes are written of a table, its head, and the bytes of the entry of B:WK32:BK1 in a
/// table of two pieces.
fn written(
    alloc: Global,
    table: &Table,
) -> Result<(usize, Option<[u8; 8]>, Option<[u8; 4]>), AllocError> {
    let bytes = table_bytes(alloc, table)?;
    let entry = bytes
        .get(8 + 4 * 1232..)
        .and_then(|rest| rest.first_chunk());
    Ok((bytes.len(), bytes.first_chunk().copied(), entry.copied()))
}

#[test]
fn fills_a_table_of_two_pieces(rt: HostRuntime) -> Result<(), Fail> {
    let table = filled(rt.alloc(), false)?;
    assert_eq!(rt; counts(&table), (2, 16_130, 14_186));
    // B:WK32:BK1 and W:WK27:BK1 are draws.
    let drawn = (table.numbers().get(1232), table.numbers().get(1073));
    assert_eq!(rt; drawn, (Some(&0), Some(&0)));
    assert_eq!(rt; first_wrong_answer(&table)?, None);
    let bytes = written(rt.alloc(), &table)?;
    assert_eq!(rt; bytes, (64_528, Some(*b"DRTABLE\x02"), Some([0; 4])));
    Ok(())
}

#[test]
fn fills_a_table_of_three_pieces(rt: HostRuntime) -> Result<(), Fail> {
    let table = filled(rt.alloc(), true)?;
    assert_eq!(rt; counts(&table), (3, 651_010, 536_634));
    let won = read_fen(b"B:WK6:BK1")?;
    assert_eq!(rt; table.probe(&won), Some(Answer::Win(1)));
    let (length, head, _) = written(rt.alloc(), &table)?;
    assert_eq!(rt; (length, head), (2_604_048, Some(*b"DRTABLE\x03")));
    Ok(())
}

#[test]
fn numbers_stand_for_answers(rt: HostRuntime) {
    let answers = [
        answer_of(0),
        answer_of(1),
        answer_of(4),
        answer_of(NO_POSITION),
    ];
    let due = [
        Some(Answer::Draw),
        Some(Answer::Loss(0)),
        Some(Answer::Win(1)),
        None,
    ];
    assert_eq!(rt; answers, due);
}
