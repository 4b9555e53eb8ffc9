//! Lines of play by a certificate: the moves, where they end, and within how many plies they are won.
use crate::certificates::{DRAWN, WON, accepted};
use certificate_lines::{Lengths, Line, line_of};
use draughts_board::{Move, Position};
use endgame_table::{Table, fill};
use std::alloc::{AllocError, Global};
use std::test::Fail;

/// Moves behind a position, and where they end.
fn say_moves(
    alloc: Global,
    text: &mut String,
    moves: &[Move],
    end: &Position,
    rank: Option<u64>,
) -> Result<(), AllocError> {
    for path in moves {
        text.push_str(format!(in alloc; " {path}")?.as_str())?;
    }
    text.push_str(format!(in alloc; " {end} {rank:?}")?.as_str())
}

/// A line, from where it goes to where it ends, and its variations.
fn say_line(alloc: Global, line: &Line) -> Result<String, AllocError> {
    let mut text = format!(in alloc; "{}", line.start)?;
    say_moves(alloc, &mut text, &line.moves, &line.end, line.rank)?;
    for v in &line.variations {
        text.push_str(format!(in alloc; "; {}", v.behind)?.as_str())?;
        say_moves(alloc, &mut text, &v.moves, &v.end, v.rank)?;
    }
    Ok(text)
}

/// The line of the certificate of this text, of a draw for this number of plies, with variations down to
/// that ply.
fn told(alloc: Global, text: &str, lengths: Lengths, table: &Table) -> Result<String, Fail> {
    let Some(proved) = accepted(alloc, text, table)? else {
        return Ok(String::new(alloc));
    };
    Ok(say_line(alloc, &line_of(alloc, &proved, lengths, table)?)?)
}

/// Certificates, for how many plies a draw goes on, down to which ply there are variations, and the
/// lines. Both replies to 13-17 are answered by a win in one.
const LINES: [(&str, usize, usize, &str); 7] = [
    (
        WON,
        0,
        0,
        "B:W25:B10,13 13-17 25-21 10-14 W:W21:B14,17 Some(3)",
    ),
    (
        WON,
        9,
        1,
        "B:W25:B10,13 13-17 25-21 10-14 W:W21:B14,17 Some(3)",
    ),
    (
        WON,
        9,
        2,
        "B:W25:B10,13 13-17 25-21 10-14 W:W21:B14,17 Some(3); 1 25-22 B:W22:B10,17 Some(1)",
    ),
    (
        WON,
        9,
        9,
        "B:W25:B10,13 13-17 25-21 10-14 W:W21:B14,17 Some(3); 1 25-22 17x26 W:W:B10,26 Some(0)",
    ),
    (DRAWN, 0, 9, "B:WK1,K19:BK15 B:WK1,K19:BK15 None"),
    (
        DRAWN,
        4,
        0,
        "B:WK1,K19:BK15 15x24 1-5 24-19 5-1 B:WK1:BK19 None",
    ),
    // Black has to take; of two kings alone each may go anywhere.
    (
        DRAWN,
        2,
        2,
        "B:WK1,K19:BK15 15x24 1-5 B:WK5:BK24 None; 1 1-6 B:WK6:BK24 None",
    ),
];

#[test]
fn plays_lines(rt: HostRuntime) -> Result<(), Fail> {
    let table = fill(rt.alloc(), 2)?;
    for (text, drawn, varied, due) in LINES {
        let told = told(rt.alloc(), text, Lengths { drawn, varied }, &table)?;
        assert_eq!(rt; told.as_str(), due);
    }
    Ok(())
}
