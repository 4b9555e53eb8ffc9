//! Plays against the lines of a source: the moves and where they end, or why a line is refused.
use crate::certificates::{DRAWN, WON, accepted};
use certificate_plays::{FinishedPlay, LinesRefusal, played};
use draughts_board::Side;
use endgame_table::{Table, fill};
use std::alloc::{AllocError, Global};
use std::test::Fail;

/// The moves of the side that is played, and the positions from which and to which the play goes.
fn say_play(alloc: Global, play: &FinishedPlay) -> Result<String, AllocError> {
    let mut text = format!(in alloc; "{}", play.start)?;
    for path in &play.moves {
        text.push_str(format!(in alloc; " {path}")?.as_str())?;
    }
    text.push_str(format!(in alloc; " {}", play.end)?.as_str())?;
    Ok(text)
}

/// Why a play is refused.
fn say_refusal(alloc: Global, refusal: &LinesRefusal) -> Result<String, AllocError> {
    match refusal {
        LinesRefusal::NotHeld(side) => format!(in alloc; "{side} does not hold"),
        LinesRefusal::Line {
            number,
            position,
            fault,
        } => format!(in alloc; "line {number} at {position}: {fault:?}"),
        LinesRefusal::Memory(_) => Err(AllocError),
    }
}

/// What a play by the certificate of this text comes to.
fn told(
    alloc: Global,
    text: &str,
    side: Side,
    source: &str,
    table: &Table,
) -> Result<String, Fail> {
    let Some(proved) = accepted(alloc, text, table)? else {
        return Ok(String::new(alloc));
    };
    match played(alloc, proved, side, table, source.as_bytes()) {
        Ok(play) => Ok(say_play(alloc, &play)?),
        Err(refusal) => Ok(say_refusal(alloc, &refusal)?),
    }
}

/// Certificates, sides, sources, and what the play comes to.
const PLAYS: [(&str, Side, &str, &str); 14] = [
    (
        WON,
        Side::Black,
        "25-21\n",
        "B:W25:B10,13 13-17 10-14 W:W21:B14,17",
    ),
    (
        WON,
        Side::Black,
        "25-22",
        "B:W25:B10,13 13-17 17x26 W:W:B10,26",
    ),
    (WON, Side::Black, "", "B:W25:B10,13 13-17 W:W25:B10,17"),
    // `x` and `-` mean the same between two squares, and a 0 may stand in front.
    (
        DRAWN,
        Side::Black,
        "1-6\n06x09\n",
        "B:WK1,K19:BK15 15x24 24-19 19-15 W:WK9:BK15",
    ),
    (
        DRAWN,
        Side::White,
        "15x24\n24-19",
        "B:WK1,K19:BK15 1-5 5-1 B:WK1:BK19",
    ),
    (WON, Side::White, "", "White does not hold"),
    (
        WON,
        Side::Black,
        "25-29\n",
        "line 1 at W:W25:B10,17: Illegal",
    ),
    (
        WON,
        Side::Black,
        "25-21\n25-22\n",
        "line 2 at W:W21:B14,17: AfterEnd",
    ),
    (
        WON,
        Side::Black,
        "25-22\n\n",
        "line 2 at W:W:B10,26: AfterEnd",
    ),
    // What is no move word: an empty line, a result, a blank beside a move, two moves.
    (
        WON,
        Side::Black,
        "\n25-21\n",
        "line 1 at W:W25:B10,17: BadLine",
    ),
    (WON, Side::Black, "1-0\n", "line 1 at W:W25:B10,17: BadLine"),
    (
        WON,
        Side::Black,
        " 25-21\n",
        "line 1 at W:W25:B10,17: BadLine",
    ),
    (
        WON,
        Side::Black,
        "25-21\r\n",
        "line 1 at W:W25:B10,17: BadLine",
    ),
    (
        WON,
        Side::Black,
        "25-21 21-17\n",
        "line 1 at W:W25:B10,17: BadLine",
    ),
];

#[test]
fn plays_against_each_line(rt: HostRuntime) -> Result<(), Fail> {
    let table = fill(rt.alloc(), 2)?;
    for (text, side, source, due) in PLAYS {
        let told = told(rt.alloc(), text, side, source, &table)?;
        assert_eq!(rt; told.as_str(), due);
    }
    Ok(())
}
