//! Games as they are written and the positions that they lead to, worked out by hand from the rules
//! of play. An answer is told as a line for each opening, `GAME FEN`, or as the refusal: `GAME
//! CAUSE` or `GAME PLY PLACE CAUSE`.
use fen_text::{FenRefusal, print_fen};
use pdn_openings::{Opening, OpeningRefusal, openings};
use pdn_text::{Game, MOST_GAMES, read_games};
use std::alloc::{AllocError, Global};
use std::process::Abort;
use std::test::Fail;

/// A fault of a game's FEN, as it is told.
fn told_fault(alloc: Global, game: u32, fault: FenRefusal) -> Result<String, AllocError> {
    let (cause, at) = match fault {
        FenRefusal::BadLetter(at) => ("bad-letter", at),
        FenRefusal::BadSquare(at) => ("bad-square", at),
        FenRefusal::Twice(square) => ("twice", square.number() as usize),
        FenRefusal::ManOnLastRow(square) => ("man", square.number() as usize),
        FenRefusal::TooMany(_) => return format!(in alloc; "{game} too-many"),
        FenRefusal::Truncated => return format!(in alloc; "{game} truncated"),
    };
    format!(in alloc; "{game} {cause} {at}")
}

/// A move that means no legal one, as it is told.
fn told_move(
    alloc: Global,
    (game, ply, at): (u32, u32, usize),
    cause: &str,
) -> Result<String, AllocError> {
    format!(in alloc; "{game} {ply} {at} {cause}")
}

/// A refusal, as it is told.
fn told_refusal(alloc: Global, refusal: OpeningRefusal) -> Result<String, AllocError> {
    match refusal {
        OpeningRefusal::OtherGame(game) => format!(in alloc; "{game} other-game"),
        OpeningRefusal::Fen(game, fault) => told_fault(alloc, game, fault),
        OpeningRefusal::Illegal { game, ply, at } => told_move(alloc, (game, ply, at), "illegal"),
        OpeningRefusal::Ambiguous { game, ply, at } => {
            told_move(alloc, (game, ply, at), "ambiguous")
        }
        OpeningRefusal::Memory(error) => Err(error),
    }
}

/// Appends a number.
fn push_number(alloc: Global, told: &mut String, n: u32) -> Result<(), AllocError> {
    told.push_str(format!(in alloc; "{n}")?.as_str())
}

/// Appends an opening, as it is told.
fn push_opening(alloc: Global, told: &mut String, opening: &Opening) -> Result<(), AllocError> {
    push_number(alloc, told, opening.game)?;
    told.push_str(" ")?;
    told.push_str(print_fen(&opening.position).as_str())?;
    told.push_str("\n")
}

/// Appends the openings.
fn push_openings(alloc: Global, told: &mut String, found: &[Opening]) -> Result<(), AllocError> {
    for opening in found {
        push_opening(alloc, told, opening)?;
    }
    Ok(())
}

/// The openings, as they are told.
fn told_openings(alloc: Global, found: &[Opening]) -> Result<String, AllocError> {
    let mut told = String::new(alloc);
    push_openings(alloc, &mut told, found)?;
    Ok(told)
}

/// The answer to these games, as it is told.
fn told_of(alloc: Global, games: &[Game], plies: u32) -> Result<String, Fail> {
    if games.len() > MOST_GAMES {
        return Err(Fail::from("too many games"));
    }
    match openings(alloc, games, plies) {
        Ok(found) => Ok(told_openings(alloc, found.as_slice())?),
        Err(refusal) => Ok(told_refusal(alloc, refusal)?),
    }
}

/// The answer to the games of a text, as it is told.
fn told(alloc: Global, text: &str, plies: u32) -> Result<String, Fail> {
    let games = read_games(alloc, text.as_bytes())?;
    told_of(alloc, games.as_slice(), plies)
}

/// A text, after how many plies its games' openings are, and the answer.
type Case = (&'static str, u32, &'static str);

/// Each text is answered so.
fn expect(rt: &impl Abort, alloc: Global, cases: &[Case]) -> Result<(), Fail> {
    for (text, plies, want) in cases {
        assert_eq!(rt; told(alloc, text, *plies)?.as_str(), *want, "{text}");
    }
    Ok(())
}

const START: &str = "1 B:W21,22,23,24,25,26,27,28,29,30,31,32:B1,2,3,4,5,6,7,8,9,10,11,12\n";

const POSITIONS: &[Case] = &[
    ("", 200, ""),
    ("*", 200, START),
    (
        "1. 9-13 *",
        200,
        "1 W:W21,22,23,24,25,26,27,28,29,30,31,32:B1,2,3,4,5,6,7,8,10,11,12,13\n",
    ),
    (
        "[Event \"Club\"]\n[GameType \"21\"]\n\
        1. 11-15! 22-18 {a centre man} 2. 15x22 $1 (2. 15x22 26x17) 25x18 1/2-1/2\n",
        200,
        "1 B:W18,21,23,24,26,27,28,29,30,31,32:B1,2,3,4,5,6,7,8,9,10,12\n",
    ),
    // A king jumps four men and ends where it began: all such captures lead to one position.
    ("[FEN \"B:W6,7,14,15:BK2\"] 1. 2x2 *", 200, "1 W:W:BK2\n"),
    // A man jumps two of the four; the squares between say which.
    (
        "[FEN \"B:W6,7,14,15:B2\"] 1. 2x9x18 *",
        200,
        "1 W:W7,15:B18\n",
    ),
    (
        "[FEN \"B:W6,7,14,15:B2\"] 1. 2x11x18 *",
        200,
        "1 W:W6,14:B18\n",
    ),
    // Some of the moves, and none of them; a refused move behind them is not looked at.
    (
        "1. 11-15 22-18 2. 8-11 *",
        2,
        "1 B:W18,21,23,24,25,26,27,28,29,30,31,32:B1,2,3,4,5,6,7,8,9,10,12,15\n",
    ),
    ("1. 1-32 *", 0, START),
    // Three of the seven first moves, in games of their own.
    (
        "1. 9-14 * 1. 10-15 * 1. 12-16",
        200,
        "1 W:W21,22,23,24,25,26,27,28,29,30,31,32:B1,2,3,4,5,6,7,8,10,11,12,14\n\
        2 W:W21,22,23,24,25,26,27,28,29,30,31,32:B1,2,3,4,5,6,7,8,9,11,12,15\n\
        3 W:W21,22,23,24,25,26,27,28,29,30,31,32:B1,2,3,4,5,6,7,8,9,10,11,16\n",
    ),
    (
        "[FEN \"W:W16,23:B12\"] * [FEN \"B:W21:B10,17\"] *",
        200,
        "1 W:W16,23:B12\n2 B:W21:B10,17\n",
    ),
];

#[test]
fn leads_to_positions(rt: HostRuntime) -> Result<(), Fail> {
    expect(&rt, rt.alloc(), POSITIONS)
}

const FIRST_TAGS: &[Case] = &[
    (
        "[FEN \"W:W16,23:B12\"] [FEN \"B:W16,19:B12\"] *",
        200,
        "1 W:W16,23:B12\n",
    ),
    (
        "[FEN \"W:W16,23:B12\"] [FEN \"none\"] *",
        200,
        "1 W:W16,23:B12\n",
    ),
    (
        "[GameType \"21\"] [GameType \"20\"] [FEN \"W:W16,23:B12\"] *",
        200,
        "1 W:W16,23:B12\n",
    ),
    ("[GameType \"21,W,8,8,A0,0\"] *", 200, START),
    // Another name, if only by a letter's case or by a letter more.
    ("[fen \"W:W16,23:B12\"] *", 200, START),
    ("[FEN_ \"W:W16,23:B12\"] [FE \"none\"] *", 200, START),
    ("[gameType \"20\"] [Gametype \"20\"] *", 200, START),
];

#[test]
fn reads_the_first_tag_of_a_name(rt: HostRuntime) -> Result<(), Fail> {
    expect(&rt, rt.alloc(), FIRST_TAGS)
}

const FIRST_FAULTS: &[Case] = &[
    (
        "[FEN \"B:W6,7,14,15:B2\"] 1. 2x18 *",
        200,
        "1 1 27 ambiguous",
    ),
    (
        "[FEN \"B:W26,27:B22\"] 1. 22x31x24 *",
        200,
        "1 1 24 illegal",
    ),
    ("1. 11-15 22-18 2. 8-11 *", 200, "1 3 18 illegal"),
    ("[FEN \"W:W21:B30\"] *", 200, "1 man 30"),
    ("[FEN \"W:W21,21:B5\"] *", 200, "1 twice 21"),
    ("[FEN \"B:W16,19\"] *", 200, "1 truncated"),
    (
        "[FEN \"none\"] [FEN \"W:W16,23:B12\"] *",
        200,
        "1 bad-letter 0",
    ),
    ("[GameType \"20\"] [GameType \"21\"] *", 200, "1 other-game"),
    ("[GameType \"210\"] *", 200, "1 other-game"),
    ("[GameType \"2\"] *", 200, "1 other-game"),
    ("[GameType \"\"] *", 200, "1 other-game"),
    // The first fault of a game, in the order of another game, FEN, moves.
    (
        "[FEN \"none\"] [GameType \"25\"] 1. 1-32 *",
        200,
        "1 other-game",
    ),
    ("[FEN \"none\"] 1. 1-32 *", 200, "1 bad-letter 0"),
    ("1. 11-15 1-5 2. 2-6 *", 200, "1 2 9 illegal"),
    // The first game that has a fault.
    ("1. 9-13 * [GameType \"25\"] *", 200, "2 other-game"),
    ("1. 9-13 * 1. 9-14 1-5 *", 200, "2 2 18 illegal"),
    ("1. 1-32 * [FEN \"none\"] *", 200, "1 1 3 illegal"),
    (
        "[FEN \"none\"] * [GameType \"25\"] *",
        200,
        "1 bad-letter 0",
    ),
];

#[test]
fn refuses_the_first_fault(rt: HostRuntime) -> Result<(), Fail> {
    expect(&rt, rt.alloc(), FIRST_FAULTS)
}

/// What is printed of the refusals, a line each.
fn printed(alloc: Global) -> Result<String, AllocError> {
    let (game, ply, at) = (2, 5, 70);
    format!(in alloc;
        "{}\n{}\n{}\n{}\n{}\n",
        OpeningRefusal::OtherGame(game),
        OpeningRefusal::Fen(game, FenRefusal::Truncated),
        OpeningRefusal::Illegal { game, ply, at },
        OpeningRefusal::Ambiguous { game, ply, at },
        OpeningRefusal::Memory(AllocError)
    )
}

#[test]
fn refusals_name_their_data(rt: HostRuntime) -> Result<(), Fail> {
    let due = "game 2 is not one of English draughts\n\
        game 2 begins from no position: the text ends too early\n\
        game 2: the move of ply 5, at byte 70, is illegal\n\
        game 2: the move of ply 5, at byte 70, is ambiguous\n\
        out of memory\n";
    assert_eq!(rt; printed(rt.alloc())?.as_str(), due);
    Ok(())
}
