//! Games, and which of them are told to lead to a position, worked out by hand.
use draughts_board::Position;
use fen_text::read_fen;
use opened_games::OpenedGames;
use pdn_openings::openings;
use pdn_text::read_games;
use std::alloc::Global;
use std::test::Fail;

/// Three games: the first and the third come to the same position by other moves, and a name has a byte
/// that is no ASCII.
const GAMES: &[u8] = b"[Event \"Club\"][Black \"Ann\"][White \"B\xf6b\"] 1. 9-13 22-18 2. 10-14 *
[Event \"Open\"] 1. 9-13 22-17 *
1. 10-14 22-18 2. 9-13 *";

/// The lines of the games that lead to the position of this FEN after this number of plies.
fn told(alloc: Global, plies: u32, fen: &str) -> Result<String, Fail> {
    let games = read_games(alloc, GAMES)?;
    let found = openings(alloc, &games, plies)?;
    let opened = OpenedGames::of(alloc, games, found)?;
    let position: Position = read_fen(fen.as_bytes())?;
    let mut text = Vec::new(alloc);
    opened.push_games_at(&mut text, &position)?;
    Ok(String::from_utf8(text)?)
}

/// Numbers of plies, positions, and the lines of the games that lead there.
const ROWS: [(u32, &str, &str); 4] = [
    (
        3,
        "W:W18,21,23,24,25,26,27,28,29,30,31,32:B1,2,3,4,5,6,7,8,11,12,13,14",
        "  game 1 (Club, Ann - B\\xF6b)\n  game 3 (?, ? - ?)\n",
    ),
    (
        2,
        "B:W17,21,23,24,25,26,27,28,29,30,31,32:B1,2,3,4,5,6,7,8,10,11,12,13",
        "  game 2 (Open, ? - ?)\n",
    ),
    (
        1,
        "W:W21,22,23,24,25,26,27,28,29,30,31,32:B1,2,3,4,5,6,7,8,10,11,12,13",
        "  game 1 (Club, Ann - B\\xF6b)\n  game 2 (Open, ? - ?)\n",
    ),
    (
        3,
        "B:W21,22,23,24,25,26,27,28,29,30,31,32:B1,2,3,4,5,6,7,8,9,10,11,12",
        "",
    ),
];

#[test]
fn tells_the_games_at_a_position(rt: HostRuntime) -> Result<(), Fail> {
    for (plies, fen, due) in ROWS {
        let told = told(rt.alloc(), plies, fen)?;
        assert_eq!(rt; told.as_str(), due);
    }
    Ok(())
}
