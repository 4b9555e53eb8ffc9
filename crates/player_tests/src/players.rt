//! Players that follow certificates: which moves they make, and the ranks that they keep.
ghost use Rattle.std.specs.Prelude.{◌≡◌, IfSome};
ghost use Rattle.std.specs.Result.{IfOk as OnFine};

use crate::certificates::{DRAWN, WON, accepted};
use certificate_player::Player;
use draughts_board::{Side, Square};
use endgame_table::{Table, fill};
use std::alloc::{AllocError, Global};
use std::test::Fail;

/// A player of the side by the certificate of this text; none where the certificate comes back.
fn player_of(alloc: Global, text: &str, side: Side, table: &Table) -> Result<Option<Player>, Fail>
    ensures { OnFine result (λ found. IfSome found (λ player. player.certificate.pieces ≡ table.now.pieces)) }
{
    let Some(proved) = accepted(alloc, text, table)? else {
        return Ok(None);
    };
    match Player::new(alloc, proved, side, table) {
        Ok(player) => Ok(Some(player)),
        Err(_) => Ok(None),
    }
}

/// The rank that the player keeps, as a text.
fn say_rank(alloc: Global, text: &mut String, player: &Player) -> Result<(), AllocError> {
    match player.rank() {
        Some(rank) => text.push_str(format!(in alloc; " {rank}, ")?.as_str()),
        None => text.push_str(" -, "),
    }
}

/// Makes the player's move, if it is its turn, and appends it with the rank behind it.
fn choose(
    alloc: Global,
    text: &mut String,
    player: &mut Player,
    table: &Table,
) -> Result<(), AllocError>
    requires { player.old.certificate.pieces ≡ table.now.pieces }
    ensures { player.new.certificate.pieces ≡ player.old.certificate.pieces }
{
    if player.position().to_move() != player.side() {
        return Ok(());
    }
    let path = player.choose(table)?;
    text.push_str(format!(in alloc; "{path}")?.as_str())?;
    say_rank(alloc, text, player)
}

/// Lets the player hear a move by its squares, if it is the other side's turn, and appends the rank
/// behind it, or why it is refused.
fn hear(
    alloc: Global,
    text: &mut String,
    player: &mut Player,
    squares: (u8, u8),
    table: &Table,
) -> Result<(), AllocError>
    requires { player.old.certificate.pieces ≡ table.now.pieces }
    ensures { player.new.certificate.pieces ≡ player.old.certificate.pieces }
{
    let (Some(from), Some(to)) = (Square::new(squares.0), Square::new(squares.1)) else {
        return text.push_str("no squares, ");
    };
    if player.position().to_move() == player.side() {
        return text.push_str("no reply is due, ");
    }
    match player.hear(from, &[], to, table) {
        Ok(()) => say_rank(alloc, text, player),
        Err(refusal) => text.push_str(format!(in alloc; " {refusal}, ")?.as_str()),
    }
}

/// The player's moves and ranks against these replies.
fn played(
    alloc: Global,
    text: &str,
    side: Side,
    replies: &[(u8, u8)],
    table: &Table,
) -> Result<String, Fail> {
    let mut told = String::new(alloc);
    let Some(mut player) = player_of(alloc, text, side, table)? else {
        return Ok(told);
    };
    say_rank(alloc, &mut told, &player)?;
    choose(alloc, &mut told, &mut player, table)?;
    for reply in replies {
        hear(alloc, &mut told, &mut player, *reply, table)?;
        choose(alloc, &mut told, &mut player, table)?;
    }
    Ok(told)
}

/// Certificates, sides, replies, and what is told: the first rank, and then behind each move.
const PLAYED: [(&str, Side, &[(u8, u8)], &str); 7] = [
    (WON, Side::Black, &[(25, 21)], " 3, 13-17 2,  1, 10-14 0, "),
    (WON, Side::Black, &[(25, 22)], " 3, 13-17 2,  1, 17x26 0, "),
    (
        WON,
        Side::Black,
        &[(25, 29), (25, 21)],
        " 3, 13-17 2,  no legal move is written so,  1, 10-14 0, ",
    ),
    (WON, Side::White, &[], ""),
    // The table shows that each move of a lone king against a lone king holds where it is not taken.
    (DRAWN, Side::Black, &[(1, 5)], " -, 15x24 -,  -, 24-19 -, "),
    (
        DRAWN,
        Side::Black,
        &[(1, 6), (6, 9)],
        " -, 15x24 -,  -, 24-19 -,  -, 19-15 -, ",
    ),
    (
        DRAWN,
        Side::White,
        &[(15, 24), (24, 28)],
        " -,  -, 1-5 -,  -, 5-1 -, ",
    ),
];

#[test]
fn follows_a_certificate_and_then_the_table(rt: HostRuntime) -> Result<(), Fail> {
    let table = fill(rt.alloc(), 2)?;
    for (text, side, replies, due) in PLAYED {
        let told = played(rt.alloc(), text, side, replies, &table)?;
        assert_eq!(rt; told.as_str(), due);
    }
    Ok(())
}
