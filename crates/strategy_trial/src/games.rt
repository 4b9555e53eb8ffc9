//! Games by a root's certificate.
ghost use Rattle.std.specs.Prelude.{◌≡◌, IfSome};
ghost use Rattle.std.specs.Result.{IfOk as OnFine};

use crate::replies::{Manner, reply};
use anyhow::{Result, bail, ensure};
use bench_disk::MemoryDisk;
use certificate_checker::check;
use certificate_player::Player;
use certificate_text::{print_certificate, read_certificate};
use draughts_board::{Position, Side};
use endgame_table::Table;
use journal_looks::{LookRefusal, certify};
use rand_pcg::Pcg32;
use std::alloc::Global;
use strategy_certificate::{Certificate, Oracle, table_holds};
use swift_moves::has_move;

/// How many plies a held position is played.
const HELD_PLIES: u64 = 100;

/// How many games are drawn of each root and side.
const DRAWN_GAMES: u32 = 29;

/// How many games there were of each kind.
#[derive(Clone, Copy, Default)]
pub(crate) struct Tally {
    pub(crate) won: u64,
    pub(crate) held: u64,
}

/// The text of the certificate of a root; none where the root has no value.
fn certificate_of(alloc: Global, disk: &mut MemoryDisk, root: u32) -> Result<Option<Vec<u8>>> {
    match certify(alloc, disk, root) {
        Ok(certificate) => Ok(Some(print_certificate(alloc, &certificate)?)),
        Err(LookRefusal::UnsettledRoot(_)) => Ok(None),
        Err(_) => bail!("a root of the journal is refused"),
    }
}

/// A player of the side by the certificate of this text; none where the side does not hold.
fn player_of(alloc: Global, text: &[u8], side: Side, table: &Table) -> Result<Option<Player>>
    ensures { OnFine result (λ found. IfSome found (λ player.
        player.certificate.pieces ≡ table.now.pieces)) }
{
    let certificate = read_certificate(alloc, text)?;
    ensure!(certificate.pieces == table.pieces(), "another table");
    let proved = check(alloc, certificate, table).map_err(|refused| refused.1)?;
    Ok(Player::new(alloc, proved, side, table).ok())
}

/// The table of three pieces shows no win of the other side.
fn is_held(wide_table: &Table, side: Side, p: &Position) -> bool {
    match wide_table.answer(p) {
        Some(_) => table_holds(wide_table, side, p),
        None => true,
    }
}

/// What a game needs.
#[derive(Clone, Copy)]
pub(crate) struct Setting<'a> {
    /// The certificate, by which stubborn replies are found.
    pub(crate) certificate: &'a Certificate,
    pub(crate) table: &'a Table,
    pub(crate) wide_table: &'a Table,
    pub(crate) manner: Manner,
}

/// One ply of a game; answers whether the game has ended, the other side having no move.
fn ply(alloc: Global, player: &mut Player, setting: &Setting<'_>, dice: &mut Pcg32) -> Result<bool>
    requires { player.old.certificate.pieces ≡ setting.now.table.now.pieces }
    ensures { player.new.certificate.pieces ≡ player.old.certificate.pieces }
{
    let p = player.position();
    ensure!(
        is_held(setting.wide_table, player.side(), &p),
        "a held position is lost"
    );
    if p.to_move() == player.side() {
        ensure!(has_move(&p), "the player stands without a move");
        player.choose(setting.table)?;
        return Ok(false);
    }
    let Some(path) = reply(alloc, setting, &p, dice)? else {
        return Ok(true);
    };
    let squares = path.path();
    let last = squares.len() - 1;
    match player.hear(squares[0], &squares[1..last], squares[last], setting.table) {
        Ok(()) => Ok(false),
        Err(_) => bail!("a legal reply is refused"),
    }
}

/// Plays on for `most` plies at most; answers whether the other side came to stand without a move.
fn is_won(
    alloc: Global,
    player: &mut Player,
    most: u64,
    setting: &Setting<'_>,
    dice: &mut Pcg32,
) -> Result<bool>
    requires { player.old.certificate.pieces ≡ setting.now.table.now.pieces }
{
    for _ in 0..=most {
        if ply(alloc, player, setting, dice)? {
            return Ok(true);
        }
    }
    Ok(false)
}

/// Plays a game, and counts it.
fn play(
    alloc: Global,
    player: Player,
    setting: &Setting<'_>,
    dice: &mut Pcg32,
    tally: &mut Tally,
) -> Result<()>
    requires { player.certificate.pieces ≡ setting.now.table.now.pieces }
{
    let mut player = player;
    match player.rank() {
        Some(rank) => {
            ensure!(
                is_won(alloc, &mut player, rank, setting, dice)?,
                "a won root is not won within its rank"
            );
            tally.won = tally.won.saturating_add(1);
        }
        None => {
            is_won(alloc, &mut player, HELD_PLIES, setting, dice)?;
            tally.held = tally.held.saturating_add(1);
        }
    }
    Ok(())
}

/// Plays a game of the side by the certificate of this text, if the side holds.
fn play_side(
    alloc: Global,
    text: &[u8],
    side: Side,
    setting: &Setting<'_>,
    dice: &mut Pcg32,
    tally: &mut Tally,
) -> Result<()> {
    match player_of(alloc, text, side, setting.table)? {
        Some(player) => play(alloc, player, setting, dice, tally),
        None => Ok(()),
    }
}

/// Plays the games of a root: of each side that holds, one against stubborn replies and some against
/// drawn ones.
pub(crate) fn play_root(
    alloc: Global,
    disk: &mut MemoryDisk,
    root: u32,
    tables: (&Table, &Table),
    dice: &mut Pcg32,
    tally: &mut Tally,
) -> Result<()> {
    let Some(text) = certificate_of(alloc, disk, root)? else {
        return Ok(());
    };
    let certificate = read_certificate(alloc, &text)?;
    for number in 0..=DRAWN_GAMES {
        let setting = Setting {
            certificate: &certificate,
            table: tables.0,
            wide_table: tables.1,
            manner: if number == 0 {
                Manner::Stubborn
            } else {
                Manner::Drawn
            },
        };
        play_side(alloc, &text, Side::Black, &setting, dice, tally)?;
        play_side(alloc, &text, Side::White, &setting, dice, tally)?;
    }
    Ok(())
}
