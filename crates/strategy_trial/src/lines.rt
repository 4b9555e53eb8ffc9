//! Lines of play as games of PDN, which are read again.
use anyhow::{Result, bail, ensure};
use bench_disk::MemoryDisk;
use certificate_checker::{Proved, check};
use certificate_lines::{Lengths, Line, line_of};
use draughts_board::Position;
use endgame_table::Table;
use journal_looks::{LookRefusal, certify};
use journal_pages::line_text;
use pdn_openings::openings;
use pdn_text::read_games;
use std::alloc::Global;
use strategy_certificate::Certificate;

/// For how many plies the line of a draw goes on, and before which ply variations begin.
const LENGTHS: Lengths = Lengths {
    drawn: 20,
    varied: 6,
};

/// More plies than a line has.
const ALL_PLIES: u32 = 1_000_000;

/// The certificate of a root; none where the root has no value.
fn certificate_of(alloc: Global, disk: &mut MemoryDisk, root: u32) -> Result<Option<Certificate>> {
    match certify(alloc, disk, root) {
        Ok(certificate) => Ok(Some(certificate)),
        Err(LookRefusal::UnsettledRoot(_)) => Ok(None),
        Err(_) => bail!("a root of the journal is refused"),
    }
}

/// The line of a certificate, with its text.
fn line_with_text(
    alloc: Global,
    proved: &Proved,
    root: u32,
    table: &Table,
) -> Result<(Line, Vec<u8>)> {
    ensure!(
        proved.certificate().pieces == table.pieces(),
        "another table"
    );
    let line = line_of(alloc, proved, LENGTHS, table)?;
    let claim = proved.certificate().claim;
    let text = line_text(
        alloc,
        root,
        &line.start,
        claim,
        &line.moves,
        &line.variations,
    )?;
    Ok((line, text))
}

/// How many moves the one game of a text has, and the position to which they lead.
fn read_again(alloc: Global, text: &[u8]) -> Result<(usize, Position)> {
    let games = read_games(alloc, text)?;
    let found = openings(alloc, &games, ALL_PLIES)?;
    match (games.as_slice(), found.as_slice()) {
        ([game], [opening]) => Ok((game.moves.as_slice().len(), opening.position)),
        _ => bail!("a line is not read as one game"),
    }
}

/// Writes the line of a root and reads it again; answers whether the root has a value.
pub(crate) fn is_read_again(
    alloc: Global,
    disk: &mut MemoryDisk,
    root: u32,
    table: &Table,
) -> Result<bool> {
    let Some(certificate) = certificate_of(alloc, disk, root)? else {
        return Ok(false);
    };
    ensure!(certificate.pieces == table.pieces(), "another table");
    let proved = check(alloc, certificate, table).map_err(|refused| refused.1)?;
    let (line, text) = line_with_text(alloc, &proved, root, table)?;
    let (moves, end) = read_again(alloc, &text)?;
    ensure!(
        moves == line.moves.len(),
        "a line that is read has other moves"
    );
    ensure!(
        end == line.end,
        "the moves of a line that is read lead elsewhere"
    );
    Ok(true)
}
