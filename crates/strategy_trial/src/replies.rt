//! Which reply the other side makes.
use crate::games::Setting;
use anyhow::Result;
use draughts_board::{Move, Position};
use endgame_table::Table;
use rand_core::utils::NextWord;
use rand_pcg::Pcg32;
use std::alloc::Global;
use strategy_certificate::{Certificate, Part, table_rank};
use swift_moves::{apply, legal_moves};

/// How the other side replies.
#[derive(Clone, Copy, PartialEq, Eq)]
pub(crate) enum Manner {
    /// By a move that is drawn.
    Drawn,
    /// By a move behind which the certificate has the greatest rank.
    Stubborn,
}

/// The rank that a certificate has for a position, or the table; 0 where neither has one.
fn rank_at(certificate: &Certificate, table: &Table, p: &Position) -> u64 {
    match certificate.parts.as_slice() {
        [Part::Win(part)] => match part.find(p) {
            Some(entry) => entry.rank,
            None => table_rank(table, part.side(), p).unwrap_or(0),
        },
        _ => 0,
    }
}

/// A legal move that is drawn; none where there is none.
fn drawn(moves: &[Move], dice: &mut Pcg32) -> Option<Move> {
    let count = u32::try_from(moves.len()).unwrap_or(0);
    let place = dice.next_word().checked_rem(count)?;
    moves.get(place as usize).copied()
}

/// The first legal move behind which the certificate has the greatest rank.
fn most_stubborn(
    alloc: Global,
    certificate: &Certificate,
    table: &Table,
    p: &Position,
) -> Result<Option<Move>> {
    let mut best: Option<(u64, Move)> = None;
    for path in &legal_moves(alloc, p)? {
        let rank = rank_at(certificate, table, &apply(p, path));
        let is_better = match best {
            Some((greatest, _)) => rank > greatest,
            None => true,
        };
        if is_better {
            best = Some((rank, *path));
        }
    }
    Ok(best.map(|(_, path)| path))
}

/// The reply at a position; none where there is no legal move.
pub(crate) fn reply(
    alloc: Global,
    setting: &Setting<'_>,
    p: &Position,
    dice: &mut Pcg32,
) -> Result<Option<Move>> {
    match setting.manner {
        Manner::Drawn => Ok(drawn(&legal_moves(alloc, p)?, dice)),
        Manner::Stubborn => most_stubborn(alloc, setting.certificate, setting.table, p),
    }
}
