//! What a search settles of a position, and of a list.
use crate::lists::ListedPosition;
use anyhow::{Result, ensure};
use certificate_checker::{MOST_DEPTH, Outcome};
use draughts_board::{Position, Side, Value};
use leaf_search::{Memo, is_undecided, search};
use std::alloc::Global;
use strategy_certificate::{Answer, Claim, Oracle};

/// How many positions were settled, by what was found of them.
#[derive(Clone, Copy, PartialEq, Eq, Default)]
pub(crate) struct Tally {
    pub(crate) black_wins: u32,
    pub(crate) white_wins: u32,
    pub(crate) draws: u32,
    pub(crate) unsettled: u32,
}

impl Tally {
    /// The tally with one position more, of which this was found.
    fn with(self, found: Option<Value>) -> Tally {
        let mut tally = self;
        let count = match found {
            Some(Value::BlackWins) => &mut tally.black_wins,
            Some(Value::WhiteWins) => &mut tally.white_wins,
            Some(Value::Draw) => &mut tally.draws,
            None => &mut tally.unsettled,
        };
        *count = count.saturating_add(1);
        tally
    }
}

/// The value of a position that the side wins.
fn win_of(side: Side) -> Value {
    match side {
        Side::Black => Value::BlackWins,
        Side::White => Value::WhiteWins,
    }
}

/// The value of a position that is decided at sight.
fn value_at_sight<O: Oracle>(p: &Position, oracle: &O) -> Value {
    match oracle.answer(p) {
        Some(Answer::Win(_)) => win_of(p.to_move()),
        Some(Answer::Draw) => Value::Draw,
        Some(Answer::Loss(_)) | None => win_of(p.to_move().other()),
    }
}

/// The value that the answer of a search shows: one win, or both holds.
fn value_shown(outcome: &Outcome) -> Option<Value> {
    match outcome {
        Outcome::Exhausted(_) => None,
        Outcome::Solved(found) => match found.as_slice() {
            [only] => match only.certificate().claim {
                Claim::Win(side) => Some(win_of(side)),
                Claim::Draw => Some(Value::Draw),
                Claim::Hold(_) => None,
            },
            _ => Some(Value::Draw),
        },
    }
}

/// The value of the position, where looking `depth` plies ahead settles it.
pub(crate) fn settle<O: Oracle>(
    alloc: Global,
    p: &Position,
    depth: u8,
    oracle: &O,
    memo: &mut Memo,
) -> Result<Option<Value>> {
    ensure!(depth <= MOST_DEPTH, "too deep");
    ensure!(
        memo.pieces() == oracle.pieces(),
        "a memory for other tables"
    );
    if !is_undecided(p, oracle) {
        return Ok(Some(value_at_sight(p, oracle)));
    }
    let outcome = search(alloc, p, Side::Black, depth, oracle, memo)?;
    Ok(value_shown(&outcome))
}

/// How many positions of the list are settled `depth` plies ahead. A value that is found and is not the list's is an error.
pub(crate) fn settle_all<O: Oracle>(
    alloc: Global,
    rows: &[ListedPosition],
    depth: u8,
    oracle: &O,
    memo: &mut Memo,
) -> Result<Tally> {
    let mut tally = Tally::default();
    for row in rows {
        let found = settle(alloc, &row.position, depth, oracle, memo)?;
        if let (Some(found), Some(due)) = (found, row.value) {
            ensure!(found == due, "another value of {}", row.position);
        }
        tally = tally.with(found);
    }
    Ok(tally)
}
