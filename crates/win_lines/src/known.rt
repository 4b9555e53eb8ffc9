//! Wins that are known.
use draughts_board::{Position, Side};
use strategy_certificate::{Oracle, table_rank};

/// Positions that a side is known to win. Nothing is promised of them: what is made of them goes to the checker.
pub trait KnownWins {
    /// In how many plies at most the side is known to win the position; none where it is not known to win.
    fn plies<O: Oracle>(&self, side: Side, p: &Position, oracle: &O) -> Option<u32>;
}

/// In how many plies at most the side wins the position by the table.
pub(crate) fn table_plies<O: Oracle>(oracle: &O, side: Side, p: &Position) -> Option<u32> {
    u32::try_from(table_rank(oracle, side, p)?).ok()
}
