//! A strategy, step by step.
use draughts_board::{Move, Position, Side};
use strategy_certificate::Part;

/// What a strategy is to show of its side.
#[derive(Clone, Copy, PartialEq, Eq)]
pub(crate) enum Aim {
    /// It wins.
    Win,
    /// It never loses.
    Hold,
}

/// What is to be shown, of which side, with tables of how many pieces.
#[derive(Clone, Copy)]
pub(crate) struct Quest {
    pub(crate) aim: Aim,
    pub(crate) side: Side,
    pub(crate) pieces: u8,
}

/// How a position of a strategy is shown.
#[derive(Clone, Copy)]
pub(crate) enum Reason<'a> {
    /// The endgame table shows it.
    Table,
    /// This part of a certificate shows it.
    Shown(&'a Part),
    /// Play goes on by this move, or by every reply where none is chosen.
    Play(Option<Move>),
    /// It stands earlier in the strategy.
    Repeats,
}

/// A position of a strategy, and how it is shown.
#[derive(Clone, Copy)]
pub(crate) struct Step<'a> {
    pub(crate) position: Position,
    pub(crate) reason: Reason<'a>,
}
