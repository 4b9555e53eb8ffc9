//! Why games have no openings.
use fen_text::FenRefusal;
use std::alloc::AllocError;
use thiserror::Error;

/// The fault of the first game that has one. Games and plies are counted from 1; places are byte
/// offsets from 0 in the text that the games were read from.
#[derive(Clone, Copy, PartialEq, Eq, Debug, Error)]
pub enum OpeningRefusal {
    /// The first `GameType` tag of this game names another game than English draughts.
    #[error("game {0} is not one of English draughts")]
    OtherGame(u32),
    /// The value of this game's first `FEN` tag is no FEN. Its own places count from the value's
    /// first byte.
    #[error("game {0} begins from no position: {1}")]
    Fen(u32, FenRefusal),
    /// No legal move is written so.
    #[error("game {game}: the move of ply {ply}, at byte {at}, is illegal")]
    Illegal {
        /// The game.
        game: u32,
        /// The ply of the first move that is refused.
        ply: u32,
        /// The place of its first byte.
        at: usize,
    },
    /// Two legal moves that lead to different positions are written so.
    #[error("game {game}: the move of ply {ply}, at byte {at}, is ambiguous")]
    Ambiguous {
        /// The game.
        game: u32,
        /// The ply of the first move that is refused.
        ply: u32,
        /// The place of its first byte.
        at: usize,
    },
    /// Memory ran out.
    #[error("out of memory")]
    Memory(AllocError),
}
