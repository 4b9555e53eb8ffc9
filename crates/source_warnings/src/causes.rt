//! What a warning says.

/// Why something may be read otherwise than it was meant.
#[derive(Clone, Copy, PartialEq, Eq, Debug)]
pub enum Cause {
    /// The tag here is named like `FEN`, in other letters.
    LikeFen,
    /// The tag here is named like `GameType`, in other letters.
    LikeGameType,
    /// The tag `GameType` here begins as that of English draughts, and names another side or board.
    OtherGameType,
    /// The tag `FEN` here is not the first one of its game.
    SecondFen,
    /// The tag `GameType`, `Event`, `Black` or `White` here is not the first one of its game.
    SecondTag,
    /// The game that begins here has a tag `SetUp` of value 1 and no tag `FEN`.
    LacksFen,
    /// The result here stands behind another, and no tag or move between.
    SecondResult,
    /// The move here stands straight behind a star.
    StarMove,
    /// The number of a move here is the first of its game, which begins from the start, and is not 1.
    FirstNumber,
    /// The number of a move here is less than the one before it in its game.
    LesserNumber,
    /// The comment here, up to the end of the line, goes on behind a carriage return alone.
    RunsOn,
    /// The game that begins here has fewer moves than the plies that were asked.
    FewPlies {
        /// Its number, from 1.
        game: usize,
        /// How many moves it has.
        plies: usize,
    },
    /// The source has no game.
    NoGame,
}

/// A warning, and the byte of the source, from 0, at which its cause begins.
#[derive(Clone, Copy, PartialEq, Eq, Debug)]
pub struct Warning {
    pub at: usize,
    pub cause: Cause,
}
