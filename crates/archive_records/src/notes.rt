//! What is told of an archive: faults, doubtful readings and changes.
use archive_text::Place;
use thiserror::Error;

/// How much a note weighs.
#[derive(Clone, Copy, PartialEq, Eq, Debug)]
pub enum Weight {
    /// The game is left out.
    Fault,
    /// The game may be read in another way.
    Doubt,
    /// The game is written in other words, and there is one way to read it.
    Change,
}

/// What was found, and what may be done.
#[derive(Clone, Copy, PartialEq, Eq, Debug, Error)]
pub enum NoteKind {
    // ---- faults
    #[error("this is no move of squares 1 to 32: write it as 11-15 or 15x22")]
    BadMove,
    #[error("the move ends behind its sign: write the square that it goes to")]
    HalfMove,
    #[error("the comment that begins here is not closed before the next tag: write `}}` behind it")]
    OpenComment,
    #[error("the variation that begins here is not closed before the next tag: write `)` behind it")]
    OpenVariation,
    #[error("the game is of another kind than English draughts (21): take it out")]
    OtherGame,
    #[error("the game has two positions: write a result, as `*`, between two games")]
    TwoPositions,
    #[error("the position cannot be read: write it as B:W18,24,27,28,K10:B12,16,20,K22")]
    BadPosition,
    #[error("the game has neither a move, nor a position, nor a result: take it out")]
    EmptyGame,
    #[error("no such move is legal here (ply {ply}): a move before it may be wrong or missing")]
    IllegalMove { ply: u64 },
    #[error("several moves may be meant here (ply {ply}): write each square that the piece visits")]
    SeveralMoves { ply: u64 },

    // ---- doubtful readings
    #[error("a second Event without a result between: the game before ends here; write its result")]
    SecondEvent,
    #[error("no result stands behind the game, and a new one begins here: write its result, or `*`")]
    NoResult,
    #[error("move {found} stands where move {due} is due: moves may be missing or stand twice")]
    NumberOrder { found: u32, due: u32 },
    #[error("the game begins with move {found}: moves before it may be missing")]
    FirstNumber { found: u32 },
    #[error("move 1 again, without a result between: a new game is read from here")]
    NumberRestart,
    #[error("this number is no move number that is due, and is passed over")]
    StrayNumber,
    #[error("these words are passed over: write comments as {{so}}")]
    StrayWord,
    #[error("this sign is passed over")]
    StraySign,
    #[error("this result ends no game, and is passed over")]
    StrayResult,
    #[error("this bracket holds no tag, and is passed over: a tag is [Name \"value\"]")]
    NoTag,
    #[error("this tag is not closed: write `\"]` behind its value")]
    OpenTag,
    #[error("SetUp says that the game begins from a position, and none is given: write its FEN")]
    SetUpWithoutFen,
    #[error("White moves first, from the start: the colours, or the squares, may be turned round")]
    WhiteFirst,
    #[error("dots stand for a first move that is missing: write the position with White to move")]
    DotsFirst,
    #[error("the tag Result and the result behind the moves differ")]
    ResultsDiffer,
    #[error("this looks like a time, a date or an evaluation, and is passed over")]
    Clock,
    #[error("the kind of game is not known, and is taken as English draughts: write [GameType \"21\"]")]
    UnknownGame,
    #[error("the game has a result and no moves: take it out, if it was not played")]
    NoMoves,
    #[error("the archive has no game")]
    NoGame,
    #[error("the same game as game {first}")]
    SameGame { first: u64 },

    // ---- changes
    #[error("a tag without quotation marks")]
    BareTag,
    #[error("a tag whose name is no name of the strict profile is not written")]
    OddName,
    #[error("a result in words: a draw is written as 1/2-1/2, each other one as `*`")]
    WordResult,
    #[error("a GameType in other words than 21 is not written: English draughts is meant without it")]
    OddGameType,
    #[error("a position on a line of its own, or in another tag, written as the tag FEN")]
    BareFen,
    #[error("a position written without blanks, counters and small letters")]
    ChangedFen,
}

impl NoteKind {
    ghost use Rattle.std.specs.Prelude.{◌≡◌};
    ghost use Rattle.archive_records.specs.Weights.{weight_of};
    ghost use Rattle.archive_records.specs.Keeping.{is_fault};

    /// How much it weighs.
    pub fn weight(self) -> Weight
        ensures { result ≡ weight_of self }
    {
        match self {
            NoteKind::BadMove => Weight::Fault,
            NoteKind::HalfMove => Weight::Fault,
            NoteKind::OpenComment => Weight::Fault,
            NoteKind::OpenVariation => Weight::Fault,
            NoteKind::OtherGame => Weight::Fault,
            NoteKind::TwoPositions => Weight::Fault,
            NoteKind::BadPosition => Weight::Fault,
            NoteKind::EmptyGame => Weight::Fault,
            NoteKind::IllegalMove { ply: _ } => Weight::Fault,
            NoteKind::SeveralMoves { ply: _ } => Weight::Fault,
            NoteKind::BareTag => Weight::Change,
            NoteKind::OddName => Weight::Change,
            NoteKind::WordResult => Weight::Change,
            NoteKind::OddGameType => Weight::Change,
            NoteKind::BareFen => Weight::Change,
            NoteKind::ChangedFen => Weight::Change,
            _ => Weight::Doubt,
        }
    }

    /// It is a fault.
    pub fn is_fault(self) -> bool
        ensures { result ≡ is_fault (weight_of self) }
    {
        match self.weight() {
            Weight::Fault => true,
            Weight::Doubt => false,
            Weight::Change => false,
        }
    }
}

/// A note on an archive.
#[derive(Clone, Copy, PartialEq, Eq, Debug)]
pub struct Note {
    /// The sign that it speaks of.
    pub place: Place,
    pub kind: NoteKind,
}
