//! A game as an archive has it.
use crate::notes::Note;
use archive_text::Place;
use archive_words::Outcome;
use draughts_board::Move;
use std::alloc::Global;

/// A tag. Both texts are UTF-8.
#[derive(Debug, Drop)]
pub struct ArchiveTag {
    /// Where its `[` stands.
    pub place: Place,
    /// Its name, as it is written.
    pub name: Vec<u8>,
    /// Its value, without quotation marks around it and without escapes, on one line.
    pub value: Vec<u8>,
}

/// A move: the squares that are written.
#[derive(Clone, Copy, Debug)]
pub struct ArchiveMove {
    /// Where its first square stands.
    pub place: Place,
    /// The squares, from the first to the last. Squares between may be left out.
    pub squares: Move,
}

/// The position that a game begins from.
#[derive(Debug, Drop)]
pub struct FoundPosition {
    /// Where its tag, or its line, begins.
    pub place: Place,
    /// Its FEN, without blanks, counters and small letters. It may be no FEN of a position.
    pub fen: Vec<u8>,
}

/// The result of a game.
#[derive(Clone, Copy, PartialEq, Eq, Debug)]
pub struct FoundResult {
    /// Where it begins.
    pub place: Place,
    pub outcome: Outcome,
}

/// A game of an archive.
#[derive(Debug, Drop)]
pub struct ArchiveGame {
    /// Its number, from 1.
    pub number: u64,
    /// Where it begins: its first tag, its position or its first move.
    pub begins: Place,
    /// Its tags, in order, without those that give its position.
    pub tags: Vec<ArchiveTag>,
    /// The position that it begins from; none where it begins from the start.
    pub position: Option<FoundPosition>,
    /// Its moves, in order.
    pub moves: Vec<ArchiveMove>,
    /// Its result, where one stands behind the moves.
    pub result: Option<FoundResult>,
    /// What is told of it, and of what stands between the game before and its end, in order.
    pub notes: Vec<Note>,
    /// A fault was found in it: it is not to be written.
    pub is_left_out: bool,
}

impl ArchiveGame {
    ghost use Rattle.std.specs.Prelude.{◌≡◌, ℕ, [], None, false};
    ghost use Rattle.archive_records.specs.Inside.{IsGameWithin};

    /// A game of this number that has not begun.
    pub fn empty(alloc: Global, number: u64) -> ArchiveGame
        ensures number { result.number ≡ number }
        ensures bare { (result.tags.items ≡ []) × (result.moves.items ≡ []) × (result.notes.items ≡ []) }
        ensures none { (result.position ≡ None) × (result.result ≡ None) }
        ensures written { result.is_left_out ≡ false }
        ensures within { (bytes : ℕ) → IsGameWithin bytes result }
    {
        ArchiveGame {
            number,
            begins: Place::FIRST,
            tags: Vec::new(alloc),
            position: None,
            moves: Vec::new(alloc),
            result: None,
            notes: Vec::new(alloc),
            is_left_out: false,
        }
    }
}
