//! What is read: games with their tags and moves.
use draughts_board::Move;
use shared_words::ItemList;

/// A tag pair, as `[Event "Open"]`: the name, and the value without its quotation marks and
/// escapes.
#[derive(Debug, Drop)]
pub struct Tag {
    pub name: ItemList<u8>,
    pub value: ItemList<u8>,
}

/// A move as it stands in the text: the squares that are written, and the span of its bytes.
#[derive(Clone, Copy, Debug)]
pub struct MoveText {
    /// The place of its first byte.
    pub at: usize,
    /// The place behind its last byte.
    pub end: usize,
    /// The squares, in order. They may leave out squares that the piece visits between.
    pub squares: Move,
}

/// A game: its tags and its moves, each in the order of the text. Results, comments and variations
/// are not kept.
#[derive(Debug, Drop)]
pub struct Game {
    pub tags: ItemList<Tag>,
    pub moves: ItemList<MoveText>,
}
