//! Laws of the printed spelling, each as the contract of a function that does nothing.
ghost use Rattle.fen_text.specs.Laws.{PrintedIsSpelled, PrintedTellsApart, SpelledTellsApart, PrintedIsPlain};

/// The printed FEN of a position spells it, so reading it gives the position back.
pub fn printed_is_spelled()
    ensures { PrintedIsSpelled }
{}

/// No two positions have one printed FEN.
pub fn printed_tells_apart()
    ensures { PrintedTellsApart }
{}

/// No text spells two positions.
pub fn spelled_tells_apart()
    ensures { SpelledTellsApart }
{}

/// A printed FEN has only digits and the bytes `,`, `:`, `B`, `K` and `W`: it may stand in a line,
/// between blanks and between quotes.
pub fn printed_is_plain()
    ensures { PrintedIsPlain }
{}
