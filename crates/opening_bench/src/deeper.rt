//! What a person is told of roots for which a greater depth tries more.
use crate::shares::Share;

/// Of roots with more pieces nothing is told: a greater depth seldom settles them.
const MOST_PIECES: u32 = 6;

/// The most pieces with which a search of `EIGHT` plies works out all positions below.
const PIECES_AT_EIGHT: u32 = 4;

/// The depth that settles what two pieces against two come to.
const EIGHT: u8 = 8;

/// The depth at which most is tried.
const TWELVE: u8 = 12;

/// How many pieces the unsettled root has that has fewest; none where each root is settled.
fn fewest_unsettled(shares: &[Share]) -> Option<u32> {
    let unsettled = shares.iter().filter(|share| !share.is_settled);
    unsettled.map(|share| share.pieces).min()
}

/// Which depth tries more for a root with this number of pieces, and how long a search took there at most where that was measured.
fn deeper(depth: u8, pieces: u32) -> &'static str {
    if pieces > MOST_PIECES || depth >= TWELVE {
        ""
    } else if depth < EIGHT && pieces <= PIECES_AT_EIGHT {
        "\nWith `--depth 8` a search tries more for an unsolved root of at most four pieces; each that was measured took less than 2 s.\n"
    } else {
        "\nWith `--depth 12` a search tries most for an unsolved root of at most six pieces; each that was measured took less than 30 s.\n"
    }
}

/// What a person is told of the roots of a run at this depth: where one of few pieces is unsettled, which depth tries more for it,
/// and how long a search takes then at most.
pub(crate) fn deeper_text(depth: u8, shares: &[Share]) -> &'static str {
    match fewest_unsettled(shares) {
        Some(pieces) => deeper(depth, pieces),
        None => "",
    }
}
