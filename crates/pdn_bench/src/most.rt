//! As many games as a text may have, and one more.
use anyhow::Result;
use pdn_openings::{Opening, openings};
use pdn_text::{MOST_GAMES, read_games};
use std::alloc::{AllocError, Global};

/// The first moves of each game.
const GAME: &[u8; 39] = b"1. 11-15 22-18 2. 15x22 25x18 3. 8-11 *";

/// A text of `games` games.
fn text_of(alloc: Global, games: usize) -> Result<Vec<u8>, AllocError> {
    let mut text = Vec::new(alloc);
    for _ in 0..games {
        text.extend_from_slice(GAME)?;
        text.push(b'\n')?;
    }
    Ok(text)
}

/// How many of the openings stand on the position of the first.
fn count_of_first(openings: &[Opening]) -> usize {
    match openings {
        [first, ..] => openings
            .iter()
            .filter(|o| o.position == first.position)
            .count(),
        [] => 0,
    }
}

/// Prints what the games give, and why one game more is refused.
pub(crate) fn tell(rt: &(impl Print + Alloc<A = Global>)) -> Result<()> {
    let games = read_games(rt.alloc(), text_of(rt.alloc(), MOST_GAMES)?.as_slice())?;
    println!(rt; "{} games read", games.len())?;
    if games.len() <= MOST_GAMES {
        let found = openings(rt.alloc(), &games, 5)?;
        let same = count_of_first(&found);
        println!(rt; "{} openings, {same} on one position", found.len())?;
    }
    match read_games(rt.alloc(), text_of(rt.alloc(), MOST_GAMES + 1)?.as_slice()) {
        Ok(more) => println!(rt; "{} games read", more.len())?,
        Err(refusal) => println!(rt; "one game more: {refusal}")?,
    }
    Ok(())
}
