//! The games that were seen, to tell the same game twice.
use draughts_board::Square;
use fen_text::print_fen;
use sha2::{Digest, Sha512};
use std::alloc::{AllocError, Global};
use std::collections::BTreeMap;
use strict_games::{Draft, Score};

/// For how many bytes there is room at once.
const ROOM: usize = 512;

/// The number of the first game with each text, by the first 128 bits of a SHA-512 of what the text
/// says. They stand in a tree, in the order of these bits, so nobody who chooses the games can make a
/// look-up slow.
#[derive(Drop)]
pub struct Seen {
    games: BTreeMap<u128, u64>,
}

/// Appends the squares of a move, the last one with 64 added.
fn push_squares(bytes: &mut Vec<u8>, path: &[Square]) -> Result<(), AllocError> {
    if let [first @ .., last] = path {
        for square in first {
            bytes.push(square.number())?;
        }
        bytes.push(last.number() + 64)?;
    }
    Ok(())
}

/// What a draft's text with this result says, in few bytes: the FEN, each tag with byte 10 behind its
/// name and its value, byte 10, the result, the moves.
fn told_by(alloc: Global, draft: &Draft, score: Score) -> Result<Vec<u8>, AllocError> {
    let mut bytes = Vec::with_capacity(alloc, ROOM)?;
    if let Some(p) = draft.set_up() {
        bytes.extend_from_slice(print_fen(p).as_bytes())?;
    }
    for tag in draft.tags() {
        bytes.push(b'\n')?;
        bytes.extend_from_slice(tag.name.as_slice())?;
        bytes.push(b'\n')?;
        bytes.extend_from_slice(tag.value.as_slice())?;
    }
    bytes.extend_from_slice(b"\n\n")?;
    bytes.push(score as u8)?;
    for squares in draft.moves() {
        push_squares(&mut bytes, squares.path())?;
    }
    Ok(bytes)
}

/// The first 128 bits of the SHA-512 of these bytes.
fn key_of(bytes: &[u8]) -> u128 {
    let [a, b, c, d, e, f, g, h, i, j, k, l, m, n, o, p, ..] = Sha512::digest(bytes);
    u128::from_be_bytes([a, b, c, d, e, f, g, h, i, j, k, l, m, n, o, p])
}

impl Seen {
    ghost use Rattle.std.specs.Prelude.{◌≡◌, [], IfOk};
    ghost use Rattle.game_reader.specs.Seen.{IsSeen};

    /// No game.
    pub fn new(alloc: Global) -> Seen
        ensures { result.games.entries ≡ [] }
    {
        Seen {
            games: BTreeMap::new(alloc),
        }
    }

    /// The number of the first game whose text with this result is the same, if there was one; else
    /// this game is the first. After want of memory nothing is said of the games.
    pub fn first_same(
        &mut self,
        alloc: Global,
        draft: &Draft,
        score: Score,
        number: u64,
    ) -> Result<Option<u64>, AllocError>
        ensures { IfOk result (IsSeen self.old self.new number) }
    {
        let key = key_of(&told_by(alloc, draft, score)?);
        if let Some(first) = self.games.get(&key) {
            return Ok(Some(*first));
        }
        match self.games.insert(key, number) {
            Ok(_) => Ok(None),
            Err(_) => Err(AllocError),
        }
    }
}
